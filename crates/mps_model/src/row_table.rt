// The rows of a text by name, with their numbers of RHS, and the first number of RANGES whose sides have no room.
ghost use Rattle.std.specs.Prelude.{◌≡◌, IfOk, length};
ghost use Rattle.mps_sections.specs.Statements.{stated_row_names};
ghost use Rattle.mps_sections.specs.Limits.{AreNamesApart};
ghost use Rattle.mps_sections.specs.Shown.{flaw_shown};
ghost use Rattle.mps_model.specs.Faults.{code_of_range, range_flaw};
ghost use Rattle.mps_model.specs.private.Tables.{IsRowTableOf};

use crate::beside::numbers_beside;
use crate::names::{Names, names_of_rows};
use crate::ranges::has_room;
use frac128::Frac;
use mps_sections::{RangeLine, Sections};
use mps_text::LineFault;
use std::alloc::{AllocError, Global};

/// The names of the rows with their places, and the number of RHS beside each row.
#[derive(Drop)]
pub(crate) struct RowTable {
    pub names: Names,
    pub numbers: Vec<Frac>,
}

impl RowTable {
    /// The table of the rows that a text states.
    pub(crate) fn of(alloc: Global, sections: &Sections) -> Result<RowTable, AllocError>
        requires { AreNamesApart (stated_row_names sections.now.rows) }
        ensures { IfOk result (IsRowTableOf sections.now) }
    {
        let Ok(list) = names_of_rows(alloc, sections.rows.as_slice()) else {
            return Err(AllocError);
        };
        let Ok(names) = Names::of(alloc, list) else {
            return Err(AllocError);
        };
        match numbers_beside(alloc, &names, sections.sides.as_slice()) {
            Ok(numbers) => Ok(RowTable { names, numbers }),
            Err(error) => {
                drop(names);
                Err(error)
            }
        }
    }

    /// The code of a number of RANGES, if it has one.
    fn code_of_range(&self, sections: &Sections, item: &RangeLine) -> Option<u8>
        requires { IsRowTableOf sections.now self.now }
        ensures { result ≡ code_of_range sections.now item.now }
    {
        match self.names.find(item.row.as_slice()) {
            Some(place) => {
                let rows = sections.rows.as_slice();
                let numbers = self.numbers.as_slice();
                let row = &rows[place];
                if has_room(row.kind, &numbers[place], &item.number) {
                    None
                } else {
                    Some(13)
                }
            }
            None => None,
        }
    }

    /// The line of the first number of RANGES with a code.
    pub(crate) fn range_flaw(&self, sections: &Sections, ranges: &[RangeLine]) -> Option<LineFault>
        requires { IsRowTableOf sections.now self.now }
        ensures { flaw_shown result ≡ range_flaw sections.now ranges.now }
    {
        for place in 0..ranges.len() {
            let item = &ranges[place];
            let line = item.line;
            if let Some(code) = self.code_of_range(sections, item) {
                return Some(LineFault { line, code });
            }
        }
        None
    }
}
