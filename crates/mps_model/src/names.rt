// Names of rows and columns, each with the place that it has among them.
ghost use Rattle.std.specs.Prelude.{◌≡◌, ◌++◌, ◌∷◌, [], ℕ, List as Items, length, map, IfOk, OnOk};
ghost use Rattle.mps_sections.specs.Statements.{stated_row_names};
ghost use Rattle.mps_sections.specs.Limits.{AreNamesApart, names_of_columns};
ghost use Rattle.mps_model.specs.Places.{IsIndexOf, find};
ghost use Rattle.mps_model.specs.private.Places.{IsFoundAt};

use crate::name_index::NameIndex;
use lp_model::{List, Name};
use mps_sections::{ColumnLines, RowLine, copied};
use std::alloc::{AllocError, Global};

/// Names that differ, and where each stands.
#[derive(Drop)]
pub(crate) struct Names {
    pub names: List<Name>,
    places: NameIndex,
    ghost apart: { AreNamesApart names },
    ghost index: { IsIndexOf names places },
}

/// Puts a copy of a name behind others.
pub(crate) fn push_copy(
    alloc: Global,
    names: &mut List<Name>,
    name: &[u8],
) -> Result<(), AllocError>
    ensures { OnOk result (names.new ≡ names.old ++ name.now ∷ []) }
{
    let Ok(copy) = copied(alloc, name) else {
        return Err(AllocError);
    };
    names.push(copy)
}

/// The names of the rows.
pub(crate) fn names_of_rows(alloc: Global, rows: &[RowLine]) -> Result<List<Name>, AllocError>
    ensures { IfOk result (λ names. names ≡ stated_row_names rows.now) }
{
    let mut names = List::new(alloc);
    for row in rows {
        let Ok(()) = push_copy(alloc, &mut names, row.name.as_slice()) else {
            drop(names);
            return Err(AllocError);
        };
    }
    Ok(names)
}

/// The names of the columns.
pub(crate) fn names_of_columns(
    alloc: Global,
    columns: &[ColumnLines],
) -> Result<List<Name>, AllocError>
    ensures { IfOk result (λ names. names ≡ names_of_columns columns.now) }
{
    let mut names = List::new(alloc);
    for column in columns {
        let Ok(()) = push_copy(alloc, &mut names, column.name.as_slice()) else {
            drop(names);
            return Err(AllocError);
        };
    }
    Ok(names)
}

fn index_of(alloc: Global, names: &[Name]) -> Result<NameIndex, AllocError>
    ensures { IfOk result (λ index. IsIndexOf names.now index) }
{
    let mut index = NameIndex::new(alloc);
    for place in 0..names.len() {
        let Ok(()) = index.insert(alloc, names[place].as_slice(), place) else {
            drop(index);
            return Err(AllocError);
        };
    }
    Ok(index)
}

impl Names {
    /// Names that differ, with their places.
    pub(crate) fn of(alloc: Global, names: List<Name>) -> Result<Names, AllocError>
        requires { AreNamesApart names }
        ensures { IfOk result (λ all. all.names ≡ names) }
    {
        let Ok(places) = index_of(alloc, names.as_slice()) else {
            drop(names);
            return Err(AllocError);
        };
        Ok(Names { names, places })
    }

    /// The place of a name.
    pub(crate) fn find(&self, name: &[u8]) -> Option<usize>
        ensures found { IsFoundAt self.now.names name.now result }
        ensures apart { AreNamesApart self.now.names }
    {
        self.places.find(name)
    }

    /// How many names there are.
    pub(crate) fn len(&self) -> usize
        ensures { result ≡ length self.now.names }
    {
        self.names.as_slice().len()
    }
}
