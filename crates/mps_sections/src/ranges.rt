// The numbers of RANGES.
ghost use Rattle.std.specs.Prelude.{◌≡◌, ℕ, List as Items, [], ◌∷◌, ◌++◌, ◌||◌, map, bytes_eq, OnOk};
ghost use Rattle.mps_sections.specs.Statements.{is_ranged, read_range};
ghost use Rattle.mps_sections.specs.Sets.{has};
ghost use Rattle.mps_fields.specs.Fields.{pair_shown};

use crate::clearing::clear;
use crate::name_set::NameSet;
use crate::names::copied;
use crate::statements::RangeLine;
use lp_model::List;
use mps_fields::{Pair, Pairs};
use std::alloc::{AllocError, Global};

/// The numbers of RANGES in order, each with its row and its line, and the set of these rows.
#[derive(Drop)]
pub(crate) struct Ranges {
    pub lines: List<RangeLine>,
    rows: NameSet,
    ghost same: { (q : Items ℕ) → has rows q ≡ is_ranged lines q },
}

/// Puts a pair's number and its line behind others, and its row among theirs.
fn add_range(
    alloc: Global,
    lines: &mut List<RangeLine>,
    rows: &mut NameSet,
    line: u64,
    pair: &Pair,
) -> Result<(), AllocError>
    ensures lines { OnOk result (lines.new ≡ lines.old ++ read_range line (pair_shown pair.now) ∷ []) }
    ensures rows { OnOk result ((q : Items ℕ) → has rows.new q ≡ (bytes_eq pair.now.row.now q || has rows.old q)) }
{
    let Ok(()) = rows.insert(alloc, pair.row) else {
        return Err(AllocError);
    };
    let Ok(row) = copied(alloc, pair.row) else {
        return Err(AllocError);
    };
    let number = pair.number_or_zero();
    lines.push(RangeLine { row, number, line })
}

impl Ranges {
    ghost use Rattle.mps_sections.specs.Faults.{is_ranged_again};
    ghost use Rattle.mps_fields.specs.Fields.{pairs_shown};

    /// No numbers.
    pub(crate) fn new(alloc: Global) -> Ranges
        ensures { result.lines ≡ [] }
    {
        Ranges {
            lines: List::new(alloc),
            rows: NameSet::new(alloc),
        }
    }

    /// Whether a number stands beside a row of the pairs.
    pub(crate) fn has_again(&self, pairs: &Pairs) -> bool
        ensures { result ≡ is_ranged_again self.now.lines (pairs_shown pairs.now) }
    {
        match pairs {
            Pairs::Nothing => false,
            Pairs::One(p) => self.rows.contains(p.row),
            Pairs::Two(p, q) => self.rows.contains(p.row) || self.rows.contains(q.row),
        }
    }

    /// The number of one more pair. Where there is no memory for it no number stays.
    fn add_one(&mut self, alloc: Global, line: u64, pair: &Pair) -> Result<(), AllocError>
        ensures { OnOk result (self.new.lines ≡ self.old.lines ++ read_range line (pair_shown pair.now) ∷ []) }
    {
        match add_range(alloc, &mut self.lines, &mut self.rows, line, pair) {
            Ok(()) => Ok(()),
            Err(error) => {
                clear(alloc, &mut self.lines, &mut self.rows);
                Err(error)
            }
        }
    }

    /// The numbers of one more line.
    pub(crate) fn add(&mut self, alloc: Global, line: u64, pairs: &Pairs) -> Result<(), AllocError>
        ensures { OnOk result (self.new.lines ≡ self.old.lines ++ map (read_range line) (pairs_shown pairs.now)) }
    {
        match pairs {
            Pairs::Nothing => Ok(()),
            Pairs::One(p) => self.add_one(alloc, line, p),
            Pairs::Two(p, q) => {
                let Ok(()) = self.add_one(alloc, line, p) else {
                    return Err(AllocError);
                };
                self.add_one(alloc, line, q)
            }
        }
    }

    /// The numbers alone.
    pub(crate) fn into_list(self) -> List<RangeLine>
        ensures { result ≡ self.lines }
    {
        let Ranges { lines, rows: _ } = self;
        lines
    }
}
