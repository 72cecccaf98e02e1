// Numbers beside the names of rows.
ghost use Rattle.std.specs.Prelude.{◌≡◌, ℕ, List as Items, [], ◌∷◌, ◌++◌, ◌||◌, map, bytes_eq, OnOk};
ghost use Rattle.mps_sections.specs.Statements.{is_numbered, read_pair};
ghost use Rattle.mps_sections.specs.Sets.{has};
ghost use Rattle.mps_fields.specs.Fields.{pair_shown};

use crate::clearing::clear;
use crate::name_set::NameSet;
use crate::names::copied;
use crate::statements::RowNumber;
use lp_model::List;
use mps_fields::{Pair, Pairs};
use std::alloc::{AllocError, Global};

/// Numbers beside rows in order, and the set of these rows.
#[derive(Drop)]
pub(crate) struct Numbered {
    pub numbers: List<RowNumber>,
    rows: NameSet,
    ghost same: { (q : Items ℕ) → has rows q ≡ is_numbered numbers q },
}

/// Puts a pair's number behind others, and its row among theirs.
fn add_pair(
    alloc: Global,
    numbers: &mut List<RowNumber>,
    rows: &mut NameSet,
    pair: &Pair,
) -> Result<(), AllocError>
    ensures numbers { OnOk result (numbers.new ≡ numbers.old ++ read_pair (pair_shown pair.now) ∷ []) }
    ensures rows { OnOk result ((q : Items ℕ) → has rows.new q ≡ (bytes_eq pair.now.row.now q || has rows.old q)) }
{
    let Ok(()) = rows.insert(alloc, pair.row) else {
        return Err(AllocError);
    };
    let Ok(row) = copied(alloc, pair.row) else {
        return Err(AllocError);
    };
    let number = pair.number_or_zero();
    numbers.push(RowNumber { row, number })
}

impl Numbered {
    ghost use Rattle.mps_sections.specs.Faults.{has_again};
    ghost use Rattle.mps_fields.specs.Fields.{pairs_shown};

    /// No numbers.
    pub(crate) fn new(alloc: Global) -> Numbered
        ensures { result.numbers ≡ [] }
    {
        Numbered {
            numbers: List::new(alloc),
            rows: NameSet::new(alloc),
        }
    }

    /// Whether a number stands beside a row of the pairs.
    pub(crate) fn has_again(&self, pairs: &Pairs) -> bool
        ensures { result ≡ has_again self.now.numbers (pairs_shown pairs.now) }
    {
        match pairs {
            Pairs::Nothing => false,
            Pairs::One(p) => self.rows.contains(p.row),
            Pairs::Two(p, q) => self.rows.contains(p.row) || self.rows.contains(q.row),
        }
    }

    /// The number of one more pair. Where there is no memory for it no number stays.
    fn add_one(&mut self, alloc: Global, pair: &Pair) -> Result<(), AllocError>
        ensures { OnOk result (self.new.numbers ≡ self.old.numbers ++ read_pair (pair_shown pair.now) ∷ []) }
    {
        match add_pair(alloc, &mut self.numbers, &mut self.rows, pair) {
            Ok(()) => Ok(()),
            Err(error) => {
                clear(alloc, &mut self.numbers, &mut self.rows);
                Err(error)
            }
        }
    }

    /// The numbers of one more line.
    pub(crate) fn add(&mut self, alloc: Global, pairs: &Pairs) -> Result<(), AllocError>
        ensures { OnOk result (self.new.numbers ≡ self.old.numbers ++ map read_pair (pairs_shown pairs.now)) }
    {
        match pairs {
            Pairs::Nothing => Ok(()),
            Pairs::One(p) => self.add_one(alloc, p),
            Pairs::Two(p, q) => {
                let Ok(()) = self.add_one(alloc, p) else {
                    return Err(AllocError);
                };
                self.add_one(alloc, q)
            }
        }
    }

    /// The numbers alone.
    pub(crate) fn into_list(self) -> List<RowNumber>
        ensures { result ≡ self.numbers }
    {
        let Numbered { numbers, rows: _ } = self;
        numbers
    }
}
