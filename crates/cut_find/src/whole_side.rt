// A side of a row in whole numbers over one denominator.
ghost use Rattle.std.specs.Prelude.{◌≡◌, ◌<◌, ◌<ℤ◌, ℤ, [], suc, length, pos, IsTrue, IfSome, Some};
ghost use Rattle.frac128.specs.Rational.{int};
ghost use Rattle.frac128.specs.LowestTerms.{quotient_of};
ghost use Rattle.lp_model.specs.Program.{lower, upper};
ghost use Rattle.lp_model.specs.Sides.{needed_side};
ghost use Rattle.cover_cuts.specs.Covers.{side_coefficient, side_limit};
ghost use Rattle.whole_sums.specs.Wholes.{IsShort, IsDenominator};
ghost use Rattle.cut_find.specs.RowEntries.{AreEntriesOf};
ghost use Rattle.cut_find.specs.WholeSides.{AreMarksOf, IsWholeSide};
ghost use Rattle.cut_find.specs.private.WholeSides.{AreSumsTo};

use crate::candidates::RowSide;
use cover_cuts::signed;
use frac128::Frac;
use lp_model::Bound;
use whole_sums::{common_multiple, product, short_over, whole_number};

/// Sums are at most of this size.
const MARGIN: u128 = 1 << 126;

/// What is kept of a column: the number of its coefficient over the denominator, and whether its literal is taken.
#[derive(Clone, Copy, Drop)]
pub struct Mark {
    pub weight: i64,
    pub taken: bool,
}

/// The sum of the least contributions of the first columns without a literal, and a size that no sum with literals passes, both
/// over the denominator.
#[derive(Clone, Copy, Drop)]
pub struct Sums {
    pub base: i128,
    pub size: u128,
}

/// The limit of a side, and the sum of the least contributions without a literal, both over the denominator.
#[derive(Clone, Copy, Drop)]
pub struct WholeSide {
    pub denominator: i64,
    pub limit: i64,
    pub base: i128,
}

/// The number that a bound is, if it is there, whole and short.
fn short_bound(bound: &Bound) -> Option<i64>
    ensures short { IfSome result (λ n. IsShort n) }
    ensures value { IfSome result (λ n. bound.now ≡ Some (int n)) }
{
    match bound {
        None => None,
        Some(number) => whole_number(number),
    }
}

impl RowSide<'_> {
    /// A denominator that the limit and the coefficients have in common, as far as there is room. Nothing rests on it but speed,
    /// since a number that is not whole over it is told.
    fn common_denominator(&self, limit: &Frac) -> i64
        ensures { IsDenominator result }
    {
        let mut denominator = common_multiple(1, limit);
        for entry in self.entries {
            denominator = common_multiple(denominator, &entry.1);
        }
        denominator
    }

    /// Writes the marks of the columns that the row names, none of them taken. False where a coefficient has no number over the
    /// denominator.
    fn mark_columns(&self, denominator: i64, marks: &mut [Mark]) -> bool
        requires denominator { IsDenominator denominator }
        requires entries { AreEntriesOf self.now.model.now self.now.row.0 0 (length self.now.model.now.cols) self.now.entries.now }
        requires marks { length marks.old ≡ length self.now.model.now.cols }
        ensures { IsTrue result → AreMarksOf self.now.model.now self.now.row.0 self.now.side denominator [] marks.new }
    {
        for entry in self.entries {
            match short_over(&signed(self.side, &entry.1), denominator) {
                None => return false,
                Some(weight) => {
                    marks[entry.0] = Mark {
                        weight,
                        taken: false,
                    };
                }
            }
        }
        true
    }

    /// The bound that a column's least contribution takes, where it is there, whole and short. None says nothing.
    fn bound_number(&self, weight: i64, col: usize) -> Option<i64>
        requires { col < length self.now.model.now.cols }
        ensures short { IfSome result (λ n. IsShort n) }
        ensures bound { IfSome result (λ n. (d : ℤ) → pos 0 <ℤ d → needed_side (quotient_of weight d) (lower self.now.model.now col) (upper self.now.model.now col) ≡ Some (int n)) }
    {
        let column = &self.model.cols()[col];
        if weight > 0 {
            return short_bound(&column.lo);
        }
        if weight < 0 {
            return short_bound(&column.up);
        }
        Some(0)
    }

    /// The sums with one more column, where they can be had in whole numbers. None says nothing.
    fn with_column(&self, denominator: i64, sums: Sums, weight: i64, col: usize) -> Option<Sums>
        requires denominator { IsDenominator denominator }
        requires within { col < length self.now.model.now.cols }
        requires short { IsShort weight }
        requires weight { side_coefficient self.now.model.now self.now.row.0 self.now.side col ≡ quotient_of weight denominator }
        requires sums { AreSumsTo self.now.model.now self.now.row.0 self.now.side denominator col sums }
        ensures { IfSome result (AreSumsTo self.now.model.now self.now.row.0 self.now.side denominator (suc col)) }
    {
        let Some(bound) = self.bound_number(weight, col) else {
            return None;
        };
        let product = product(weight, bound);
        let size = sums.size + product.unsigned_abs() + u128::from(weight.unsigned_abs());
        if size > MARGIN {
            return None;
        }
        Some(Sums {
            base: sums.base + product,
            size,
        })
    }

    /// The sums of all columns, as `with_column`.
    fn sums(&self, denominator: i64, marks: &[Mark]) -> Option<Sums>
        requires denominator { IsDenominator denominator }
        requires entries { AreEntriesOf self.now.model.now self.now.row.0 0 (length self.now.model.now.cols) self.now.entries.now }
        requires long { length marks.now ≡ length self.now.model.now.cols }
        requires marks { AreMarksOf self.now.model.now self.now.row.0 self.now.side denominator [] marks.now }
        ensures { IfSome result (AreSumsTo self.now.model.now self.now.row.0 self.now.side denominator (length self.now.model.now.cols)) }
    {
        let mut sums = Sums { base: 0, size: 0 };
        for entry in self.entries {
            match self.with_column(denominator, sums, marks[entry.0].weight, entry.0) {
                None => return None,
                Some(next) => sums = next,
            }
        }
        Some(sums)
    }

    /// The side in whole numbers, where it can be had; then each sum of a cover has room. None says nothing.
    pub fn whole_side(&self, limit: &Frac, marks: &mut [Mark]) -> Option<WholeSide>
        requires limit { side_limit self.now.model.now self.now.row.0 self.now.side ≡ Some limit.now }
        requires entries { AreEntriesOf self.now.model.now self.now.row.0 0 (length self.now.model.now.cols) self.now.entries.now }
        requires marks { length marks.old ≡ length self.now.model.now.cols }
        ensures side { IfSome result (IsWholeSide self.now.model.now self.now.row.0 self.now.side) }
        ensures marks { IfSome result (λ side. AreMarksOf self.now.model.now self.now.row.0 self.now.side side.denominator [] marks.new) }
    {
        let denominator = self.common_denominator(limit);
        let Some(over) = short_over(limit, denominator) else {
            return None;
        };
        if !self.mark_columns(denominator, marks) {
            return None;
        }
        let Some(sums) = self.sums(denominator, marks) else {
            return None;
        };
        if i128::from(over) < sums.base {
            return None;
        }
        Some(WholeSide {
            denominator,
            limit: over,
            base: sums.base,
        })
    }
}
