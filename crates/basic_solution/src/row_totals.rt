// The value of a basic variable times the denominator of the table, place by place.
ghost use Rattle.std.specs.Prelude.{◌≡◌, ◌<◌, ◌<ℤ◌, ◌+ℤ◌, ◌*ℤ◌, pos, IsTrue, IfSome};
ghost use Rattle.frac128.specs.Rational.{int};
ghost use Rattle.table_entries.specs.WholeSteps.{IsShort};
ghost use Rattle.whole_sums.specs.Wholes.{HasMargin, IsWholeTerm};
ghost use Rattle.basic_solution.specs.Held.{state, table};
ghost use Rattle.basic_solution.specs.RowTotals.{IsSmallNumber};
ghost use Rattle.basic_solution.specs.private.RowTotals.{IsRowTotal};

use crate::sided::SidedBasis;
use frac128::Frac;
use whole_sums::{WholeTerm, product};

/// Numbers below this leave room for a term of each variable, in any order: there are fewer than 2^32.
const SMALL: i64 = 1 << 31;

/// The number in 64 bits, if it is small.
#[inline]
fn small(number: i128) -> Option<i64>
    ensures small { IfSome result (λ n. IsSmallNumber n) }
    ensures value { IfSome result (λ n. n ≡ number) }
{
    if i128::from(-SMALL) < number && number < i128::from(SMALL) {
        Some(number as i64)
    } else {
        None
    }
}

/// The number that a fraction is, if it is whole and small.
#[inline]
pub fn small_number(fraction: &Frac) -> Option<i64>
    ensures small { IfSome result (λ n. IsSmallNumber n) }
    ensures value { IfSome result (λ n. fraction.now ≡ int n) }
{
    fraction.has_room();
    if fraction.is_whole() {
        small(fraction.numerator())
    } else {
        None
    }
}

/// The number that a fraction is in 64 bits, if it is whole and small, and else one that is not small.
#[inline]
pub fn marked_number(fraction: &Frac) -> i64
    ensures short { IsShort result }
    ensures value { IsSmallNumber result → fraction.now ≡ int result }
{
    match small_number(fraction) {
        Some(number) => number,
        None => SMALL,
    }
}

/// Whether the number is small.
#[inline]
pub fn is_small(number: i64) -> bool
    ensures { IsTrue result → IsSmallNumber number }
{
    -SMALL < number && number < SMALL
}

/// The total with one more product.
#[inline]
pub fn with_product(total: i128, factor: i64, number: i64) -> i128
    requires total { HasMargin total }
    requires factor { IsShort factor }
    requires number { IsShort number }
    ensures { result ≡ total +ℤ factor *ℤ number }
{
    total + product(factor, number)
}

impl SidedBasis<'_> {
    /// The term of a place in the value of the basic variable of a row, as whole numbers over the denominator.
    #[inline]
    fn place_term(&self, row: usize, place: usize, denominator: i64) -> Option<WholeTerm>
        requires row { row < self.now.tableau.activities }
        requires place { place < self.now.tableau.columns }
        requires positive { pos 0 <ℤ denominator }
        ensures term { IfSome result (λ t. IsWholeTerm denominator ((table self.now).entry row place) ((state self.now).at place) t.factor t.number) }
        ensures small { IfSome result (λ t. IsSmallNumber t.number) }
    {
        let Some(number) = small_number(&self.place_number(place)) else {
            return None;
        };
        if number == 0 {
            return Some(WholeTerm {
                factor: 0,
                number: 0,
            });
        }
        let Some(factor) = self.tableau.number_over(row, place, denominator) else {
            return None;
        };
        Some(WholeTerm { factor, number })
    }

    /// The value of the basic variable of a row times the denominator, where all of its terms are products of whole numbers
    /// over that, and those of the places are small: then each sum of them has room, in any order. None says nothing of the
    /// value.
    pub(crate) fn row_total(&self, row: usize, denominator: i64) -> Option<i128>
        requires row { row < self.now.tableau.activities }
        requires positive { pos 0 <ℤ denominator }
        requires denominator { IsShort denominator }
        ensures { IfSome result (λ total. IsRowTotal self.now row denominator total) }
    {
        let mut total: i128 = 0;
        for place in 0..self.tableau.columns() {
            match self.place_term(row, place, denominator) {
                None => return None,
                Some(term) => total = with_product(total, term.factor, term.number),
            }
        }
        Some(total)
    }
}
