// Whether the total of a value, over the denominator, is outside a side.
ghost use Rattle.std.specs.Prelude.{◌≡◌, ◌↔◌, ◌<ℤ◌, pos, IsTrue};
ghost use Rattle.frac128.specs.Rational.{◌<ℚ◌};
ghost use Rattle.frac128.specs.LowestTerms.{quotient_of};
ghost use Rattle.table_entries.specs.WholeSteps.{IsShort};
ghost use Rattle.whole_sums.specs.Wholes.{HasMargin};
ghost use Rattle.basic_solution.specs.Breach.{IsBelowSide, IsAboveSide, IsBreach};

use frac128::Frac;
use lp_model::Bound;
use table_entries::Stand;
use whole_sums::{product, quotient, whole_number};

/// Whether the total over the denominator is below a number.
fn is_quotient_below(total: i128, denominator: i64, bound: &Frac) -> bool
    requires total { HasMargin total }
    requires positive { pos 0 <ℤ denominator }
    requires denominator { IsShort denominator }
    ensures { IsTrue result ↔ (quotient_of total denominator <ℚ bound.now) }
{
    match whole_number(bound) {
        Some(number) => total < product(number, denominator),
        None => quotient(total, denominator).is_below(bound),
    }
}

/// Whether the total over the denominator is above a number.
fn is_quotient_above(total: i128, denominator: i64, bound: &Frac) -> bool
    requires total { HasMargin total }
    requires positive { pos 0 <ℤ denominator }
    requires denominator { IsShort denominator }
    ensures { IsTrue result ↔ (bound.now <ℚ quotient_of total denominator) }
{
    match whole_number(bound) {
        Some(number) => product(number, denominator) < total,
        None => bound.is_below(&quotient(total, denominator)),
    }
}

/// Whether there is a low side and the total over the denominator is below it.
fn is_total_under(low: &Bound, total: i128, denominator: i64) -> bool
    requires total { HasMargin total }
    requires positive { pos 0 <ℤ denominator }
    requires denominator { IsShort denominator }
    ensures { IsTrue result ↔ IsBelowSide low.now (quotient_of total denominator) }
{
    match low {
        Some(bound) => is_quotient_below(total, denominator, bound),
        None => false,
    }
}

/// Whether there is a high side and the total over the denominator is above it.
fn is_total_over(high: &Bound, total: i128, denominator: i64) -> bool
    requires total { HasMargin total }
    requires positive { pos 0 <ℤ denominator }
    requires denominator { IsShort denominator }
    ensures { IsTrue result ↔ IsAboveSide high.now (quotient_of total denominator) }
{
    match high {
        Some(bound) => is_quotient_above(total, denominator, bound),
        None => false,
    }
}

/// The side that the total over the denominator is outside of, if any.
pub fn total_breach(low: &Bound, high: &Bound, total: i128, denominator: i64) -> Option<Stand>
    requires total { HasMargin total }
    requires positive { pos 0 <ℤ denominator }
    requires denominator { IsShort denominator }
    ensures { IsBreach low.now high.now (quotient_of total denominator) result }
{
    if is_total_under(low, total, denominator) {
        Some(Stand::Low)
    } else if is_total_over(high, total, denominator) {
        Some(Stand::High)
    } else {
        None
    }
}
