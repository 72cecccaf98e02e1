// Numbers and sides.
ghost use Rattle.std.specs.Prelude.{◌≡◌, ◌↔◌, IsTrue};
ghost use Rattle.frac128.specs.Rational.{◌*ℚ◌};
ghost use Rattle.table_entries.specs.States.{sign};
ghost use Rattle.basic_solution.specs.Breach.{IsBelowSide, IsAboveSide, IsBreach};

use frac128::Frac;
use lp_model::Bound;
use table_entries::Stand;

/// Whether there is a low side and the number is below it.
fn is_under(low: &Bound, value: &Frac) -> bool
    ensures { IsTrue result ↔ IsBelowSide low.now value.now }
{
    match low {
        Some(bound) => value.is_below(bound),
        None => false,
    }
}

/// Whether there is a high side and the number is above it.
fn is_over(high: &Bound, value: &Frac) -> bool
    ensures { IsTrue result ↔ IsAboveSide high.now value.now }
{
    match high {
        Some(bound) => bound.is_below(value),
        None => false,
    }
}

/// The side that a number is outside of, if any.
pub fn breach(low: &Bound, high: &Bound, value: &Frac) -> Option<Stand>
    ensures { IsBreach low.now high.now value.now result }
{
    if is_under(low, value) {
        Some(Stand::Low)
    } else if is_over(high, value) {
        Some(Stand::High)
    } else {
        None
    }
}

/// The number times the sign of a side: 1 for the low one, -1 for the high one, 0 for none.
pub fn signed(stand: Stand, number: &Frac) -> Frac
    ensures { result ≡ sign stand *ℚ number.now }
{
    match stand {
        Stand::Low => *number,
        Stand::High => number.neg(),
        Stand::Free => Frac::whole(0),
    }
}
