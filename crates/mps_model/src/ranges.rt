// The sides of rows: by the number of RHS, and by that of RANGES where one stands.
ghost use Rattle.std.specs.Prelude.{◌≡◌, true, false, IfSome, MatchOption};
ghost use Rattle.frac128.specs.Rational.{◌+ℚ◌, ◌-ℚ◌};
ghost use Rattle.mps_fields.specs.Numbers.{is_negative, absolute};
ghost use Rattle.frac128.specs.Range.{sum_fits};
ghost use Rattle.mps_model.specs.Ranges.{difference_fits, side_fits, are_subtractable, has_room, ranged_low, ranged_high};
ghost use Rattle.mps_model.specs.Meaning.{low_side_by_kind, high_side_by_kind, low_side_with, high_side_with, range_beside};

use frac128::Frac;
use lp_model::Bound;
use mps_fields::RowKind;
use mps_sections::RangeLine;

fn is_negative(number: &Frac) -> bool
    ensures { result ≡ is_negative number.now }
{
    !Frac::whole(0).is_at_most(number)
}

fn magnitude(number: &Frac) -> Frac
    ensures { result ≡ absolute number.now }
{
    if is_negative(number) {
        number.neg()
    } else {
        *number
    }
}

/// Whether the numbers on the way to the sum have room.
fn has_sum(first: &Frac, second: &Frac) -> bool
    ensures { result ≡ sum_fits first.now second.now }
{
    match first.add(second) {
        Ok(_) => true,
        Err(_) => false,
    }
}

/// The sum, where the numbers on the way to it have room.
fn sum_of(first: &Frac, second: &Frac) -> Option<Frac>
    ensures { MatchOption result (sum_fits first.now second.now ≡ false) (λ sum. (sum_fits first.now second.now ≡ true) × (sum ≡ first.now +ℚ second.now)) }
{
    match first.add(second) {
        Ok(sum) => Some(sum),
        Err(_) => None,
    }
}

/// The low side of a row of type L.
fn below(number: &Frac, range: &Frac) -> Option<Frac>
    ensures { MatchOption result (difference_fits number.now (absolute range.now) ≡ false) (λ low. (difference_fits number.now (absolute range.now) ≡ true) × (low ≡ number.now -ℚ absolute range.now)) }
{
    let back = magnitude(range).neg();
    sum_of(number, &back)
}

/// The high side of a row of type G.
fn above(number: &Frac, range: &Frac) -> Option<Frac>
    ensures { MatchOption result (sum_fits number.now (absolute range.now) ≡ false) (λ high. (sum_fits number.now (absolute range.now) ≡ true) × (high ≡ number.now +ℚ absolute range.now)) }
{
    let size = magnitude(range);
    sum_of(number, &size)
}

/// The sides of a row of type E.
fn equal_ends(number: &Frac, range: &Frac) -> Option<(Frac, Frac)>
    ensures { MatchOption result (sum_fits number.now range.now ≡ false) (λ ends. (sum_fits number.now range.now ≡ true) × (ends.0 ≡ ranged_low RowKind.Equal number.now range.now) × (ends.1 ≡ ranged_high RowKind.Equal number.now range.now)) }
{
    match sum_of(number, range) {
        Some(other) => {
            if is_negative(range) {
                Some((other, *number))
            } else {
                Some((*number, other))
            }
        }
        None => None,
    }
}

/// The two sides that a number of RANGES gives, where the further one has room.
fn ends(kind: RowKind, number: &Frac, range: &Frac) -> Option<(Frac, Frac)>
    ensures { MatchOption result (side_fits kind number.now range.now ≡ false) (λ ends. (side_fits kind number.now range.now ≡ true) × (ends.0 ≡ ranged_low kind number.now range.now) × (ends.1 ≡ ranged_high kind number.now range.now)) }
{
    match kind {
        RowKind::AtMost => match below(number, range) {
            Some(low) => Some((low, *number)),
            None => None,
        },
        RowKind::AtLeast => match above(number, range) {
            Some(high) => Some((*number, high)),
            None => None,
        },
        _ => equal_ends(number, range),
    }
}

/// Whether `high - low` and `high - (high - low)` have room.
fn are_subtractable(low: &Frac, high: &Frac) -> bool
    ensures { result ≡ are_subtractable low.now high.now }
{
    let turned = low.neg();
    match sum_of(high, &turned) {
        Some(width) => {
            let back = width.neg();
            has_sum(high, &back)
        }
        None => false,
    }
}

/// Whether the sides that a number of RANGES gives, and their distance, have room.
pub(crate) fn has_room(kind: RowKind, number: &Frac, range: &Frac) -> bool
    ensures { result ≡ has_room kind number.now range.now }
{
    match ends(kind, number, range) {
        Some(sides) => are_subtractable(&sides.0, &sides.1),
        None => false,
    }
}

/// The sides that a number of RANGES gives.
fn ranged_sides(kind: RowKind, number: &Frac, range: &Frac) -> (Frac, Frac)
    requires { has_room kind number.now range.now ≡ true }
    ensures low { result.0 ≡ ranged_low kind number.now range.now }
    ensures high { result.1 ≡ ranged_high kind number.now range.now }
{
    match ends(kind, number, range) {
        Some(sides) => sides,
        None => unreachable!(),
    }
}

fn low_side(kind: RowKind, number: &Frac) -> Bound
    ensures { result ≡ low_side_by_kind kind number.now }
{
    match kind {
        RowKind::AtMost => None,
        _ => Some(*number),
    }
}

fn high_side(kind: RowKind, number: &Frac) -> Bound
    ensures { result ≡ high_side_by_kind kind number.now }
{
    match kind {
        RowKind::AtLeast => None,
        _ => Some(*number),
    }
}

/// The sides of a row.
pub(crate) fn sides_of(kind: RowKind, number: &Frac, range: &Option<Frac>) -> (Bound, Bound)
    requires { IfSome range.now (λ r. has_room kind number.now r ≡ true) }
    ensures low { result.0 ≡ low_side_with kind number.now range.now }
    ensures high { result.1 ≡ high_side_with kind number.now range.now }
{
    match range {
        Some(range) => {
            let sides = ranged_sides(kind, number, range);
            (Some(sides.0), Some(sides.1))
        }
        None => (low_side(kind, number), high_side(kind, number)),
    }
}

/// The number of RANGES beside a name, if there is one.
pub(crate) fn range_beside(ranges: &[RangeLine], name: &[u8]) -> Option<Frac>
    ensures { result ≡ range_beside name.now ranges.now }
{
    for item in ranges {
        if item.row.as_slice() == name {
            return Some(item.number);
        }
    }
    None
}
