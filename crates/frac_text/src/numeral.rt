// What bytes spell, where a number that is too wide still counts by its size.
ghost use Rattle.std.specs.Prelude.{◌≡◌, ◌≢◌, pos, ◌+ℤ◌, ◌-ℤ◌, ◌≤ℤ◌, ◌↔◌, IsTrue, true};
ghost use Rattle.std.specs.List.{list_all};
ghost use Rattle.frac128.specs.Rational.{int, ◌/ℚ◌};
ghost use Rattle.frac128.specs.Range.{with_sign};
ghost use Rattle.frac_text.specs.Spelling.{reading_of, is_digit, value_of, scaled};
ghost use Rattle.frac_text.specs.private.Parts.{AreDecimal, AreQuotient, decimal_says, quotient_says, decimal_coefficient, decimal_power};
ghost use Rattle.frac_text.specs.Sides.{side_of, numeral_of};
ghost use Rattle.frac_text.specs.private.Sides.{side_from, reaches};

use crate::digits::{compare_digits, significant};
use crate::parsing::{decimal, exponent, mantissa, quotient};
use crate::spelling::{DecimalParts, Parts, QuotientParts, parts_of};
use frac128::Frac;

/// A bound of this magnitude, 10^20, on its own side of 0 bounds nothing.
pub const FAR: i128 = 100_000_000_000_000_000_000;

/// Where a number stands beside `FAR` and its negative.
#[derive(Clone, Copy)]
pub enum Side {
    /// At 10^20 or above.
    Above,
    /// Above -10^20 and below 10^20.
    Between,
    /// At -10^20 or below.
    Below,
}

impl Side {
    /// Where the number stands.
    pub fn of(number: &Frac) -> Side
        ensures { result ≡ side_of number.now }
    {
        let far = Frac::of_whole(FAR);
        if far.is_at_most(number) {
            Side::Above
        } else if number.is_at_most(&far.neg()) {
            Side::Below
        } else {
            Side::Between
        }
    }
}

/// What bytes spell.
#[derive(Clone, Copy)]
pub enum Numeral {
    /// A number that has room.
    Number(Frac),
    /// A number that is too wide.
    Wide(Side),
    /// No number.
    NotNumber,
}

impl Numeral {
    /// What the bytes spell, by the rules of `parse`, and where a number that is too wide for it stands.
    pub fn of(bytes: &[u8]) -> Numeral
        ensures { result ≡ numeral_of (reading_of bytes.now) }
    {
        match parts_of(bytes) {
            Parts::Decimal(parts) => decimal_numeral(&parts),
            Parts::Quotient(parts) => quotient_numeral(&parts),
            Parts::NoParts => Numeral::NotNumber,
        }
    }
}

fn wide_side(minus: bool, reached: bool) -> Side
    ensures { result ≡ side_from minus reached }
{
    match (minus, reached) {
        (false, true) => Side::Above,
        (true, true) => Side::Below,
        _ => Side::Between,
    }
}

fn decimal_numeral(parts: &DecimalParts<'_>) -> Numeral
    requires { AreDecimal parts.now }
    ensures { result ≡ numeral_of (decimal_says parts.now) }
{
    match decimal(parts) {
        Ok(number) => Numeral::Number(number),
        Err(_) => Numeral::Wide(wide_side(parts.minus, decimal_reaches(parts))),
    }
}

fn quotient_numeral(parts: &QuotientParts<'_>) -> Numeral
    requires { AreQuotient parts.now }
    ensures { result ≡ numeral_of (quotient_says parts.now) }
{
    match quotient(parts) {
        Ok(number) => Numeral::Number(number),
        Err(_) => Numeral::Wide(wide_side(parts.minus, quotient_reaches(parts))),
    }
}

/// Whether the first digit that is no zero stands at 10^20 or before it.
fn has_place_20(minus: bool, exponent_digits: &[u8], point: u64, dropped: u64, digits: u64) -> bool
    requires { list_all is_digit exponent_digits.now ≡ true }
    ensures { IsTrue result ↔ (pos 21 ≤ℤ (pos digits +ℤ (with_sign minus (value_of exponent_digits.now) -ℤ pos point +ℤ pos dropped))) }
{
    match exponent(minus, exponent_digits) {
        Some(value) => value - i128::from(point) + i128::from(dropped) + i128::from(digits) >= 21,
        None => !minus,
    }
}

/// Whether the magnitude is 10^20 or more.
fn decimal_reaches(parts: &DecimalParts<'_>) -> bool
    requires digits { AreDecimal parts.now }
    requires nonzero { decimal_coefficient parts.now ≢ 0 }
    ensures { result ≡ reaches (scaled (decimal_coefficient parts.now) (decimal_power parts.now)) }
{
    let kept = mantissa(parts.whole, parts.point);
    let digits = significant(kept.front, kept.back);
    has_place_20(
        parts.exponent_minus,
        parts.exponent,
        parts.point.len() as u64,
        kept.dropped,
        digits,
    )
}

/// Whether the magnitude is 10^20 or more: the top without its last 20 digits is the bottom or more.
fn quotient_reaches(parts: &QuotientParts<'_>) -> bool
    requires { AreQuotient parts.now }
    ensures { result ≡ reaches (int (pos (value_of parts.now.top.now)) /ℚ int (pos (value_of parts.now.bottom.now))) }
{
    let places = parts.top.len().saturating_sub(20);
    compare_digits(&parts.top[..places], parts.bottom).is_ge()
}
