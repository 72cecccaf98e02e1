// A fraction from its spelling.
ghost use Rattle.std.specs.Prelude.{◌≡◌, ◌≢◌, ◌+◌, ◌-◌, ◌*◌, ◌^◌, ◌<◌, ◌≤◌, ◌++◌, ℤ, pos, ◌+ℤ◌, ◌-ℤ◌, unsigned_abs, Ok, MatchOption, true, length};
ghost use Rattle.std.specs.List.{list_all};
ghost use Rattle.frac128.specs.Rational.{int, ◌/ℚ◌};
ghost use Rattle.frac128.specs.Range.{largest, with_sign};
ghost use Rattle.frac_text.specs.Spelling.{is_digit, reading_of, signed, coefficient_of, value_of, without_zeros, scaled_reading};
ghost use Rattle.frac_text.specs.Parsing.{parsed};
ghost use Rattle.frac_text.specs.private.Parts.{decimal_says, quotient_says, AreDecimal, AreQuotient};

use crate::digits::{has_no_byte, value_of_digits, value_with_digits, without_end_zeros};
use crate::spelling::{DecimalParts, Parts, QuotientParts, parts_of};
use frac128::{Frac, LARGEST};
use thiserror::Error;

/// Why bytes are read as no `Frac`.
#[derive(Clone, Copy, Debug, Error)]
pub enum NumFault {
    /// They spell no number.
    #[error("no number is spelled")]
    NotNumber,
    /// They spell a number that is too wide.
    #[error("the number has no room")]
    Wide,
}

/// The digits of a mantissa without the zeros at its end, and how many those are.
#[derive(Clone, Copy)]
pub(crate) struct KeptDigits<'a> {
    pub front: &'a [u8],
    pub back: &'a [u8],
    pub dropped: u64,
}

/// The number that the bytes spell: `[+|-] digits [. digits] [E [+|-] digits]`, where E is one of `e E d D` and a digit stands
/// before it, or `[+|-] digits / digits`, the second no zero. It is too wide where the mantissa without leading and trailing
/// zeros, either part of a quotient, or the number has no room, and where the power of ten of that mantissa is below -38 or
/// above 38.
pub fn parse(bytes: &[u8]) -> Result<Frac, NumFault>
    ensures { result ≡ parsed (reading_of bytes.now) }
{
    match parts_of(bytes) {
        Parts::Decimal(parts) => decimal(&parts),
        Parts::Quotient(parts) => quotient(&parts),
        Parts::NoParts => Err(NumFault::NotNumber),
    }
}

fn with_minus(minus: bool, number: Frac) -> Frac
    ensures { result ≡ signed minus number }
{
    if minus { number.neg() } else { number }
}

/// The quotient of two numbers that have room, or its negation.
fn signed_quotient(minus: bool, numerator: u128, denominator: u128) -> Result<Frac, NumFault>
    requires numerator { numerator ≤ largest }
    requires denominator { denominator ≤ largest }
    requires nonzero { denominator ≢ 0 }
    ensures { result ≡ Ok (signed minus (int (pos numerator) /ℚ int (pos denominator))) }
{
    match Frac::new(numerator as i128, denominator as i128) {
        Ok(number) => Ok(with_minus(minus, number)),
        Err(_) => Err(NumFault::Wide),
    }
}

pub(crate) fn quotient(parts: &QuotientParts<'_>) -> Result<Frac, NumFault>
    requires { AreQuotient parts.now }
    ensures { result ≡ parsed (quotient_says parts.now) }
{
    match (value_of_digits(parts.top), value_of_digits(parts.bottom)) {
        (Some(top), Some(bottom)) => signed_quotient(parts.minus, top, bottom),
        _ => Err(NumFault::Wide),
    }
}

/// Two runs of digits without the zeros at their end.
fn without_zeros_behind<'a>(front: &'a [u8], back: &'a [u8]) -> (&'a [u8], &'a [u8])
    ensures { result.0.now ++ result.1.now ≡ without_zeros (front.now ++ back.now) }
{
    let kept = without_end_zeros(back);
    if has_no_byte(kept) {
        (without_end_zeros(front), kept)
    } else {
        (front, kept)
    }
}

/// The mantissa without the zeros at its end, in two runs of digits.
pub(crate) fn mantissa<'a>(whole: &'a [u8], point: &'a [u8]) -> KeptDigits<'a>
    requires whole { list_all is_digit whole.now ≡ true }
    requires point { list_all is_digit point.now ≡ true }
    ensures digits { result.front.now ++ result.back.now ≡ without_zeros (whole.now ++ point.now) }
    ensures front { list_all is_digit result.front.now ≡ true }
    ensures back { list_all is_digit result.back.now ≡ true }
    ensures dropped { result.dropped ≡ length (whole.now ++ point.now) - length (without_zeros (whole.now ++ point.now)) }
{
    let (front, back) = without_zeros_behind(whole, point);
    let kept = front.len() as u64 + back.len() as u64;
    let dropped = whole.len() as u64 + point.len() as u64 - kept;
    KeptDigits {
        front,
        back,
        dropped,
    }
}

fn value_of_two(front: &[u8], back: &[u8]) -> Option<u128>
    requires front { list_all is_digit front.now ≡ true }
    requires back { list_all is_digit back.now ≡ true }
    ensures { MatchOption result (largest < value_of (front.now ++ back.now)) (λ n. (n ≡ value_of (front.now ++ back.now)) × (n ≤ largest)) }
{
    let Some(value) = value_of_digits(front) else {
        return None;
    };
    value_with_digits(value, back)
}

/// An exponent above this is too wide, however many digits stand behind the point.
const LONGEST: u128 = 1 << 100;

pub(crate) fn exponent(minus: bool, digits: &[u8]) -> Option<i128>
    requires { list_all is_digit digits.now ≡ true }
    ensures { MatchOption result (2 ^ 100 < value_of digits.now) (λ e. (e ≡ with_sign minus (value_of digits.now)) × (unsigned_abs e ≤ 2 ^ 100)) }
{
    let Some(magnitude) = value_of_digits(digits) else {
        return None;
    };
    if magnitude > LONGEST {
        return None;
    }
    let value = magnitude as i128;
    if minus { Some(-value) } else { Some(value) }
}

/// The power, if it is -38 to 38.
fn short_power(power: i128) -> Option<i128>
    ensures { MatchOption result (38 < unsigned_abs power) (λ e. (e ≡ power) × (unsigned_abs e ≤ 38)) }
{
    if power < -38 || power > 38 {
        None
    } else {
        Some(power)
    }
}

/// An exponent, less one for each digit behind the point and one more for each zero dropped, if it is -38 to 38.
fn moved_power(exponent: i128, point: u64, dropped: u64) -> Option<i128>
    requires { unsigned_abs exponent ≤ 2 ^ 100 }
    ensures { MatchOption result (38 < unsigned_abs (exponent -ℤ pos point +ℤ pos dropped)) (λ e. (e ≡ exponent -ℤ pos point +ℤ pos dropped) × (unsigned_abs e ≤ 38)) }
{
    let power = exponent - i128::from(point) + i128::from(dropped);
    short_power(power)
}

/// The power of ten from the exponent, the digits behind the point and the zeros dropped, if it is -38 to 38.
fn power(minus: bool, digits: &[u8], point: u64, dropped: u64) -> Option<i128>
    requires { list_all is_digit digits.now ≡ true }
    ensures { MatchOption result (38 < unsigned_abs (with_sign minus (value_of digits.now) -ℤ pos point +ℤ pos dropped)) (λ e. (e ≡ with_sign minus (value_of digits.now) -ℤ pos point +ℤ pos dropped) × (unsigned_abs e ≤ 38)) }
{
    let Some(exponent) = exponent(minus, digits) else {
        return None;
    };
    moved_power(exponent, point, dropped)
}

fn scaled(minus: bool, coefficient: u128, power: i128) -> Result<Frac, NumFault>
    requires coefficient { coefficient ≤ largest }
    requires power { unsigned_abs power ≤ 38 }
    ensures { result ≡ parsed (scaled_reading minus coefficient power) }
{
    let ten_to = 10_u128.pow(power.unsigned_abs() as u32);
    if power < 0 {
        return signed_quotient(minus, coefficient, ten_to);
    }
    match coefficient.checked_mul(ten_to) {
        Some(number) if number <= LARGEST => Ok(with_minus(minus, Frac::of_whole(number as i128))),
        _ => Err(NumFault::Wide),
    }
}

pub(crate) fn decimal(parts: &DecimalParts<'_>) -> Result<Frac, NumFault>
    requires { AreDecimal parts.now }
    ensures { result ≡ parsed (decimal_says parts.now) }
{
    let kept = mantissa(parts.whole, parts.point);
    let Some(coefficient) = value_of_two(kept.front, kept.back) else {
        return Err(NumFault::Wide);
    };
    if coefficient == 0 {
        return Ok(Frac::whole(0));
    }
    match power(
        parts.exponent_minus,
        parts.exponent,
        parts.point.len() as u64,
        kept.dropped,
    ) {
        Some(power) => scaled(parts.minus, coefficient, power),
        None => Err(NumFault::Wide),
    }
}
