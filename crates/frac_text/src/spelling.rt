// A spelling of a number, cut into its parts.
ghost use Rattle.std.specs.Prelude.{◌≡◌, ◌≢◌, ◌++◌, if◌then◌else◌, true};
ghost use Rattle.std.specs.List.{list_all, list_any, before_first, after_first};
ghost use Rattle.frac_text.specs.Spelling.{are_digits, is_digit, is_minus, without_sign, value_of, slash_reading, plain_reading, reading_of};
ghost use Rattle.frac_text.specs.private.Parts.{marks, AreDecimal, AreQuotient, Say};

use crate::digits::{are_all_digits, has_digits_alone, has_no_byte, has_zeros_alone};

/// A decimal spelling. Its bytes are digits.
#[derive(Clone, Copy)]
pub(crate) struct DecimalParts<'a> {
    pub minus: bool,
    pub whole: &'a [u8],
    pub point: &'a [u8],
    pub exponent_minus: bool,
    pub exponent: &'a [u8],
}

/// A quotient. Its bytes are digits, and the bottom is no zero.
#[derive(Clone, Copy)]
pub(crate) struct QuotientParts<'a> {
    pub minus: bool,
    pub top: &'a [u8],
    pub bottom: &'a [u8],
}

#[derive(Clone, Copy)]
pub(crate) enum Parts<'a> {
    Decimal(DecimalParts<'a>),
    Quotient(QuotientParts<'a>),
    NoParts,
}

/// A byte that stands between two parts.
#[derive(Clone, Copy)]
enum Mark {
    Slash,
    Exponent,
    Point,
}

/// What stands before and after the first such byte.
#[derive(Clone, Copy)]
struct Cut<'a> {
    found: bool,
    before: &'a [u8],
    after: &'a [u8],
}

impl Mark {
    fn is(self, byte: u8) -> bool
        ensures { result ≡ marks self byte }
    {
        match self {
            Mark::Slash => byte == b'/',
            Mark::Exponent => byte == b'E' || byte == b'e' || byte == b'D' || byte == b'd',
            Mark::Point => byte == b'.',
        }
    }
}

fn cut_at(bytes: &[u8], mark: Mark) -> Cut<'_>
    ensures found { result.found ≡ list_any (marks mark) bytes.now }
    ensures before { result.before.now ≡ before_first (marks mark) bytes.now }
    ensures after { result.after.now ≡ after_first (marks mark) bytes.now }
{
    for place in 0..bytes.len() {
        if mark.is(bytes[place]) {
            return Cut {
                found: true,
                before: &bytes[..place],
                after: &bytes[place + 1..],
            };
        }
    }
    Cut {
        found: false,
        before: bytes,
        after: &bytes[bytes.len()..],
    }
}

/// Whether a minus sign comes first.
pub fn has_minus(bytes: &[u8]) -> bool
    ensures { result ≡ is_minus bytes.now }
{
    match bytes {
        [first, ..] => *first == b'-',
        [] => false,
    }
}

/// The bytes without a sign that comes first.
pub fn behind_sign(bytes: &[u8]) -> &[u8]
    ensures { result.now ≡ without_sign bytes.now }
{
    match bytes {
        [b'+' | b'-', rest @ ..] => rest,
        _ => bytes,
    }
}

fn quotient_parts<'a>(minus: bool, top: &'a [u8], bottom: &'a [u8]) -> Parts<'a>
    ensures { Say (slash_reading minus top.now bottom.now) result }
{
    if are_all_digits(top) && are_all_digits(bottom) && !has_zeros_alone(bottom) {
        Parts::Quotient(QuotientParts { minus, top, bottom })
    } else {
        Parts::NoParts
    }
}

fn are_mantissa(whole: &[u8], point: &[u8]) -> bool
    ensures { result ≡ are_digits (whole.now ++ point.now) }
{
    (!has_no_byte(whole) || !has_no_byte(point))
        && has_digits_alone(whole)
        && has_digits_alone(point)
}

fn is_exponent(found: bool, digits: &[u8]) -> bool
    ensures { result ≡ (if found then are_digits digits.now else true) }
{
    !found || are_all_digits(digits)
}

fn decimal_parts(minus: bool, bytes: &[u8]) -> Parts<'_>
    ensures { Say (plain_reading minus bytes.now) result }
{
    let outer = cut_at(bytes, Mark::Exponent);
    let inner = cut_at(outer.before, Mark::Point);
    let exponent = behind_sign(outer.after);
    if are_mantissa(inner.before, inner.after) && is_exponent(outer.found, exponent) {
        Parts::Decimal(DecimalParts {
            minus,
            whole: inner.before,
            point: inner.after,
            exponent_minus: has_minus(outer.after),
            exponent,
        })
    } else {
        Parts::NoParts
    }
}

/// The parts of a spelling, if the bytes are one.
pub(crate) fn parts_of(bytes: &[u8]) -> Parts<'_>
    ensures { Say (reading_of bytes.now) result }
{
    let minus = has_minus(bytes);
    let body = behind_sign(bytes);
    let cut = cut_at(body, Mark::Slash);
    if cut.found {
        quotient_parts(minus, cut.before, cut.after)
    } else {
        decimal_parts(minus, body)
    }
}
