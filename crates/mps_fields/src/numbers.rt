// The numbers of a text, and the limits that BOUNDS states.
ghost use Rattle.std.specs.Prelude.{◌≡◌};
ghost use Rattle.frac128.specs.Rational.{rational_le};
ghost use Rattle.mps_fields.specs.Numbers.{limit_of, limit_or_plus, limit_at, limit_at_side, infinite, is_infinite_word, is_misplaced, is_not_number, is_too_wide, finite, is_below_zero};

use crate::words::{BoundKind, is_key};
use frac_text::{NumFault, Numeral, Side, behind_sign, has_minus};
use frac128::Frac;

/// What the number of a bound line states. A number whose magnitude is 10^20 or more is infinite.
#[derive(Clone, Copy, Drop)]
pub enum Limit {
    Finite(Frac),
    Plus,
    Minus,
}

/// Whether a field is `Inf` or `Infinity` with an optional sign.
fn is_infinite_word(field: &[u8]) -> bool
    ensures { result ≡ is_infinite_word field.now }
{
    let word = behind_sign(field);
    is_key(b"INF", word) || is_key(b"INFINITY", word)
}

fn infinite(minus: bool) -> Limit
    ensures { result ≡ infinite minus }
{
    if minus { Limit::Minus } else { Limit::Plus }
}

/// Whether a number is no more than another.
fn is_at_most(number: &Frac, other: &Frac) -> bool
    ensures { result ≡ rational_le number.now other.now }
{
    *number <= *other
}

/// What a number with room states as a limit.
fn limit_at(number: Frac) -> Limit
    ensures { result ≡ limit_at number }
{
    match Side::of(&number) {
        Side::Above => Limit::Plus,
        Side::Below => Limit::Minus,
        Side::Between => Limit::Finite(number),
    }
}

/// What a number that is too wide states as a limit.
fn limit_at_side(side: Side) -> Result<Limit, NumFault>
    ensures { result ≡ limit_at_side side }
{
    match side {
        Side::Above => Ok(Limit::Plus),
        Side::Below => Ok(Limit::Minus),
        Side::Between => Err(NumFault::Wide),
    }
}

/// What the number of a bound line states.
pub fn limit_of(field: &[u8]) -> Result<Limit, NumFault>
    ensures { result ≡ limit_of field.now }
{
    if is_infinite_word(field) {
        return Ok(infinite(has_minus(field)));
    }
    match Numeral::of(field) {
        Numeral::Number(number) => Ok(limit_at(number)),
        Numeral::Wide(side) => limit_at_side(side),
        Numeral::NotNumber => Err(NumFault::NotNumber),
    }
}

/// What a bound line states, `Plus` where its field states nothing.
pub fn limit_or_plus(read: &Result<Limit, NumFault>) -> Limit
    ensures { result ≡ limit_or_plus read.now }
{
    match read {
        Ok(limit) => *limit,
        Err(_) => Limit::Plus,
    }
}

/// Whether the field of a bound line states no limit.
pub fn is_no_limit(read: &Result<Limit, NumFault>) -> bool
    ensures { result ≡ is_not_number read.now }
{
    matches!(read, Err(NumFault::NotNumber))
}

/// Whether the field of a bound line is a number that has no room and isn't infinite.
pub fn is_wide_limit(read: &Result<Limit, NumFault>) -> bool
    ensures { result ≡ is_too_wide read.now }
{
    matches!(read, Err(NumFault::Wide))
}

/// Whether a limit is infinite on the side where it bounds nothing.
pub fn is_misplaced(kind: BoundKind, limit: &Limit) -> bool
    ensures { result ≡ is_misplaced kind limit.now }
{
    match kind {
        BoundKind::Lower => matches!(limit, Limit::Plus),
        BoundKind::Upper => matches!(limit, Limit::Minus),
        BoundKind::Fixed => !matches!(limit, Limit::Finite(_)),
        BoundKind::Unbounded => false,
        BoundKind::NoLower => false,
        BoundKind::NoUpper => false,
        BoundKind::Binary => false,
        BoundKind::IntegerLower => matches!(limit, Limit::Plus),
        BoundKind::IntegerUpper => matches!(limit, Limit::Minus),
    }
}

impl Limit {
    /// The number, where it is finite.
    pub fn finite(&self) -> Option<Frac>
        ensures { result ≡ finite self.now }
    {
        match self {
            Limit::Finite(number) => Some(*number),
            Limit::Plus => None,
            Limit::Minus => None,
        }
    }

    /// Whether it lies below 0.
    pub fn is_below_zero(&self) -> bool
        ensures { result ≡ is_below_zero self.now }
    {
        match self {
            Limit::Finite(number) => !is_at_most(&Frac::whole(0), number),
            Limit::Plus => false,
            Limit::Minus => true,
        }
    }
}
