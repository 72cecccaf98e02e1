// The pairs of a row's name and a number on a line. A number is read where its pair is made.
ghost use Rattle.std.specs.Prelude.{◌≡◌};
ghost use Rattle.frac_text.specs.Parsing.{spelled_number};

use crate::pairs::is_long;
use frac_text::NumFault;
use frac128::Frac;

/// A row's name and the field that stands beside it, with the number that this spells.
#[derive(Clone, Copy)]
pub struct Pair<'a> {
    pub row: &'a [u8],
    pub field: &'a [u8],
    pub number: Result<Frac, NumFault>,
    ghost read: { number ≡ spelled_number field.now },
}

/// The pairs of a line, two at most.
#[derive(Clone, Copy)]
pub enum Pairs<'a> {
    Nothing,
    One(Pair<'a>),
    Two(Pair<'a>, Pair<'a>),
}

impl<'a> Pair<'a> {
    ghost use Rattle.mps_fields.specs.Numbers.{field_number, is_not_number, is_too_wide};

    /// A row's name and a field, of which the number is read.
    pub fn of(row: &'a [u8], field: &'a [u8]) -> Pair<'a>
        ensures row { result.row.now ≡ row.now }
        ensures field { result.field.now ≡ field.now }
    {
        let number = frac_text::parse(field);
        Pair { row, field, number }
    }

    /// Whether the field is no number.
    pub(crate) fn is_not_number(&self) -> bool
        ensures { result ≡ is_not_number (spelled_number self.now.field.now) }
    {
        matches!(self.number, Err(NumFault::NotNumber))
    }

    /// Whether the field is a number that has no room.
    pub(crate) fn is_too_wide(&self) -> bool
        ensures { result ≡ is_too_wide (spelled_number self.now.field.now) }
    {
        matches!(self.number, Err(NumFault::Wide))
    }

    /// The number, and 0 where the field spells none.
    pub fn number_or_zero(&self) -> Frac
        ensures { result ≡ field_number self.now.field.now }
    {
        match self.number {
            Ok(number) => number,
            Err(_) => Frac::whole(0),
        }
    }
}

impl<'a> Pairs<'a> {
    ghost use Rattle.mps_fields.specs.Fields.{pairs_shown, has_twice, has_long, has_not_number, has_too_wide};

    /// Whether a row's name is too long.
    pub fn has_long(&self) -> bool
        ensures { result ≡ has_long (pairs_shown self.now) }
    {
        match self {
            Pairs::Nothing => false,
            Pairs::One(p) => is_long(p.row),
            Pairs::Two(p, q) => is_long(p.row) || is_long(q.row),
        }
    }

    /// Whether a field is no number.
    pub fn has_not_number(&self) -> bool
        ensures { result ≡ has_not_number (pairs_shown self.now) }
    {
        match self {
            Pairs::Nothing => false,
            Pairs::One(p) => p.is_not_number(),
            Pairs::Two(p, q) => p.is_not_number() || q.is_not_number(),
        }
    }

    /// Whether a number has no room.
    pub fn has_too_wide(&self) -> bool
        ensures { result ≡ has_too_wide (pairs_shown self.now) }
    {
        match self {
            Pairs::Nothing => false,
            Pairs::One(p) => p.is_too_wide(),
            Pairs::Two(p, q) => p.is_too_wide() || q.is_too_wide(),
        }
    }

    /// Whether one row stands twice.
    pub fn has_twice(&self) -> bool
        ensures { result ≡ has_twice (pairs_shown self.now) }
    {
        match self {
            Pairs::Nothing => false,
            Pairs::One(_) => false,
            Pairs::Two(p, q) => q.row == p.row,
        }
    }
}
