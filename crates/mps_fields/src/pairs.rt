// The pairs of a row's name and a number on a line.
ghost use Rattle.std.specs.Prelude.{◌≡◌, ◌≤◌, [], ◌∷◌};
ghost use Rattle.mps_text.specs.Reading.{entry_of_record};
ghost use Rattle.mps_fields.specs.Fields.{has_count, is_long_name, pairs, column_pairs, set_pairs, pairs_shown, pairs_on};

use crate::pair::{Pair, Pairs};
use crate::words::LineKind;
use lp_model::NAME_LIMIT;
use mps_text::{Fields, Record};

/// Whether a line has at least and at most so many fields.
pub fn has_count(entry: &Record, fewest: usize, most: usize) -> bool
    requires { most ≤ 5 }
    ensures { result ≡ has_count (entry_of_record entry.now) fewest most }
{
    let count: usize = match entry.fields {
        Fields::One(_) => 1,
        Fields::Two(_, _) => 2,
        Fields::Three(_, _, _) => 3,
        Fields::Four(_, _, _, _) => 4,
        Fields::Five(_, _, _, _, _) => 5,
        Fields::More(_, _) => 6,
    };
    fewest <= count && count <= most
}

/// A row's name and the field beside it.
fn one_pair<'a>(row: &'a [u8], number: &'a [u8]) -> Pairs<'a>
    ensures { pairs_shown result ≡ pairs (row.now ∷ number.now ∷ []) }
{
    Pairs::One(Pair::of(row, number))
}

/// Two rows' names, each with the field beside it.
fn two_pairs<'a>(row: &'a [u8], number: &'a [u8], other: &'a [u8], behind: &'a [u8]) -> Pairs<'a>
    ensures { pairs_shown result ≡ pairs (row.now ∷ number.now ∷ other.now ∷ behind.now ∷ []) }
{
    Pairs::Two(Pair::of(row, number), Pair::of(other, behind))
}

/// The pairs behind a column's name.
fn column_pairs<'a>(entry: &Record<'a>) -> Pairs<'a>
    ensures { pairs_shown result ≡ column_pairs (entry_of_record entry.now) }
{
    match entry.fields {
        Fields::Three(_, row, number) => one_pair(row, number),
        Fields::Five(_, row, number, other, behind) => two_pairs(row, number, other, behind),
        _ => Pairs::Nothing,
    }
}

/// The pairs of a line of RHS or RANGES, behind the set's name where the number of fields is odd.
fn set_pairs<'a>(entry: &Record<'a>) -> Pairs<'a>
    ensures { pairs_shown result ≡ set_pairs (entry_of_record entry.now) }
{
    match entry.fields {
        Fields::Two(row, number) => one_pair(row, number),
        Fields::Three(_, row, number) => one_pair(row, number),
        Fields::Four(row, number, other, behind) => two_pairs(row, number, other, behind),
        Fields::Five(_, row, number, other, behind) => two_pairs(row, number, other, behind),
        _ => Pairs::Nothing,
    }
}

/// The pairs of a line of COLUMNS, RHS or RANGES, and none of another one.
pub fn pairs_on<'a>(kind: LineKind, entry: &Record<'a>) -> Pairs<'a>
    ensures { pairs_shown result ≡ pairs_on kind (entry_of_record entry.now) }
{
    match kind {
        LineKind::Column => column_pairs(entry),
        LineKind::RightSide => set_pairs(entry),
        LineKind::Range => set_pairs(entry),
        _ => Pairs::Nothing,
    }
}

/// Whether a name has more than `NAME_LIMIT` bytes.
pub fn is_long(name: &[u8]) -> bool
    ensures { result ≡ is_long_name name.now }
{
    name.len() > NAME_LIMIT
}
