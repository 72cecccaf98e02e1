// The numbers of an edit: costs, sides and bounds.
ghost use Rattle.std.specs.Prelude.{◌≡◌, Some};
ghost use Rattle.edit_words.specs.EditWords.{is_none_word, number_in, side_in, lower_in, upper_in, lower_read, upper_read};

use frac_text::{Side, parse};
use frac128::Frac;
use lp_model::Bound;

fn is_none_word(word: &[u8]) -> bool
    ensures { result ≡ is_none_word word.now }
{
    word == b"none".as_slice()
}

/// The number that a word spells, if it spells one with room.
#[tactic(auto, unfolding(crate::specs::EditWords::number_in))]
pub(crate) fn number_in(word: &[u8]) -> Option<Frac>
    ensures { result ≡ number_in word.now }
{
    match parse(word) {
        Ok(number) => Some(number),
        Err(_) => None,
    }
}

/// A row's side: a number, or none.
#[tactic(auto, unfolding(crate::specs::EditWords::side_in))]
pub(crate) fn side_in(word: &[u8]) -> Option<Bound>
    ensures { result ≡ side_in word.now }
{
    if is_none_word(word) {
        return Some(None);
    }
    match number_in(word) {
        Some(number) => Some(Some(number)),
        None => None,
    }
}

/// A lower bound from its number: none far below 0, and no bound far above.
fn lower_from(number: Frac) -> Option<Bound>
    ensures { result ≡ lower_read (Some number) }
{
    match Side::of(&number) {
        Side::Below => Some(None),
        Side::Above => None,
        Side::Between => Some(Some(number)),
    }
}

/// An upper bound from its number: none far above 0, and no bound far below.
fn upper_from(number: Frac) -> Option<Bound>
    ensures { result ≡ upper_read (Some number) }
{
    match Side::of(&number) {
        Side::Above => Some(None),
        Side::Below => None,
        Side::Between => Some(Some(number)),
    }
}

/// A column's lower bound: a number, or none.
#[tactic(auto, unfolding(crate::specs::EditWords::lower_in))]
pub(crate) fn lower_in(word: &[u8]) -> Option<Bound>
    ensures { result ≡ lower_in word.now }
{
    if is_none_word(word) {
        return Some(None);
    }
    match number_in(word) {
        Some(number) => lower_from(number),
        None => None,
    }
}

/// A column's upper bound: a number, or none.
#[tactic(auto, unfolding(crate::specs::EditWords::upper_in))]
pub(crate) fn upper_in(word: &[u8]) -> Option<Bound>
    ensures { result ≡ upper_in word.now }
{
    if is_none_word(word) {
        return Some(None);
    }
    match number_in(word) {
        Some(number) => upper_from(number),
        None => None,
    }
}
