// Names with numbers.
ghost use Rattle.std.specs.Prelude.{◌≡◌, ◌∷◌, ◌++◌, [], map, IfOk};
ghost use Rattle.edit_words.specs.EditWords.{entries_of, pairs_asks, IsEntriesOf};

use crate::forms::are_distinct_pairs;
use crate::numbers::number_in;
use frac128::Frac;
use lp_model::{List, Name};
use std::alloc::{AllocError, Global};

/// Names with numbers, or why they are none.
#[derive(Drop)]
pub enum Entries<'a> {
    /// These names with their numbers.
    Read(List<(Name, Frac)>),
    /// The words are no names with numbers.
    Misused,
    /// This word, in a number's place, is none.
    NoNumber { word: &'a [u8] },
    /// There is no memory for them.
    Memory,
}

/// Adds a name with its number.
fn push_entry(
    alloc: Global,
    entries: &mut List<(Name, Frac)>,
    name: &[u8],
    number: Frac,
) -> Result<(), AllocError>
    ensures { IfOk result (λ _. entries.new ≡ entries.old ++ (name.now, number) ∷ []) }
{
    let Ok(name) = Name::from_slice(alloc, name) else {
        return Err(AllocError);
    };
    entries.push((name, number))
}

/// The names with numbers that words are.
#[tactic(auto, using(crate::proofs::EntryLemmas::entries_end))]
pub(crate) fn entries_in<'a>(alloc: Global, words: &[&'a [u8]]) -> Entries<'a>
    ensures { IsEntriesOf (entries_of (map (λ word. word.now) words.now)) result }
{
    let mut entries = List::new(alloc);
    let mut rest = words;
    while let [name, word, more @ ..] = rest {
        let Some(number) = number_in(word) else {
            drop(entries);
            return Entries::NoNumber { word };
        };
        match push_entry(alloc, &mut entries, name, number) {
            Ok(()) => rest = more,
            Err(_) => {
                drop(entries);
                return Entries::Memory;
            }
        }
    }
    if rest.is_empty() {
        Entries::Read(entries)
    } else {
        drop(entries);
        Entries::Misused
    }
}

/// What the words behind a command of bounds ask for: names with numbers, one at least, and each name once.
#[tactic(auto, using(crate::proofs::EntryLemmas::no_pairs, crate::proofs::EntryLemmas::named_twice, crate::proofs::EntryLemmas::distinct_pairs))]
pub fn read_pairs<'a>(alloc: Global, words: &[&'a [u8]]) -> Entries<'a>
    ensures { IsEntriesOf (pairs_asks (map (λ word. word.now) words.now)) result }
{
    if words.is_empty() || !are_distinct_pairs(words) {
        return Entries::Misused;
    }
    entries_in(alloc, words)
}
