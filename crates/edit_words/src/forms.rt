// Forms of words as data, and the words that have one.
ghost use Rattle.std.specs.Prelude.{◌≡◌, map};
ghost use Rattle.edit_words.specs.Forms.{fits_slot, fits_behind, fits, is_named, are_distinct_pairs};

use lp_model::is_lawful_name;
use text_lines::is_word;

/// What may stand in a word's place.
#[derive(Clone, Copy)]
pub(crate) enum Slot {
    /// `int` or `cont`.
    Kind,
    /// `lo`, `hi` or `both`.
    Sides,
    /// The name of a row or a column that is there.
    Known,
    /// The name of a new one: 1 to 255 bytes from `!` to `~`.
    New,
    /// A number.
    Number,
    /// A number, or `none`.
    NumberOrNone,
    /// A number, or `none`; far enough below 0 it is none.
    Lower,
    /// A number, or `none`; far enough above 0 it is none.
    Upper,
}

/// Whether the word may stand there, numbers aside.
fn fits_slot(slot: Slot, word: &[u8]) -> bool
    ensures { result ≡ fits_slot slot word.now }
{
    match slot {
        Slot::Kind => is_word(b"int", word) || is_word(b"cont", word),
        Slot::Sides => { is_word(b"lo", word) || is_word(b"hi", word) || is_word(b"both", word) }
        Slot::Known => true,
        Slot::New => is_lawful_name(word),
        Slot::Number => true,
        Slot::NumberOrNone => true,
        Slot::Lower => true,
        Slot::Upper => true,
    }
}

/// Whether the name is that of one of the pairs.
#[tactic(auto, using(crate::proofs::FormLemmas::is_named_few, crate::proofs::FormLemmas::is_named_first))]
fn is_named(name: &[u8], pairs: &[&[u8]]) -> bool
    ensures { result ≡ is_named name.now (map (λ word. word.now) pairs.now) }
{
    match pairs {
        [first, _, rest @ ..] => *first == name || is_named(name, rest),
        _ => false,
    }
}

/// Whether the words are names with numbers, each name once.
#[tactic(auto, unfolding(crate::specs::Forms::are_distinct_pairs), using(crate::proofs::FormLemmas::are_distinct_one, crate::proofs::FormLemmas::are_distinct_first))]
pub(crate) fn are_distinct_pairs(words: &[&[u8]]) -> bool
    ensures { result ≡ are_distinct_pairs (map (λ word. word.now) words.now) }
{
    match words {
        [] => true,
        [name, _, rest @ ..] => !is_named(name, rest) && are_distinct_pairs(rest),
        _ => false,
    }
}

/// Whether the words behind the slots are as the form has them.
fn fits_behind(pairs: bool, words: &[&[u8]]) -> bool
    ensures { result ≡ fits_behind pairs (map (λ word. word.now) words.now) }
{
    if pairs {
        are_distinct_pairs(words)
    } else {
        words.is_empty()
    }
}

/// Whether the words have the form: one in each slot, and behind them none, or names with numbers.
#[tactic(auto, unfolding(crate::specs::Forms::fits), using(crate::proofs::FormLemmas::fits_none))]
pub(crate) fn fits(slots: &[Slot], pairs: bool, words: &[&[u8]]) -> bool
    ensures { result ≡ fits slots.now pairs (map (λ word. word.now) words.now) }
{
    match slots {
        [] => fits_behind(pairs, words),
        [slot, more @ ..] => match words {
            [] => false,
            [word, rest @ ..] => fits_slot(*slot, word) && fits(more, pairs, rest),
        },
    }
}
