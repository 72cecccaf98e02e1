// The options of a search: how far it may go, and who works in it.
ghost use Rattle.std.specs.Prelude.{◌≡◌, map};
ghost use Rattle.command_words.specs.Options.{is_awaited, awaited_behind, are_options, positive_number_of, option_number, asked_gap, with_option, if_with_gap, if_with_option, with_named_option};
ghost use Rattle.command_words.specs.Asks.{asks_shown, begun_asks, options_asks};

use crate::words::{Asked, Beginning, search_asked, whole_number};
use frac128::Frac;
use text_lines::is_word;

/// How far a search may go, and who works in it.
#[derive(Clone, Copy)]
pub struct SearchOptions {
    /// How many results it may place.
    pub nodes: u64,
    /// How many simplex steps it may make in each of its relaxations.
    pub pivots: u64,
    /// How many workers share it, at least one.
    pub workers: u64,
    /// The seed whose words say whose turn it is.
    pub seed: u64,
    /// How far from the best value the best kept point may be for the search to end, at least 0, if that is named.
    pub gap: Option<Frac>,
}

/// Where no option is named: no limit, and one worker.
pub(crate) const NO_OPTION: SearchOptions = SearchOptions {
    nodes: u64::MAX,
    pivots: u64::MAX,
    workers: 1,
    seed: 0,
    gap: None,
};

/// Which options may come next.
#[derive(Clone, Copy)]
pub(crate) struct Awaited {
    /// `nodes N` may, where the seed need not.
    nodes: bool,
    /// `pivots N` may, where the seed need not.
    pivots: bool,
    /// `gap G` may, where the seed need not.
    gap: bool,
    /// `workers K seed S` may, where the seed need not.
    workers: bool,
    /// `seed S` must: `workers K` stands before.
    seed: bool,
}

/// No option is named yet.
pub(crate) const ANY_OPTION: Awaited = Awaited {
    nodes: true,
    pivots: true,
    gap: true,
    workers: true,
    seed: false,
};

/// No limit is named yet, and no other option may come.
pub(crate) const ANY_LIMIT: Awaited = Awaited {
    nodes: true,
    pivots: true,
    gap: false,
    workers: false,
    seed: false,
};

/// Whether an option with this key word may come next.
fn is_awaited(awaited: Awaited, key: &[u8]) -> bool
    ensures { result ≡ is_awaited awaited key.now }
{
    if awaited.seed {
        is_word(b"seed", key)
    } else if is_word(b"nodes", key) {
        awaited.nodes
    } else if is_word(b"pivots", key) {
        awaited.pivots
    } else if is_word(b"gap", key) {
        awaited.gap
    } else {
        is_word(b"workers", key) && awaited.workers
    }
}

/// What may come behind the option with this key word.
fn awaited_behind(key: &[u8], awaited: Awaited) -> Awaited
    ensures { result ≡ awaited_behind key.now awaited }
{
    Awaited {
        nodes: awaited.nodes && !is_word(b"nodes", key),
        pivots: awaited.pivots && !is_word(b"pivots", key),
        gap: awaited.gap && !is_word(b"gap", key),
        workers: awaited.workers && !is_word(b"workers", key),
        seed: is_word(b"workers", key),
    }
}

/// Whether the words are options, each once at most, numbers aside.
#[tactic(auto, unfolding(crate::specs::Options::are_options), using(crate::proofs::OptionLemmas::are_options_one, crate::proofs::OptionLemmas::are_options_first))]
pub(crate) fn are_options(awaited: Awaited, words: &[&[u8]]) -> bool
    ensures { result ≡ are_options awaited (map (λ word. word.now) words.now) }
{
    match words {
        [] => !awaited.seed,
        [key, _, more @ ..] => {
            is_awaited(awaited, key) && are_options(awaited_behind(key, awaited), more)
        }
        _ => false,
    }
}

/// The whole number of 64 bits that a word is, if it is one and not 0.
fn positive_number(word: &[u8]) -> Option<u64>
    ensures { result ≡ positive_number_of word.now }
{
    match whole_number(word) {
        Some(number) => { if number == 0 { None } else { Some(number) } }
        None => None,
    }
}

/// The number of the option with this key word, if the word is one. No search has 0 workers.
fn option_number(key: &[u8], word: &[u8]) -> Option<u64>
    ensures { result ≡ option_number key.now word.now }
{
    if is_word(b"workers", key) {
        positive_number(word)
    } else {
        whole_number(word)
    }
}

/// The gap that a word is, if it is a number that is at least 0.
fn asked_gap(word: &[u8]) -> Option<Frac>
    ensures { result ≡ asked_gap word.now }
{
    match frac_text::parse(word) {
        Ok(gap) => {
            if Frac::whole(0).is_at_most(&gap) {
                Some(gap)
            } else {
                None
            }
        }
        Err(_) => None,
    }
}

/// The options with the number of one more.
fn with_option(key: &[u8], number: u64, options: SearchOptions) -> SearchOptions
    ensures { result ≡ with_option key.now number options }
{
    if is_word(b"nodes", key) {
        SearchOptions {
            nodes: number,
            ..options
        }
    } else if is_word(b"pivots", key) {
        SearchOptions {
            pivots: number,
            ..options
        }
    } else if is_word(b"workers", key) {
        SearchOptions {
            workers: number,
            ..options
        }
    } else {
        SearchOptions {
            seed: number,
            ..options
        }
    }
}

/// The options with this gap, if there is one.
fn if_with_gap(gap: Option<Frac>, options: SearchOptions) -> Option<SearchOptions>
    ensures { result ≡ if_with_gap gap options }
{
    match gap {
        Some(gap) => Some(SearchOptions {
            gap: Some(gap),
            ..options
        }),
        None => None,
    }
}

/// The options with this number, if there is one.
fn if_with_option(key: &[u8], number: Option<u64>, options: SearchOptions) -> Option<SearchOptions>
    ensures { result ≡ if_with_option key.now number options }
{
    match number {
        Some(number) => Some(with_option(key, number, options)),
        None => None,
    }
}

/// The options with the one with this key word, if the word behind it is its number.
fn with_named_option(key: &[u8], word: &[u8], options: SearchOptions) -> Option<SearchOptions>
    ensures { result ≡ with_named_option key.now word.now options }
{
    if is_word(b"gap", key) {
        if_with_gap(asked_gap(word), options)
    } else {
        if_with_option(key, option_number(key, word), options)
    }
}

/// What a search asks for that begins so, with these options and those of the words.
pub(crate) fn options_asked<'a>(
    beginning: Beginning,
    options: SearchOptions,
    words: &[&'a [u8]],
) -> Asked<'a>
    ensures { asks_shown result ≡ options_asks (begun_asks beginning) options (map (λ word. word.now) words.now) }
{
    match words {
        [key, number, more @ ..] => match with_named_option(key, number, options) {
            Some(given) => options_asked(beginning, given, more),
            None => Asked::NoNumber { word: number },
        },
        _ => search_asked(beginning, options),
    }
}
