// The words of a line, taken one after the other: names, numbers and ranges.
ghost use Rattle.std.specs.Prelude.{IfOk};
ghost use Rattle.frac128.specs.Range.{IsNarrow};

use anyhow::{Error, Result, anyhow};
use frac_text::NumFault;
use frac128::Frac;
use lp_model::{Bound, List, Name};
use std::alloc::{AllocError, Global};

/// The words of a line, between blanks, and how many were taken.
#[derive(Drop)]
pub struct Words {
    words: Vec<String>,
    taken: usize,
}

impl Words {
    /// The words of a line, none of them taken.
    pub fn new(alloc: Global, line: &str) -> Result<Words, AllocError> {
        let mut words = Vec::new(alloc);
        for word in line.split_whitespace() {
            words.push(String::from_str(alloc, word)?)?;
        }
        Ok(Words { words, taken: 0 })
    }

    /// Whether all words are taken.
    pub fn is_done(&self) -> bool {
        self.taken >= self.words.len()
    }

    /// How many words are left at most.
    pub fn most(&self) -> usize {
        self.words.len()
    }

    /// Takes the next word. Where there is none, that is told by what it was to be.
    pub fn next(&mut self, what: &str) -> Result<String> {
        let Some(word) = self.words.get(self.taken) else {
            return Err(anyhow!("no {what} at the end of the line"));
        };
        let word = word.clone()?;
        self.taken = self.taken.saturating_add(1);
        Ok(word)
    }

    /// Takes the next word where it is this one.
    pub fn takes(&mut self, key: &str) -> bool {
        let is_next = match self.words.get(self.taken) {
            None => false,
            Some(word) => word.as_str() == key,
        };
        if is_next {
            self.taken = self.taken.saturating_add(1);
        }
        is_next
    }

    /// Takes the next word, which is a number.
    pub fn number(&mut self) -> Result<Frac> {
        let word = self.next("number")?;
        let number = number_of(&word);
        drop(word);
        number
    }

    /// Takes the next word, which is a range `LOW..HIGH`.
    pub fn range(&mut self) -> Result<(Bound, Bound)> {
        let word = self.next("range")?;
        let range = range_of(&word);
        drop(word);
        range
    }

    /// Takes the next word, which is a name.
    pub fn name(&mut self, alloc: Global) -> Result<Name> {
        let word = self.next("name")?;
        let name = name_of(alloc, &word);
        drop(word);
        Ok(name?)
    }

    /// Refuses a line of which a word is left.
    pub fn end(&self) -> Result<()> {
        match self.words.get(self.taken) {
            None => Ok(()),
            Some(word) => Err(fault("a word too many", word)),
        }
    }
}

/// What is wrong with a word.
pub fn fault(what: &str, word: &str) -> Error {
    anyhow!("{what}: `{word}`")
}

/// The name that a word is.
pub fn name_of(alloc: Global, word: &str) -> Result<Name, AllocError> {
    List::from_slice(alloc, word.as_bytes())
}

/// The number that a word spells.
pub fn number_of(word: &str) -> Result<Frac> {
    match frac_text::parse(word.as_bytes()) {
        Ok(number) => Ok(number),
        Err(NumFault::Wide) => Err(fault("a number that is too wide", word)),
        Err(NumFault::NotNumber) => Err(fault("no number", word)),
    }
}

/// The whole number that a word spells.
pub fn whole_of(word: &str) -> Result<i128>
    ensures { IfOk result IsNarrow }
{
    let number = number_of(word)?;
    if !number.is_whole() {
        return Err(fault("no whole number", word));
    }
    Ok(number.floor())
}

/// The side that a word spells, where there is one.
fn side_of(word: &str) -> Result<Bound> {
    if word.is_empty() {
        return Ok(None);
    }
    let number = number_of(word)?;
    Ok(Some(number))
}

fn sides_of(low: &str, high: &str) -> Result<(Bound, Bound)> {
    let low = side_of(low)?;
    let high = side_of(high)?;
    Ok((low, high))
}

/// The sides of a range `LOW..HIGH`.
pub fn range_of(word: &str) -> Result<(Bound, Bound)> {
    match word.split_once("..") {
        Some((low, high)) => sides_of(low, high),
        None => Err(fault("no range", word)),
    }
}
