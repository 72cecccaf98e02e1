// The words of a row, and the numbers that they spell.
use anyhow::{Error, Result, anyhow};
use frac128::Frac;
use std::alloc::{AllocError, Global};

/// The words between blanks.
pub fn words_of(alloc: Global, text: &str) -> Result<Vec<&str>, AllocError> {
    let mut words = Vec::new(alloc);
    for word in text.split_whitespace() {
        words.push(word)?;
    }
    Ok(words)
}

/// What is wrong with a word.
pub fn fault(what: &str, word: &str) -> Error {
    anyhow!("{what}: {word}")
}

/// The number that a word spells.
pub fn number_of(word: &str) -> Result<Frac> {
    match frac_text::parse(word.as_bytes()) {
        Ok(number) => Ok(number),
        Err(_) => Err(fault("no number", word)),
    }
}

/// A number's text.
pub fn number_text(alloc: Global, number: &Frac) -> Result<String, AllocError> {
    format!(in alloc; "{number}")
}

/// A fraction's text, or `wide` for one that has no room.
pub fn told(alloc: Global, found: &Result<Frac, frac128::Wide>) -> Result<String, AllocError> {
    match found {
        Ok(number) => number_text(alloc, number),
        Err(_) => String::from_str(alloc, "wide"),
    }
}
