// The parts of a call: the words at its front, and sections, each behind a key.
use anyhow::{Result, bail};
use lp_model::{List, Point};
use model_texts::Words;
use std::alloc::{AllocError, Global};

/// Whether a section stands behind the word.
fn is_key(word: &str) -> bool {
    matches!(
        word,
        "point" | "numbers" | "multipliers" | "farkas" | "basis"
    )
}

/// The words behind a key, up to the next key: none where it isn't there. Behind no key, those up to the first.
pub fn section(alloc: Global, line: &str, key: &str) -> Result<Words, AllocError> {
    let mut text = String::new(alloc);
    let mut is_inside = key.is_empty();
    for word in line.split_whitespace() {
        if is_key(word) {
            is_inside = word == key;
        } else if is_inside {
            text.push_str(word)?;
            text.push(' ')?;
        }
    }
    Words::new(alloc, &text)
}

/// Whether a key is there.
pub fn has_section(line: &str, key: &str) -> bool {
    for word in line.split_whitespace() {
        if word == key {
            return true;
        }
    }
    false
}

/// Takes a number of 64 bits, written without sign.
pub fn take_number(words: &mut Words) -> Result<u64> {
    let word = words.next("number")?;
    match row_texts::number_of(&word) {
        Some(number) => Ok(number),
        None => bail!("no number: `{word}`"),
    }
}

/// A point of the numbers that are left, however many there are.
pub fn numbers_of(alloc: Global, words: &mut Words) -> Result<Point> {
    let mut point = List::new(alloc);
    for _ in 0..words.most() {
        if words.is_done() {
            break;
        }
        let number = words.number()?;
        point.push(number)?;
    }
    Ok(point)
}
