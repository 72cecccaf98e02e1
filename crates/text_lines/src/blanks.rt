// The words of a line, which stand between its blanks.
ghost use Rattle.std.specs.Prelude.{◌≡◌, ◌<◌, ◌∷◌, ◌++◌, ℕ, true, length, map, IfOk, IfNone, IfSome, OnOk, bytes_eq};
ghost use Rattle.text_lines.specs.Words.{is_blank, HasNoBlank, word_in, words_of};

use std::alloc::{AllocError, Global};

/// Whether the byte is a blank: a space or a tab.
pub fn is_blank_byte(byte: u8) -> bool
    ensures { result ≡ is_blank byte }
{
    byte == b' ' || byte == b'\t'
}

/// The bytes before the first blank, and what follows it. None where the line has no blank.
fn cut_piece(line: &[u8]) -> Option<(&[u8], &[u8])>
    ensures none { IfNone result (HasNoBlank line.now) }
    ensures clean { IfSome result (λ parts. HasNoBlank parts.0.now) }
    ensures parts { IfSome result (λ parts. (blank : ℕ) × (is_blank blank ≡ true) × (line.now ≡ parts.0.now ++ blank ∷ parts.1.now)) }
    ensures shorter { IfSome result (λ parts. length parts.1.now < length line.now) }
{
    for end in 0..line.len() {
        if is_blank_byte(line[end]) {
            return Some((&line[..end], &line[end + 1..]));
        }
    }
    None
}

/// Puts the word that a piece without blanks is behind others, if it has a byte.
fn push_word<'a>(words: &mut Vec<&'a [u8]>, piece: &'a [u8]) -> Result<(), AllocError>
    ensures { OnOk result (map (λ word. word.now) words.new.items ≡ map (λ word. word.now) words.old.items ++ word_in piece.now) }
{
    if piece.is_empty() {
        return Ok(());
    }
    match words.push(piece) {
        Ok(()) => Ok(()),
        Err(_) => Err(AllocError),
    }
}

/// Puts the words of a line behind others.
fn push_words<'a>(words: &mut Vec<&'a [u8]>, line: &'a [u8]) -> Result<(), AllocError>
    ensures { OnOk result (map (λ word. word.now) words.new.items ≡ map (λ word. word.now) words.old.items ++ words_of line.now) }
{
    let mut rest = line;
    while let Some((piece, more)) = cut_piece(rest) {
        let Ok(()) = push_word(words, piece) else {
            return Err(AllocError);
        };
        rest = more;
    }
    push_word(words, rest)
}

/// Whether the word is this one, byte for byte.
pub fn is_word(key: &[u8], word: &[u8]) -> bool
    ensures { result ≡ bytes_eq word.now key.now }
{
    word == key
}

/// The words of a line, each a part of it. Fails for want of memory alone.
pub fn words(alloc: Global, line: &[u8]) -> Result<Vec<&[u8]>, AllocError>
    ensures { IfOk result (λ words. map (λ word. word.now) words.items ≡ words_of line.now) }
{
    let mut words = Vec::new(alloc);
    match push_words(&mut words, line) {
        Ok(()) => Ok(words),
        Err(error) => {
            drop(words);
            Err(error)
        }
    }
}
