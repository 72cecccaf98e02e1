//! The lines of a text and the words of a line, as scripts, MPS files and certificates have them.
//!
//! A text is bytes. A newline is the byte 10, and a blank is a space or a tab. A line ends at a newline, and what follows the
//! last newline is a line only where it has a byte. A word is a run of bytes between blanks.
//!
//! Contract: `cut_line` takes the first line off a text that has a newline, `line_text` is what is read of a line where a
//! carriage return before the newline is dropped, and `words` are the words of a line (`specs/Lines`, `specs/Words`). `is_word`
//! compares a word with a text.
//!
//! What differs stays with its reader: certificates keep the carriage return, comments begin with `#`, `*` or not at all,
//! and each reader has limits and line numbers of its own. Nothing stands below. Above stand the readers of scripts, of MPS
//! files, of certificates and of warm files.
#![tactic(auto)]

mod blanks;
mod lines;

pub use blanks::{is_blank_byte, is_word, words};
pub use lines::{cut_line, line_text};
