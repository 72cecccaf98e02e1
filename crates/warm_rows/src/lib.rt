//! Worked rows of warm files: what a text states, or its first fault.
//!
//! A row gives the bytes of a warm file. `warm_file::read` reads them; what it reads is written by `warm_writer::write`, and that text
//! is read and written once more. A row wants the text that is written both times, or the place and the code of the first fault.
//!
//! ```text
//! text                          and a text: the bytes of a warm file
//! change OLD => NEW             puts NEW in place of the first OLD among the bytes, both as they stand in the line
//! place /model/rows/0 code 11   reading is refused there, with that code
//! again                         it is read, and written as it was
//! older                         it is a text of the first version, and written as it was but for its version: no list has a difference
//! written                       and a text: it is read, and written so
//! ```
//!
//! A row's lines are done from above. `docs/ROWS.md` tells the form of rows. The proof of this crate says that it is safe and ends whatever the files are, and
//! nothing of what they want: that comes from outside, and never from what the reader and the writer answer.
#![tactic(auto)]

mod stage;

pub use stage::WarmStage;
