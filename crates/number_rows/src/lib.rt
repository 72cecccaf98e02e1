//! Worked rows of numbers: what the calls of `frac128`, `checked_sum` and `frac_text` are to answer.
//!
//! Each heading of a row is one question and its answer, as `1/3 + 1/6 -> 1/2`, `floor -7/2 -> -4` or `parse 1e400 -> wide`.
//! `questions` splits one off and compares, `fractions` and `sums` ask the calls, and `words` reads numbers and writes them.
//! The proof of this crate says that it is safe and ends whatever the files are, and nothing of what they want: that comes
//! from outside, and never from these calls' own answers.
#![tactic(auto)]

mod fractions;
mod questions;
mod sums;
mod words;

pub use questions::Questions;
