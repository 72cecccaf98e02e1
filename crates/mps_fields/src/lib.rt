//! What one line of a free MPS text says by itself.
//!
//! The sections and their order, the kinds of lines, the types of rows and bounds, the senses; the pairs of a row's name and a
//! number on a line; the numbers that fields spell, and the limits of BOUNDS, infinite from a magnitude of 10^20 on. `Words` and
//! `Numbers` say it of fields, `Fields` of lines.
//!
//! Below stand `mps_text` (lines and fields) and `frac_text` (numbers); `mps_sections` says what the lines of a text state
//! together.
#![tactic(auto)]

mod numbers;
mod pair;
mod pairs;
mod words;

pub use numbers::{Limit, is_misplaced, is_no_limit, is_wide_limit, limit_of, limit_or_plus};
pub use pair::{Pair, Pairs};
pub use pairs::{has_count, is_long, pairs_on};
pub use words::{
    BoundKind, LineKind, RowKind, Section, first_word, has_unknown_sense, header_sense, is_end,
    is_key, kind_in, sense_of,
};
