//! The canonical text of a model as a free MPS file, which any reader of the format takes and which gives the model back.
//!
//! ```text
//! write(m) = canonical_text(m)
//! read(write(m), None) = m, where m is writable
//! ```
//!
//! All headers stand: NAME, OBJSENSE with the sense, ROWS with both objectives and the rows, COLUMNS with one number on each
//! line and each integer column between its own markers, RHS, RANGES, BOUNDS with two lines for each column, ENDATA. So no
//! default of another reader decides: an integer column, one without bounds and one below 0 say so. Numbers are exact, `n`
//! or `n/d`, never a rounded decimal.
//!
//! Public contract: `write` answers the canonical text, and that text means the model where it is writable (`IsWritableMps`: not
//! widened, names of 1 to 255 bytes from `!` to `~`, no row or objective named like the marker word, finite bounds below 10^20);
//! the other answer is want of memory. So `read` answers the model of it, or want of memory (`read_back_law`).
//! A model that scripts may have is writable but for the marker word (`script_writable_law`).
//!
//! Below stands `mps_model`, which reads; above stand the environment's callers.
#![tactic(auto)]

mod columns;
mod puts;
mod rows;
mod writing;

pub use writing::{read_back_law, script_writable_law, write};
