//! What the words behind `edit`, and behind a command of bounds, ask for.
//!
//! ```text
//! cost COL V, cost2 COL V                              another cost
//! row ROW lo V, row ROW hi V, row ROW both V           another side, or both; V may be `none`
//! bounds COL LO UP                                     other bounds, each a number or `none`
//! kind COL int, kind COL cont                          whole numbers alone, or any
//! addcol NAME int|cont LO UP COST COST2 [ROW V]..      a last column
//! addrow NAME LO HI [COL V]..                          a last row
//! replacerow ROW LO HI [COL V]..                       another row at the place and with the name of one
//! delcol COL, delrow ROW                               a column or a row goes
//! ```
//!
//! A form is data: a slot for each word, and whether names with numbers follow (specs/Forms). A bound of 10^20 and more in
//! magnitude on its own side is none; on the other side it is no number.
//!
//! The commands of bounds, `lbrhs`, `lbobj`, `ubrhs` and `ubobj`, are followed by names with numbers alone: `NAME V [NAME V]..`.
//!
//! Contract in one sentence: `read_edit` answers exactly the edit that the words ask for, and `read_pairs` the names with numbers, or
//! the first of their faults: none of the forms, then the first word in a number's place that is none there.
//!
//! What an edit brings is what a model of a script may have (`new_parts_law`), and such a model stays one (`edited_model_law`).
//!
//! Below stand `frac_text`, which says what a number is, `lp_model`, which has the edits, and `word_names`, which says what a model of a
//! script is. Above stands `sym_shell`.
#![tactic(auto)]

mod asked;
mod entries;
mod forms;
mod kinds;
mod laws;
mod numbers;

pub use asked::{EditAsked, read_edit};
pub use entries::{Entries, read_pairs};
pub use laws::{edited_model_law, new_parts_law};
