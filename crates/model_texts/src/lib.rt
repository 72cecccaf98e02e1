//! Models, and what stands beside them, as lines of text and back, for programs that run worked rows.
//!
//! A model is said by lines. Each is a change of the model before it, so the same lines say edits:
//!
//! ```text
//! max constant 3                                  the head, if there is one: else `min`, and constants of 0
//! row A ..5                                       a row; its numbers may stand in the columns below it
//! column x integer 0..3 cost -1 A 2 B 3           a column
//! column y ..3                                    one that may have fractions
//! row C 2..2 x 1 y 1/2                            a row with its numbers in the columns above it
//! ```
//!
//! A range is `LOW..HIGH`, and a side that isn't there is left out. Numbers are those of `frac_text::parse`. Points, multipliers,
//! regions and bases are lists of words by the names of a model's columns and rows (`lists`), and are written back so
//! (`writing`). A column or row that is not in the model is `column#7` or `row#7`, and a cut is `cut#7`, by its place from 0.
//!
//! Nothing is assumed of a text: what is wrong with it is told with the line. Below stand `lp_model` and `frac128`; above,
//! the crates of rows. The proof says that the calls are safe and end; what a line means is seen by what rows print.
#![tactic(auto)]

mod edits;
mod lists;
mod models;
mod words;
mod writing;

pub use edits::edit_of;
pub use lists::{
    basis_of, column_of, is_narrow_region, multipliers_of, point_of, region_of, variable_of,
    variables_of,
};
pub use models::{apply_line, empty_model, head_of, model_of};
pub use words::{Words, name_of, number_of, range_of, whole_of};
pub use writing::{
    name_text, push_basis, push_bound, push_edit_fault, push_multipliers, push_point,
    push_variable, push_variables, push_wide_step,
};
