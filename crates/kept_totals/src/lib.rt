//! Running totals of a sum of products, kept at places so that a sum that changes from a place on is gone on with from there.
//!
//! The sum is that of `checked_sum`: from a start, one product after the other, and each is a step that has room or not.
//! `Totals::add_term` adds a term, and ticks the counter that it takes last. A total that is kept is gone back to by
//! `back_to`, for no step. That a kept total is that of another sum, whose terms are alike up to there, is said by
//! `like_terms_law`. Where one term of the sum becomes another one, all totals behind it are moved by `move_by`, which beside `add_term`
//! alone adds one, and ticks for each total: that the steps of the other sum have room is known beforehand where its terms are short (`short_sum_law`).
//!
//! Below stand `frac128` and `checked_sum`.
#![tactic(auto)]

mod steps;
mod term;
mod total;
mod totals;
mod walk;

pub use steps::Steps;
pub use term::Term;
pub use totals::{Totals, like_terms_law, short_sum_law};
pub use walk::{PartialTerms, Stop, add_blocks, add_terms, are_short};
