//! The calls of a search in words, for crates of worked rows: the results that are placed, and what stands afterwards.
//!
//! `place ID close multipliers A 1`, `stands`, `leaf 3` and others are told in `docs/TREE_ROWS.md`.
//!
//! It serves test programs alone. Its proof says that it is safe and ends. Below stand the words of calls (`model_calls`) and searches
//! (`tree_edit`); above, the crates whose rows have a search or a manager of its workers.
#![tactic(auto)]

mod lists;
mod results;
mod standing;
mod told;

pub use lists::{basis_in, multipliers_in, take_split};
pub use results::{taken_word, whole_result};
pub use standing::read_search;
pub use told::{push_region, read_tree};
