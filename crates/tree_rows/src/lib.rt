//! Worked rows of models, branching trees and searches: edits and their faults, points, results placed in a search whoever
//! made them, and what stands afterwards.
//!
//! A row's lines are calls, each with its answer behind ` -> `, and `ok` where none is written. They are made from above, on
//! the model, the tree or the search that the row has begun. `docs/TREE_ROWS.md` tells each call; `row_texts` reads the files, and
//! `model_texts` the models and the lists.
//!
//! The proof says that it is safe and ends, whatever the files are. What the calls are to answer comes from outside.
#![tactic(auto)]

mod begun;
mod chains;
mod counting;
mod searches;
mod solving;
mod trees;

use crate::begun::Begun;
use model_calls::Calls;

/// What runs these rows.
pub type TreeStage = Calls<Begun>;
