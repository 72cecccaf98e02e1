//! Worked rows of a search's workers: leaves that are handed out, results that come in any order, late, repeated or forged, workers that
//! are lost, and edits, trims and cuts between.
//!
//! A row's lines are calls, each with its answer behind ` -> `, and `ok` where none is written. They are made on the manager that the row has
//! begun. `docs/TREE_ROWS.md` tells each call.
//!
//! The proof says that it is safe and ends, whatever the files are. What the calls are to answer comes from outside.
#![tactic(auto)]

mod begun;
mod managers;

use crate::begun::Begun;
use model_calls::Calls;

/// What runs these rows.
pub type ManagerStage = Calls<Begun>;
