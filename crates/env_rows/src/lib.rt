//! Worked rows of the environment: what the calls of the callable library answer, for a model that is loaded and for none.
//!
//! A row's lines are calls, each with its answer behind ` -> `, and `ok` where none is written. They are made from above.
//! `docs/ROWS.md` tells each call; `row_texts` reads the files, and `model_texts` the models.
//!
//! The proof says that it is safe and ends, whatever the files are. What the calls are to answer comes from outside.
#![tactic(auto)]

mod answers;
mod environment;

use crate::environment::Environment;
use model_calls::Calls;

/// What runs these rows.
pub type EnvironmentStage = Calls<Environment>;
