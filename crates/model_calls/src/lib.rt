//! Calls in words, for programs that run worked rows: rows of a model and of calls, what a model answers, and the parts of a call.
//!
//! `Calls` of a `Callee` is the stage of such rows: the callee takes the row's model and answers each call.
//!
//! `edit`, `point`, `value` and others are told in `docs/TREE_ROWS.md`. The words of a call begin with those that each call of
//! its kind has, and behind them stand sections, each with a key at its head: `multipliers A 1`, `basis A high x`.
//!
//! It serves test programs alone. Its proof says that it is safe and ends.
#![tactic(auto)]

mod calls;
mod derivations;
mod models;
mod sections;

pub use calls::{Callee, Calls};
pub use derivations::derivation_of;
pub use models::{call, push_answer, push_step};
pub use sections::{has_section, numbers_of, section, take_number};
