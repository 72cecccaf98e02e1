//! The ten edits of a model: another cost, bounds or kind of a column, other sides or coefficients of a row, and a row or a
//! column that comes or goes.
//!
//! What an edit makes of a model, `edited M e`, and when it fits, `EditFits M e`, are defined in `lp_model`'s specs/Edits. `apply`
//! makes just that in place, or leaves the model as it was and tells the first fault (specs/Faults), in the order: a name that
//! isn't there, a name that is taken, a limit, a missing bound, sides that are no range. A model's invariant holds after each
//! edit (proofs/LawfulLemmas, proofs/EditedLaws).
//!
//! An edit of one row or column changes no other one; only an edit that brings, takes out or replaces a row copies the columns.
//!
//! Below stands `lp_model`, the models. Above stand the reader of files and the search, which edits its model.
#![tactic(auto)]

mod changing;
mod edits;
mod faults;
mod laws;
mod names;
mod removing;

pub use edits::{apply, apply_lent};
pub use faults::EditFault;
pub use laws::fitting_law;
