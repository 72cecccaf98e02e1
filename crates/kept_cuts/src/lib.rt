//! The cuts of a pool that an edit of the model leaves.
//!
//! An edit that takes a row out takes the cuts that derive from it; one that takes a column out takes those with a literal of
//! it. The others stay, in their order, by the places that their row and their columns have then, and each counts exactly
//! where it derives at the edited model with room for each step.
//!
//! Public contract: `pool_after` makes these cuts (`IsPoolAfter` in specs/Kept), and `gone_with` gives the places of those
//! that go, by which they go from the lists of a tree (`branch_tree`). A cut whose derivation the edit spares (specs/private/Spared) is
//! taken over as it stands; the others are derived again.
//!
//! Below stand pools of cuts (`cover_cuts`), trees (`branch_tree`) and models (`lp_model`). Above stands the search.
#![tactic(auto)]

mod copies;
mod pool;

pub use copies::{copy_derivation, derivations};
pub use pool::{add_derivation, gone_with, pool_after, with_derivation};
