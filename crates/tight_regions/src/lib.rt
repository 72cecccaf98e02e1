//! The region of a path by its tightest changes, kept beside the path along a walk.
//!
//! A path of bound changes leaves a column with the bounds of its tightest changes alone, at most one for each side:
//!
//! ```text
//! NAME >= V, NAME >= W    as one change: NAME >= the greater of V and W
//! NAME <= V, NAME <= W    as one change: NAME <= the lesser of V and W
//! ```
//!
//! So a region has at most two changes for each column, however long its path is, and what is judged by the bounds of a
//! region (`SameBounds` in specs/SameBounds) may be judged by these few. A walk goes one change further or one back. Beside
//! the path a trail keeps what each change replaced in the region, so a step costs no more than a look through the region.
//!
//! Contract: `push`, `pop` and `restart` leave exactly the path that they say, and `region` has the bounds of the path, with at
//! most one change for each side of each column (`IsTrail`, `AreChangesApart` in specs/Tight). `grow` makes room for one more
//! change, and what lacks memory leaves the path as it was. `tightest` gives the tightest changes of a path at once.
//!
//! Below stand models (`lp_model`). Above stand what judges the leaves of trees by their numbers (`leaf_dual`) and the checker
//! of certificates (`cert_check`).
#![tactic(auto)]

mod given;
mod trail;

pub use given::tightest;
pub use trail::Trail;
