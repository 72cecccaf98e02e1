//! The sweep of a front: one inner model after the other is solved, and each outcome that is found is nondominated.
//!
//! The ends come first: the least `f1`, and the least `f2` beside it; the least `f2`, and the least `f1` beside it. Then the gap with
//! the least first value is looked into, until none is left: where its least `Z` is its width it is empty, and its tree proves so;
//! else what is found is pulled to an outcome that no other dominates, which parts the gap in two (T. K. Ralphs, M. J. Saltzman,
//! M. M. Wiecek, An improved algorithm for solving biobjective integer programs, 2006).
//!
//! Public contract of `run_wcn` (`IsMc`, `specs/Answers`), over every solver that keeps its law: a complete front is exactly the outcomes
//! that no other dominates, and the checker accepts its certificate; an outcome told on a stop is nondominated; a stop is one that the solver said
//! at first it may answer of the part that is named, with the results that remain. Whatever is answered but want of memory, the solver's
//! model is then what it was. `swept_to_end_law`: what nothing hinders comes to its end.
//!
//! Below stands what solves each inner model (`front_parts`), and which certificates of fronts are accepted (`front_check`).
#![tactic(auto)]

mod answers;
mod driving;
mod ends;
mod found;
mod gaps;
mod laws;
mod settling;
mod sweeping;
mod task;
mod told;
mod trees;

pub use answers::{Mc, Part, ScalePlace};
pub use laws::swept_to_end_law;
pub use sweeping::run_wcn;
pub use trees::front_tree;
