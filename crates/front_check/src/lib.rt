//! The checker of certificates of fronts.
//!
//! A certificate of a front has outcomes, each with its point, by rising first and falling second value, and a tree for each inner
//! model (`inner_models`): the least first value is the first outcome's, the least second value the last one's, and the least `Z` of
//! each gap between two neighbours is the gap's width `a*b`, so that no feasible point lies between them. Each feasible point is then
//! no better than one of the outcomes, and the outcomes are exactly those that no other dominates.
//!
//! Contract: `check_front` answers Accepted with how many outcomes there are, or the first of the certificate's parts that does not
//! hold, or has a step of arithmetic without room, in the order objectives, outcomes, trees, cuts, nodes (`specs/Verdict`; there is one
//! such verdict, `one_front_verdict_law`). For every model and every certificate, whoever wrote it, the outcomes of an accepted
//! certificate are the front of the model (`front_verdict_law`, `front_law`), and one that is rejected is not accepted by the definition,
//! but where a number of a gap has no room (`front_rejected_law`). Whoever makes a certificate part by part, each passing, has one that is
//! judged accepted (`passing_parts_law`, `specs/Passing`).
//!
//! Below stand certificates of fronts (`front_text`), the checker of a tree (`cert_check`), inner models (`inner_models`) and
//! fronts (`frontier`). Above stands the command `check` (`command_files`).
#![tactic(auto)]

mod checking;
mod laws;
mod outcomes;
mod trees;
mod values;
mod verdict;

pub use checking::check_front;
pub use laws::{
    front_law, front_rejected_law, front_verdict_law, one_front_verdict_law, passing_parts_law,
};
pub use verdict::FrontVerdict;
