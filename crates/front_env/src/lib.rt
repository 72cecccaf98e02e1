//! An environment that solves the inner models of a front.
//!
//! `FrontEnv` is a `Solver` (`front_solver`): it has a model and a search of its own, so that whoever hands in a copy of a model keeps
//! that model's search, tree and points as they are. An edit changes the model, and the search is a fresh root of it.
//!
//! The last two searches that were solved are kept, where their models have at least two rows more than the first one, as those of gaps and
//! pulls have, and their trees are not large. A solve takes one of as many rows and columns and makes it one
//! of the present model: its cuts are derived, its points are tested and its leaves are judged there. With this it goes on (`warm_solve`
//! of `sym_env`). So a gap begins with the tree of the last gap, and a pull with that of the last pull. Where there is none, or it stops, a solve
//! begins with a fresh root (`solve`), with the limits that it was made with and the results that remain of those that it is told.
//!
//! Public contract: that of `Solver`, with these meanings.
//!
//! ```text
//! program     the model of its search
//! finished    the claim of its last solve, where that found an optimum or that no point is feasible; nothing from an edit on
//! stops       behind results that a kept search placed before it was let go, a search from a fresh root by its limits answers so, by its
//!             cause over that search, its pool and the limits with the results that remain, and these were not enough for it to go to
//!             its end (`IsStopBehind` in specs/FrontEnvs)
//! ```
//!
//! So where the limits are enough for a model (`IsEnough` of `tree_search`), no stop is answered of it. The certificate is that of the
//! search (`tree_cert`).
//!
//! Below stand the environment's calls (`kept_env`, `sym_env`), certificates of searches (`tree_cert`) and `front_solver`. Above stands
//! what asks for whole fronts.
#![tactic(auto)]

mod answers;
mod front_env;
mod kept;
mod resuming;

pub use front_env::FrontEnv;
