//! The solver as a library: the two calls that work the search of an environment (`kept_env`), from a fresh root or from where it stands.
//!
//! `solve` searches the model from a fresh root on. First it finds lists at which each relaxation of a leaf can begin:
//!
//! ```text
//! the slack state is lawful           its lists                                           else the ray phase (`ray_phase`):
//! there is no ray                     the lists of its last state
//! there is a ray                      those of the ray phase of the model without costs; the relaxations are those of that model
//! ```
//!
//! Then leaves are worked until none is open, or the search stops (`tree_search`). Beside a ray one feasible point is enough:
//! the objective has no end.
//!
//! `warm_solve` goes on from the tree and the points that are kept, after an edit or a stop: every node but open leaves stays.
//! Where no leaf is open, and where a ray stands beside a kept point, it places nothing.
//!
//! Both take the search out of the environment and give it back with what may be held of it: the answer of a search that went to its
//! end, or that the model is unbounded, with a ray of it (`Worked` of `kept_env`).
//!
//! Public contract: each answer is true of the model (`IsTrueAnswer`, `IsTrueOfKept`), with what was done to find it (`SolvesFrom`,
//! `WarmsFrom`); with enough of all (`IsEnough`, `IsKeptEnough`) a search goes to its end. These definitions name no environment, and
//! stand in `tree_search`. The calls are those of the SYMPHONY manual's `sym_environment` in purpose. Below stand the environment
//! (`kept_env`), the search and the ray phase; above, the shell.
#![tactic(auto)]

mod environment;
mod solving;
mod warming;

pub use environment::{solve, warm_solve};
