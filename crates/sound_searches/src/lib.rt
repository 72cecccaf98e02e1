//! What a search by branching is, and what its calls make of it: definitions and laws.
//!
//! A search is a model, a pool of cuts, a tree and the feasible points that were kept (`PlainSearch` in specs/Sound). It is sound
//! (`IsSound`) where a cut counts exactly where it derives at the model, a leaf is marked closed exactly where it closes against
//! the least value of the kept points (`leaf_judging`), and each list names what is there, once (`search_parts`).
//!
//! A call is a relation between the search before it, what is answered, and the search after it: a result is placed (`Takes` in
//! specs/Placing), a leaf's work begins (specs/Jobs), a cut is added (specs/Pool), the model is edited (specs/Edited), the tree
//! is cut down (specs/Trimmed), a search is made of parts (specs/Parts). What is told of a search stands in specs/Calls. They
//! name no code, so those who work leaves or count what is left to do can say what a search takes without the search itself.
//!
//! Public contract: the laws. Where no leaf of a sound search is open its best point is an optimum (`optimum_law`), or without a
//! point the model has no feasible one (`empty_law`); the least number of the open leaves is a bound (`bound_law`); a placed
//! result leaves every other node as it was (`others_law`).
//!
//! There is no code but the laws, each a function whose contract is the statement. Below stand judged leaves (`leaf_judging`),
//! the cuts that an edit leaves (`kept_cuts`) and the parts of a search (`search_parts`). Above stand the search (`tree_edit`),
//! the work on a leaf (`node_solve`) and the counting of searches (`search_counting`).
#![tactic(auto)]

mod laws;
mod taken;

pub use laws::{bound_law, empty_law, optimum_law, others_law};
pub use taken::Taken;
