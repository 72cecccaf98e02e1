//! What `solve [nodes N] [pivots N] [gap G] [workers K seed S]` and `warm` with the same options are answered.
//!
//! ```text
//! solve      Solved M l answer T        a fresh search of M, which went no further than l, became T, and this was found
//! warm       WentOn S l answer T        the search S that is kept went on to T, and this was found
//! ```
//!
//! No search is made here. Whoever makes one hands over what was answered and the environment that it left, and what is known of both
//! (`IsSolved`, `IsWarmed`: the search was had so, the answer is true of the model, and it is the end where there was enough of all). Of this
//! the reply is written, and it shows what the product promises (specs/Showing), read from the reply's bytes alone:
//!
//! ```text
//! optimal V ..       a feasible point that no feasible point beats, with its value V; of the points that the search keeps it is the
//!                    oldest with the best value
//! within G V ..      a feasible point, with its value V, that no feasible point beats by more than G, which was asked for as the gap;
//!                    a leaf is open, and all leaves are within G of that point
//! infeasible ..      no point is feasible
//! unbounded ..       the objective has no end, and a ray of it is held
//! stopped WHY ..     no feasible point is better than the bound, some feasible point has the best value, and it lacked something
//! ```
//!
//! More than 64 workers are refused (`error 08 limit 64`), and nothing changes; what an answer shows is the same for every number of them.
//!
//! What each command may be answered, and what a reply of each kind says for sure, is the family `searches` (specs/Family). It is
//! lawful (`searches_law`), and a search with enough of all ends with one of the first four, or for want of memory (`complete_law`).
//!
//! Public contract in one sentence: `tell_solved` and `tell_warmed` write a reply that `solve` and `warm` may be answered
//! (`RepliesToSolve`, `RepliesToWarm`), with the environment that stands afterwards. The commands are those of the SYMPHONY manual's
//! `sym_solve` and `sym_warm_solve` in purpose. Below stand the environment (`kept_env`), how a search is had and what it answers
//! (`tree_search`), and the bytes of replies (`reply_texts`); above, the shell, which asks `sym_env` for the search.
#![tactic(auto)]

mod answering;
mod laws;
mod limits;

pub use answering::{tell_crowd, tell_solved, tell_warmed};
pub use laws::{complete_law, searches_law};
pub use limits::{WORKER_LIMIT, limits_of};
