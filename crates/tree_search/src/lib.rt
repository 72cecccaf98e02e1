//! The search of a model over a tree of regions, whose leaves are worked by their relaxations.
//!
//! Workers share it. Until no leaf is open it is the turn of one of them (`turn_order`): one that holds nothing gets the open leaf
//! with the least number of those that nobody holds, and one that holds a leaf works it (`node_solve`): a whole point, a
//! split at a fractional number, or multipliers that close it, after at most five rounds of cuts. The cuts that were found go
//! into the search's pool, and then the result is handed in to the manager (`tree_manager`), and the search judges it again. With one
//! worker the leaf with the least number is worked, again and again. The search stops where it has placed as many results as the limit
//! allows, where the tree has no room for a split, where a relaxation has as many moves as its limit allows, and where a step of
//! arithmetic has no room; in the last two the leaf keeps the basis that was reached.
//!
//! A worker may hold its leaf while others place results. Since the target only falls, what its work comes to is still taken
//! (`IsHeldJob`), and a leaf that others close is held by nobody.
//!
//! Where a gap is given, and no ray was found, the search ends before a turn, and before a stop at the limit on results, as soon as all its leaves
//! are within the gap of the best kept point. The open leaf that goes first decides it (`first_open_law` of `search_gaps`), so that a turn costs no
//! more. Leaves keep their marks.
//!
//! Where the model has a ray, its relaxations have no least value. Then those of the model without costs are worked, and
//! the first point ends the search: with the ray beside it the objective has no end.
//!
//! ```text
//! each result leaves less to place     2 points - 1 of each open leaf's region, summed (`search_counting`)
//! ```
//!
//! Public contract: `search_on` makes exactly the turns that `Goes` says (specs/Turns), and ends or stops as `Ends` says (specs/Search).
//! Each stop had its cause from the start (`HasCause`), so a search with enough results, nodes, moves and room for its steps
//! goes to the end. `answer_of` says what that shows: an optimum, a point within the gap, that no point is feasible, that the
//! objective has no end, or a bound that no feasible point beats.
//!
//! What is made of this above is defined here, over searches and models alone: with which relaxations a search begins (specs/Beginnings),
//! what is done to a fresh one (specs/Solves) and to one that goes on (specs/Warm), what each answer says of the model (specs/Truth),
//! and what is enough for an end (specs/Enough). With one worker the turns are the results of the leaf that goes first, one after the
//! other (`one_worker_law`). What a search does is a list of its manager's events (`drive_law`).
//!
//! Below stand the work on a leaf (`node_solve`), the manager of the workers (`tree_manager`), whose turn it is (`turn_order`), the
//! searches (`tree_edit`) and their counting (`search_counting`), and the ray phase, whose definitions the beginnings cite. Above
//! stands the environment, which finds the first basis.
#![tactic(auto)]

mod answering;
mod bounds;
mod crew;
mod done;
mod laws;
mod limits;
mod searching;
mod sound;
mod stepping;
mod turning;

pub use answering::{answer_of, finished, stopped};
pub use laws::{drive_law, enough_met_law, one_worker_law, open_law, stop_bound_law};
pub use limits::Limits;
pub use searching::{Ended, Searched, Ways, search_on};
