//! Leaves judged: their numbers, whether they close, and which is worked first.
//!
//! A leaf has a region, multipliers and Farkas multipliers of rows and of the cuts of a pool, of which those that do not
//! derive count as 0. With `lag` and `farkas` as in `leaf_dual`, and t the least value
//! (least form) of the known points, its number is
//!
//! ```text
//! Empty        where some column's bounds cross in the region, or farkas(region, its Farkas multipliers) > 0
//! lag(region, its multipliers), or the first step of it that has no room, else
//! ```
//!
//! and it closes where it is `Empty`, or `lag >= t`, or, for a whole objective and a whole t, the ceiling of `lag` is. A step
//! of arithmetic without room counts as not closing.
//!
//! Public contract: `judge_tree` answers the state of each leaf of a tree by which it is marked closed exactly where it
//! closes, the number of each, and the queue of the open ones in the order in which they are worked: the least number first,
//! a leaf without one before all, of equals the least id (specs/Closing, Judged, Choosing, Queued, Numbers). The tree may be
//! any that is handed in, so that a caller can judge the tree after a change before it makes the change. A number depends on
//! the model, its cuts, the region and the multipliers alone, so it is kept under the leaf's id, with the totals of both lists
//! (`LeafEntry`, specs/Totals), and for another target `judge_again` compares the numbers that are kept, and computes none. After an edit
//! of the model the entries from before may be handed in (`Former`): a leaf that the edit spares keeps its own, after another cost
//! one is gone on with from the last total before that column, and after other sides of a row its totals are moved, where their terms are short. A counter is ticked at each term that is added to a total, and how far it
//! rises is bounded (`former_steps`). A region counts by its bounds alone (proofs/SameNumber), so a leaf is
//! judged by the tightest changes of its path, however long that is. What is taken grows as the tree does.
//!
//! Below stand the trees (`branch_tree`), the numbers of multipliers (`leaf_dual`) with their totals (`leaf_totals`), the pools of cuts (`cover_cuts`) and the
//! models (`lp_model`). Above stands
//! the search, which keeps numbers and queue beside its tree.
#![tactic(auto)]

mod choosing;
mod closing;
mod due;
mod entry;
mod former;
mod judging;
mod numbering;
mod numbers;
mod optional;
mod queue;

pub use choosing::{Candidate, as_candidate, finite_number};
pub use closing::{LeafNumber, number_closes, number_of, state_by};
pub use entry::{LeafEntry, entry_of};
pub use former::Former;
pub use judging::{Judged, LeafIndex, Marks, judge_again, judge_all, judge_all_unseen, judge_tree};
pub use numbers::LeafNumbers;
pub use optional::OptionalTotals;
pub use queue::LeafQueue;
