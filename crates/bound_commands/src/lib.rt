//! The commands that bound the best value which the model would have with other sides or costs, by what is kept, without solving:
//! `lbrhs ROW V ..`, `lbobj COL V ..`, `ubrhs ROW V ..` and `ubobj COL V ..`.
//!
//! With M' the model with the numbers beside the names for the sides of the named rows, or as the costs of the named columns
//! (`asked_model`), in least form:
//!
//! ```text
//! lbrhs, lbobj     the least number of a leaf of the kept tree at M'           <=  optimum of M'
//! ubrhs, ubobj     the least value of the kept points that are feasible in M'  >=  optimum of M'
//! ```
//!
//! The reply shows the number in the model's own sense; or the first fault of the words, then of the names. Right after a search that
//! closed every leaf both are the optimum's value, where the numbers are those that stand (`best_value_law`). (T. K. Ralphs,
//! M. Güzelsoy, The SYMPHONY Callable Library for Mixed Integer Programming, 2005; the manual's `sym_get_lb_for_new_rhs`,
//! `sym_get_lb_for_new_obj`, `sym_get_ub_for_new_rhs` and `sym_get_ub_for_new_obj`.)
//!
//! What each may be answered, and what a reply of each kind says for sure, is the family `boundings` (specs/Family). It is lawful
//! (`bounds_law`), and nothing changes (`unchanged_law`).
//!
//! Public contract: `bound` writes a reply that `BoundStep` has (`RepliesToPairs` in specs/Bounding). Below stand the environment
//! (`kept_env`), the bounds of a search (`dual_bounds`) and what the words say (`edit_words`); above, the shell.
#![tactic(auto)]

mod bounding;
mod laws;
mod telling;

pub use bounding::bound;
pub use laws::{best_value_law, bounds_law, unchanged_law};
