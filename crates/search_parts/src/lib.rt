//! The parts of a search: lists of variables, kept points, splits.
//!
//! A list of a node names what is there, each once: multipliers rows and cuts, a basis columns, rows and cuts (specs/Lists). A
//! point may be kept where it is feasible and no step of its test or its value lacks room (`IsKeepable` in specs/Points). With
//! its value in least form one more point is joined to those that there are; beyond 100 the greatest value goes, of equals the
//! oldest (specs/Joining). A split of a leaf is allowed on an integer column with a number up to v and one above v
//! (specs/Checks).
//!
//! After an edit of the model a point has the number nearest to 0 for a new column (`nearest_law`), is without that of a column
//! which is taken out, and stays where it may be kept in the edited model (specs/EditedPoints).
//!
//! Public contract: each call is exact: what a list names, which points may be kept and with which values, which of them is the
//! best, and which splits are allowed.
//!
//! Below stand trees (`branch_tree`), pools of cuts (`cover_cuts`) and models (`lp_model`). Above stand what a search is
//! (`sound_searches`) and the search itself (`tree_edit`).
#![tactic(auto)]

mod checks;
mod editing;
mod keeping;
mod laws;
mod lists;
mod points;

pub use checks::{is_split_allowed, keepable_value};
pub use editing::kept_points;
pub use keeping::{KeptPoints, keepable_points};
pub use laws::nearest_law;
pub use lists::{are_multipliers, has_lists, is_basis};
pub use points::{Joined, is_same_value, join_value, least_of, oldest_least, take_out};
