//! Bounds of the optimum for sides and costs that have not come yet, from a tree that is kept, without solving.
//!
//! The leaves of a tree cover the feasible points of each model with the columns that it is split on. So whatever sides and
//! costs a model M' has, with `number` as in `leaf_judging`,
//!
//! ```text
//! optimum of M' >= the least number(leaf, M') of the leaves that are not set aside       rounded up where the objective is whole
//! optimum of M' <= the least value of the kept points that are feasible in M'
//! ```
//!
//! in least form, and M' has no feasible point where each leaf is set aside. The multipliers are of rows and of the search's cuts;
//! each cut is derived again at M', as by an edit, and one that does not derive there counts as 0. A leaf that has no number at
//! M', since a side or a bound is missing or a step of arithmetic has no room, leaves nothing to say: the first such leaf is told.
//! (T. K. Ralphs, M. Güzelsoy, The SYMPHONY Callable Library for Mixed Integer Programming, 2005; the manual's
//! `sym_get_lb_for_new_rhs`, `sym_get_lb_for_new_obj`, `sym_get_ub_for_new_rhs` and `sym_get_ub_for_new_obj`.)
//!
//! Public contract: two calls, each for sides or for costs, answer exactly these bounds (`IsTreeBoundAt`, `IsPointBound` in
//! specs/TreeBounds) at the model with the new numbers (specs/NewNumbers), and leave the search as it is. No feasible point is below a lower bound, some feasible
//! point has an upper one, and after a finished search both are its optimum at the numbers that there are (specs/Laws).
//!
//! A lower bound costs what it costs to derive the cuts and to judge the tree once, and takes memory for the cuts and for one
//! number a leaf. At other sides a leaf has the number that the search keeps of it, where neither of its lists names a row whose sides
//! differ, nor a cut that counts at one of the models alone; at one other cost, where the column makes no step in it, neither before nor
//! after; the others are judged from nothing. A cut stands as it is where its row has the same sides. Below stand the searches (`tree_edit`), the numbers of leaves (`leaf_judging`) and the cuts of a model
//! (`kept_cuts`, `cover_cuts`); above stands the environment.
#![tactic(auto)]

mod answers;
mod bounds;
mod cuts;
mod laws;
mod new_numbers;
mod numbers;
mod points;
mod spared;
mod walk;

pub use answers::{LowerBound, UpperBound};
pub use bounds::{lower_bound_with, upper_bound_with};
pub use laws::{
    exact_law, new_numbers_law, one_bound_law, point_bound_law, present_numbers_law, tree_bound_law,
};
pub use new_numbers::{OtherNumbers, has_equal_sides};
