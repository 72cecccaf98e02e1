//! Which leaves' numbers an edit of the model spares.
//!
//! A leaf's number is made of the model's objective 1, its columns, and of those rows and cuts alone that the leaf's lists of
//! multipliers name. An edit of a row's sides or of its coefficients, and a further row, touch one row; an edit of a cost, of
//! bounds or of a kind, and a further column, touch one column; and each makes cuts count that did not, or the other way round. So a
//! leaf keeps its number where neither list names the row that is touched, nor a cut that counts before or after the edit alone,
//! and where the column that is touched makes no step before and after: what is left of its cost is 0, or the bound that this
//! takes.
//!
//! Public contract: `touched_by` answers what an edit touches (specs/Touched), and `Change::spares` whether a leaf is seen to keep
//! its emptiness and the answers of its lists, to the first step without room (specs/Spared). Where it says no, the leaf may keep
//! them all the same. That what is asked alike is answered alike is `like_questions_law`, with the laws beside it (specs/Laws).
//!
//! Below stand the numbers of multipliers (`leaf_dual`), trees (`branch_tree`), pools of cuts (`cover_cuts`), models
//! (`lp_model`) and checked sums (`checked_sum`). Above stands the judging of leaves.
#![tactic(auto)]

mod posed;
mod spared;
mod touched;

pub use posed::Posed;
pub use spared::Change;
pub use touched::{
    Touched, leaves_list, like_answers_law, like_cost_totals_law, like_edits_law,
    like_farkas_totals_law, like_lag_totals_law, like_pools_law, like_questions_law,
    like_regions_law, touched_by,
};
