//! What a search leaves is in order, so that it can be written to a warm file.
//!
//! ```text
//! a search's lists stand in order          IsInOrder         (`list_order`)
//! what the work on a leaf answers does     worked_order_law  (`result_order`)
//! results are placed, one after the other  Finds             (`tree_search`)
//! ```
//!
//! Public contract in one sentence: `search_order_law` says of what `solve` and `warm_solve` leave that it is in order, where the search
//! was that they had (`SearchOrderLaw` in specs/Laws). Below stand `tree_search`, whose relations it cites, and `result_order`; above, the
//! calls that work the search of an environment.
#![tactic(auto)]

mod laws;

pub use laws::search_order_law;
