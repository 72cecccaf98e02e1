//! The order in which a search's lists stand, as a warm file states them, and what keeps it.
//!
//! ```text
//! columns before rows before cuts, each by its place           IsBefore           (specs/Order)
//! multipliers rise, and none of them is 0                      AreInOrder
//! a result's lists do                                          IsResultInOrder
//! a search's lists do, its cuts name what is there, by         IsInOrder          (specs/Ordered)
//! literals that rise, and its tree has no more nodes than a
//! file may state
//! ```
//!
//! That a search is in order is no part of its soundness: a result may come from anywhere, and its lists have to name what is there,
//! once, in whatever order. What this program places is in order (`result_order`), so a search that it has is: a fresh one is, and each
//! relation by which one becomes another keeps it.
//!
//! Public contract: the laws of specs/Laws, one for each of these relations (`fresh_order_law`, `place_order_law`, `pool_order_law`,
//! `edit_order_law`, `trim_order_law`). Below stand searches and their relations (`sound_searches`); above, what the work on a leaf
//! gives (`result_order`), whole searches (`search_order`), and their texts (`search_file`).
#![tactic(auto)]

mod laws;

pub use laws::{edit_order_law, fresh_order_law, place_order_law, pool_order_law, trim_order_law};
