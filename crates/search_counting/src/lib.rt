//! How many results a search can place: whole points of regions, counted.
//!
//! With low(j) and high(j) the whole bounds of an integer column j in a region, a region has
//!
//! ```text
//! points = product over the integer columns j of (high(j) - low(j) + 1)      1 without any
//! ```
//!
//! A split cuts the points of a leaf in two parts, and a leaf that is not seen to be empty has a point. So an open leaf takes
//! at most 2 points - 1 results: one for each point, and one for each split before it. The root has `cap` of them, whatever
//! else the model has.
//!
//! Public contract: `cap` counts them, and the laws say that a result which closes or splits a leaf leaves less to place
//! (`lowers_law`), that an open leaf has something left (`left_law`), and that a tree with room for all splits never refuses
//! one (`room_law`).
//!
//! Below stands what a search is (`sound_searches`); above stands the driver, whose loop ends by these numbers.
#![tactic(auto)]

mod counting;
mod laws;

pub use counting::cap;
pub use laws::{
    cap_law, left_law, lowers_law, room_law, roomy_law, some_point_law, split_cap_law, split_law,
    too_small_law,
};
