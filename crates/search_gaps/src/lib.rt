//! Searches that are stopped within a gap: definitions and laws.
//!
//! A gap `G` is an amount, at least 0. Where the best kept point has the value `t` in least form, a leaf is within the gap where it closes
//! against `t - G`: its region is empty, its Farkas multipliers refute it, or its number reaches `t - G`, rounded up where objective and target
//! are whole. Where `t - G` has no room no leaf is within. Leaves keep their marks, which say whether they close against `t`.
//!
//! Public contract: the laws. Where all leaves of a sound search close against a number, no feasible point has a value below it
//! (`within_law`). As long as some leaf is open, the open leaf that goes first decides for all leaves, open or closed (`first_open_law`), so
//! that a search asks after its gap at each turn without looking at more than one leaf.
//!
//! There is no code but the laws, each a function whose contract is the statement. Below stand searches (`sound_searches`). Above stand
//! certificates of such searches (`tree_cert`).
#![tactic(auto)]

mod laws;

pub use laws::{first_open_law, within_law};
