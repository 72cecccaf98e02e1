//! The inner models of a front as values: the names of their new column and rows, the numbers of a gap, and the models.
//!
//! What they are, and what they say of the model that they stand on, is defined in `inner_models`. Here they are made of a copy, by
//! edits, for the checker of certificates; and what drives a solver by edits takes their names and rows from here.
//!
//! A gap between the outcomes `p` and `q`, over the least values `i1` and `i2`, has the numbers
//!
//! ```text
//! a = p2 - i2,   b = q1 - i1,   a*b,   a*cost1(j) and b*cost2(j) for each column j,   a*i1,   b*i2
//! ```
//!
//! Public contract: `Gap::between` answers the numbers of the gap, or the first of them that has no room, in this order; `bare_model`,
//! `least2_model` and `gap_model` are exact.
//!
//! Below stand edits (`model_edits`), models without costs (`model_points`) and the definitions (`inner_models`). Above stand the
//! checker of certificates of fronts and what drives a solver through the inner models.
#![tactic(auto)]

mod bare;
mod gaps;
mod models;
mod names;

pub use bare::bare_model;
pub use gaps::{Gap, GapPlace};
pub use models::{GapRows, gap_model, gap_rows, least2_model};
pub use names::{g1_name, g2_name, z_name};
