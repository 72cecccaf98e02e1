//! What the work on a leaf answers stands in the order of the variables.
//!
//! ```text
//! columns before rows before cuts, each by its place                  IsBefore         (`list_order`)
//! the lists that a state of a relaxation gives rise, none of their    IsResultInOrder
//! multipliers being 0
//! the relaxation's cuts have places in the pool, which rise           result_in_pool   (`node_solve`)
//! the literals of a cut that is found rise by column                  IsSeparation     (`cut_find`)
//! ```
//!
//! A warm file has only lists that rise, without a multiplier 0. So what the work on a leaf answers can be written.
//!
//! Public contract in one sentence: `worked_order_law` says of each answer of `work` that its lists stand in order, and the literals of
//! the cuts that it found (`IsWorkedInOrder` in specs/Laws); `result_order_law` and `cut_order_law` say it of a state's lists and of
//! separation. Below stand `list_order` and `node_solve`, whose definitions it cites; above, what keeps a search in order.
#![tactic(auto)]

mod laws;

pub use laws::{cut_order_law, result_order_law, worked_order_law};
