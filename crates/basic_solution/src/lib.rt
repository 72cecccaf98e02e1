//! The basic solutions of the relaxation of a model in a region, by its variables.
//!
//! A variable is a column or an activity. Each has sides, a cost and a tilt (`row_tableau`), which is a cost of its own in a
//! part of its own: costs with such parts behind them are perturbed (A. Charnes, 1952). Parts are compared one after the
//! other, so no two ratios tie and no reduced cost of a variable with a side is 0.
//!
//! A basis with sides (`SidedBasis`) is the table of a basis whose nonbasic variables stand at a side, or at 0 where they
//! have none. With `at(k)` the number at which the variable of place k stands, it gives
//!
//! ```text
//! x(i) = sum over places k of t(i, k) * at(k)                the value of the basic variable of row i
//! d(k) = c(k) + sum over rows i of c(basic i) * t(i, k)      the reduced cost of place k
//! ```
//!
//! (V. Chvatal, Linear Programming, 1983, chapters 2 and 8). It is lawful where each reduced cost has the sign of its side:
//! above 0 at the low one, below 0 at the high one.
//!
//! Public contract: each number is the one that `table_entries` defines and each of its terms, in the order of the variables,
//! has room; or the first term that has none is named. `slack_state` answers the lawful slack basis, or that there is none.
//! `exchange`, `bring_in` and `stand_at` lead to another basis of the same relaxation; `stand_at` tells whether it is lawful
//! there. Below stand `row_tableau` and `table_entries`; above, the dual simplex method.
#![tactic(auto)]

mod asked;
mod breach;
mod costs;
mod cut_totals;
mod exchange;
mod followed;
mod kept_costs;
mod kept_values;
mod listed;
mod listed_values;
mod lists;
mod numbers;
mod parts;
mod point;
mod priced;
mod priced_rows;
mod row_totals;
mod sided;
mod sides;
mod slack;
mod standing;
mod total_sides;
mod written;

pub use followed::is_short;
pub use kept_values::are_all_small;
pub use priced_rows::CostSource;
pub use sided::SidedBasis;
pub use sides::signed;
