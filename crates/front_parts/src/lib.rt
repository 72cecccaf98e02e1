//! Each inner model of a front, solved by a solver.
//!
//! A sweep of a front has a base, a model `N` in least form, and a solver whose model is `N` with some costs in objective 1. For each inner
//! model (`inner_models`) it sets the costs, adds a column or rows, solves, and takes them out again:
//!
//! ```text
//! least1   min f1                      left    min f2, f1 <= i1         pull   min f1 + f2, f1 <= r1, f2 <= r2
//! least2   min f2                      right   min f1, f2 <= i2         gap    min Z, a*f1 - Z <= a*i1, b*f2 - Z <= b*i2, 0 <= Z <= a*b
//! ```
//!
//! Public contract of each call `solve_..`: what it answers is so of that inner model of the base (`HasSolved`), by whatever solver, and the
//! solver's model is again the base with some costs in objective 1 (`IsRecosted`). The base has room for the rows and the column
//! (`HasInnerRoom`), so that nothing is refused but for want of memory.
//!
//! Below stand solvers (`front_solver`) and the names and numbers of the inner models (`gap_models`). Above stands what drives a solver
//! through a whole front.
#![tactic(auto)]

mod lists;
mod parts;

pub use lists::{SumsFault, push_named, sums};
pub use parts::{solve_gap, solve_least1, solve_least2, solve_left, solve_pull, solve_right};
