//! What solves the models with one objective on the way to a front, and its model solved with other costs, rows and columns.
//!
//! A `Solver` has a model with one objective, which it edits and solves. Its law is its contracts: a finished answer is true of its model
//! and has a certificate that the checker accepts. What a stop may be is its own word, `stops`, of a model and a number of results: no edit
//! and no solve adds one, so that whoever asks it hands on what it said at first.
//!
//! A sweep of a front goes from one inner model (`inner_models`) to the next. It sets the costs, adds a column or rows, solves, and takes
//! them out again, all by edits of the solver's model:
//!
//! ```text
//! set_objective         other costs in objective 1
//! solve_model           the model as it is            solve_capped          with a row whose sum is at most a number
//! solve_extended        with a column and two rows    solve_capped_twice    with two such rows
//! ```
//!
//! Public contract of each call `solve_..`: what it answers is so of the model with these rows and this column (`HasSolved`), and the
//! solver's model is again what it was. Each edit fits, so that nothing is refused but for want of memory.
//!
//! Below stand the inner models (`inner_models`), certificates (`cert_text`, `cert_check`) and edits (`model_edits`). Above stands what
//! solves each inner model of a front.
#![tactic(auto)]

mod editing;
mod objectives;
mod solved;
mod solver;

pub use editing::Cap;
pub use objectives::set_objective;
pub use solved::{
    Extension, Solved, solve_capped, solve_capped_twice, solve_extended, solve_model,
};
pub use solver::Solver;
