//! Worked rows of sweeps of a front: a solver whose answers stand in the row, so that each sweep is told part by part, and what `run_wcn`
//! answers of it.
//!
//! ```text
//! model                             and a text: the model, said by lines (`model_texts`). Its least form without constants is swept
//! solve 3                           and the text of a certificate: one more solve, which answers what it claims, after 3 results
//! front nodes 100 constants 3 -7    and a text: what a sweep by all these solves answers, with at most so many results, the constants added
//! front nodes 100 constants 3 -7 stop 2 tree
//!                                   the same over a solver that stops at its second solve, for this cause: `nodes`, `tree`, `pivots` or
//!                                   `wide X`, at the term of X; behind `basis` stands the basis of the last two
//! front nodes 100 constants 3 -7 solve 2 4 nodes bound -9 best -8
//!                                   the same where the second solve stops, after 4 results, with a bound and a best value, if they stand
//!                                   there, that its certificate shows
//! ```
//!
//! The solver is a `Solver` (`front_solver`) that keeps the law by testing: it answers what a certificate claims where the checker accepts that
//! certificate for the model as it then stands, and else tells want of memory. So a sweep that goes by other inner models than the row has in
//! mind is told at once.
//!
//! `docs/ROWS.md` tells the form of rows, and what is answered. The proof says that the solvers keep the law of their trait, and that it is
//! safe and ends whatever the files are. What a sweep is to answer comes from outside.
#![tactic(auto)]

mod mc_texts;
mod model_lines;
mod scripted;
mod stage;
mod steps;
mod stopping;
mod sweeps;

pub use stage::FrontStage;
