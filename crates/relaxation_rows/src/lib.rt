//! Worked rows of relaxations: what the table of a basis, the dual simplex method, the ray phase and the work on a leaf are to
//! answer of models that the rows say.
//!
//! A row's script says a model by lines (`model_texts`), what its relaxation is taken of, and what is asked; its replies say what is to
//! be answered. `docs/RELAXATION_ROWS.md` tells the commands.
//!
//! An answer is judged by its own meaning before it is printed: the value of a point is computed from the point, which is to
//! be within all sides; the number of an optimum's multipliers is to be that value; and Farkas multipliers are to have a
//! number above 0. A breach prints a line of its own, so the row differs.
//!
//! The proof of this crate says that it is safe and ends whatever the files are; what rows want comes from outside.
#![tactic(auto)]

mod commands;
mod firsts;
mod judging;
mod leaves;
mod rays;
mod regions;
mod solving;
mod starting;
mod steps;
mod tables;

use crate::commands::Relaxations;
use row_texts::Dialogue;

/// What runs these rows.
pub type RelaxationStage = Dialogue<Relaxations>;
