//! The front of the model that an environment has.
//!
//! ```text
//! the environment's model     in its own sense, with constants
//! the model of the sweep      in least form, without constants, a copy with a search of its own (`front_env`)
//! the sweep                   part by part, each outcome that is found is nondominated           (`run_wcn` of `wcn_driver`)
//! what is answered            outcomes in the model's own sense, with constants, by rising first value
//! ```
//!
//! Public contract: `mc_solve` answers as `FindsFront` says (specs/FrontsFound): a whole front is exactly the outcomes that no other
//! dominates; an outcome told on a stop is nondominated; a stop has its cause over a search of the part's inner model by the limits. The
//! environment's search, with its tree and its points, stays as it is. A whole front, or that no point is feasible, is held with its
//! certificate. What nothing hinders comes to its end (`IsFrontEnough` in specs/Completeness). The call is that of the SYMPHONY manual's
//! `sym_mc_solve` in purpose.
//!
//! Below stand the environment (`kept_env`), what solves inner models (`front_env`) and the sweep (`wcn_driver`). Above stands the command
//! that asks for whole fronts.
#![tactic(auto)]

mod answers;
mod looking;
mod searching;
mod sweeping;
mod turning;

pub use answers::FrontAnswer;
pub use searching::mc_solve;
