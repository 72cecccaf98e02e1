//! A model with its search, and the answer that is held: what stands between two calls of the solver.
//!
//! An answer is held only of a search that shows it, or with a certificate that the checker accepts for its model (`IsHeld` in specs/Env):
//!
//! ```text
//! Nothing         of any search, or where no model is loaded
//! Finished        the search has no open leaf
//! Unbounded(d)    the search keeps a point, and d is judged a ray of its model
//! Front(c)        the checker accepts c for the model: its outcomes are the front of the model
//! Infeasible(c)   the checker accepts c for the model, and it claims that no point is feasible
//! ```
//!
//! `load` replaces the model, `edit` makes an edit of it, which the search follows, `trim` cuts the tree down, and `restore` takes a
//! search in the place of the one that stands; of what they make no answer is held. `search` and `held` lend what is kept, as it is saved,
//! bounded and certified. Whoever works the search takes it (`take`) and gives it back with what may be held of it (`give`, `held_by`;
//! `WorksEnv` in specs/Worked says what becomes of the environment).
//!
//! Public contract in one sentence: each call does what its name says to a `PlainEnv`, or leaves it as it was and says why (`EditsEnv`,
//! `TrimsEnv`). The calls are those of the SYMPHONY manual's `sym_environment` in purpose. Below stands the search as a sound value
//! (`tree_edit`), and which certificates are accepted (`cert_check`, `front_check`); above, the calls that work it (`sym_env`), those that look
//! for a whole front, and the commands that need none of these: files, edits, bounds, certificates.
#![tactic(auto)]

mod env;
mod held;

pub use env::{Env, EnvFault};
pub use held::{Held, held_by};
