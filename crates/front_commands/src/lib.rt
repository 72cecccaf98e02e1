//! What `mcsolve [nodes N] [pivots N]` is answered: the outcomes of a model's two objectives that no other outcome dominates.
//!
//! ```text
//! mcsolve    FindsFront l S old answer new      the front of the model was looked for, within the limits l, beside the search S that is kept
//! ```
//!
//! No front is looked for here. Whoever looks for one hands over what was answered and the environment that it left, and what is known of
//! both (`IsLookedFor`). Of this the reply is written, and it shows what the product promises (specs/Fronts), its outcomes read from the
//! reply's bytes alone (`front_shown` of `front_replies`):
//!
//! ```text
//! frontier complete K    exactly the outcomes that no feasible outcome dominates, each once, by rising first value; their certificate is held
//! frontier part K        each outcome is one of those; the search of the part's model stopped for this cause, or a number of it has no room
//! infeasible nodes N     no point is feasible, and the certificate of that is held
//! error 12 ..            the first objective that is not whole, and its first such column, or the constant
//! ```
//!
//! The search that is kept stays, with its tree and its points. What was held goes, but where an objective is not whole.
//!
//! What the command may be answered, and what a reply of each kind says for sure, is the family `fronts` (specs/Family). It is lawful
//! (`fronts_law`), and where the limits are enough for each part the reply is a whole front, or that no point is feasible, or memory was
//! wanting (`front_complete_law`). The place of a stop is told by the names of a model with the rows and columns of all inner models, which are
//! those of the part's own (`part_names_law`).
//!
//! Public contract in one sentence: `tell_front` writes a reply that `mcsolve` may be answered (`RepliesToFront`), with the environment that
//! stands afterwards. The command is that of the SYMPHONY manual's `sym_mc_solve` in purpose. Below stand the environment (`kept_env`), what
//! is found of a front (`front_search`) and the bytes of replies (`front_replies`, `reply_texts`); above, the shell, which asks
//! `front_search` for the front.
#![tactic(auto)]

mod laws;
mod limits;
mod telling;

pub use laws::{front_complete_law, fronts_law, part_names_law};
pub use limits::front_limits;
pub use telling::tell_front;
