//! The commands that change the model or the tree that is kept: `edit ..` and `trim [depth D]`.
//!
//! ```text
//! edit ..          the first fault of its words, then of the edit; or it is made, and the search follows     (specs/Editing)
//! trim [depth D]   each split at the depth is one leaf                                                       (specs/Trimming)
//! ```
//!
//! What each may be answered, and what a reply of each kind says for sure, is the family `changes` (specs/Family). It is lawful
//! (`changes_law`): each reply has its cause, no count of faults falls, and all but `ok` leaves the environment as it was.
//!
//! Public contract in one sentence: `edit` and `trim` write the reply of one step of that family and leave the environment that it says,
//! whose model is still one that scripts may have. Below stand the environment (`kept_env`) and what the words behind `edit` say
//! (`edit_words`); above, the shell.
#![tactic(auto)]

mod editing;
mod laws;
mod trimming;

pub use editing::edit;
pub use laws::changes_law;
pub use trimming::trim;
