//! The commands of files: `load F [intupper N]`, `write F`, `save F` and `restore F`.
//!
//! ```text
//! load F       the model that the text means is present, with a search of one leaf         MPS, free format       (specs/Load)
//! write F      the file has the canonical text of the model                                MPS, free format       (specs/Writing)
//! save F       the file has the text of the search: model, cuts, points and nodes          JSON, version 1        (specs/Saving)
//! restore F    the search that the text states is present, as it was                       JSON, version 1        (specs/Saving)
//! ```
//!
//! What each may be answered, and what a reply of each kind says for sure, is the family `filings` (specs/Family). It is lawful
//! (`filings_law`): each reply has its cause, no count of the store's failures falls, and all but `ok` leaves the environment as it was.
//! `load` and `write` are the SYMPHONY manual's `read_mps` and `write_mps` in purpose, `save` and `restore` its `write_warm_start_desc` and
//! `read_warm_start`. A search without an open leaf that is saved and restored has none (`restored_law`).
//!
//! Public contract in one sentence: each call writes the reply of one step of that family, by the store's files and count of failures before
//! and after, and leaves the environment that it says, whose model is still one that scripts may have. Below stand the environment
//! (`kept_env`), the reading and writing of models' files (`command_files`) and the texts of searches (`search_file`); above, the shell.
#![tactic(auto)]

mod laws;
mod loading;
mod restoring;
mod saving;
mod writing;

pub use laws::{filings_law, restored_law};
pub use loading::load;
pub use restoring::restore;
pub use saving::save;
pub use writing::write;
