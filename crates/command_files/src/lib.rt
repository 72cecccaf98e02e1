//! The files that commands name: how a store's files are read and written, and what `check` says of two of them.
//!
//! A file that is read may be missing, too long, faulty or want memory (`Refusal`), and each refusal has one line of a reply. A file
//! that is written holds the whole text where the reply is `ok`; where the store has failed, no other file was touched.
//!
//! Contract in one sentence: `read_text` and `read_model` answer the file's text and the model that it means, or the cause of the
//! refusal (`ReadsText`, `ReadsFile`); `write_file` and `write_model` leave the text or tell why not (`Writes`); `check_text`
//! answers the verdict on a certificate's file for a model's, or the first fault (`Checks`), and `run_check` prints it (`Prints`).
//!
//! Below stand `sym_io`, whose stores have the files; `command_words`, which says what is a name of a file; `mps_model` and
//! `mps_writer`, which read and write models; `cert_text` and `cert_check`, which read and judge certificates; and `reply_texts`,
//! the bytes of replies. Above stands `sym_shell`.
#![tactic(auto)]

mod checking;
mod filing;
mod inner;
mod printing;
mod reading;
mod refusing;

pub use checking::check_text;
pub use filing::{write_file, write_model};
pub use inner::inner_model;
pub use printing::run_check;
pub use reading::{Refusal, read_model, read_text};
pub use refusing::write_refusal;
