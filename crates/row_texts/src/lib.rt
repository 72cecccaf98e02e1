//! Worked rows: plain files that say what something is asked and what it is to answer, whatever it is about.
//!
//! A `Stage` does what a row's headings say. Where the subject answers commands, one line each, it is a `Subject` alone, and
//! `Dialogue` of it is the stage. `Stages` says which one runs the files of a folder, and a program hands it to `run_rows`:
//!
//!     fn run_in(rt: &HostRuntime, folder: &str, file: &str) -> Result<u64> {
//!         match folder {
//!             "models" => run_file::<Dialogue<Models>>(rt, file),
//!             _ => bail!("no stage has this folder"),
//!         }
//!     }
//!
//! `docs/ROWS.md` tells the form of the files. `lines` reads one: comments go, and what stands between `each` and `done` is
//! repeated. A text in it is a list of lines `| ..`, and `/ ..` for another form of the line above; `texts` turns it into
//! bytes, and compares bytes with it.
//!
//! It serves test programs alone, and nothing here trusts what a file says: a row that it can't read is an error, which
//! ends the program with status 2, and never a row that passes. Its proof says that it is safe and ends.
#![tactic(auto)]

mod dialogue;
mod driver;
mod lines;
mod numbers;
mod texts;

pub use dialogue::{Dialogue, Subject};
pub use driver::{Stage, Stages, run_file, run_rows};
pub use lines::{Line, expanded};
pub use numbers::number_of;
pub use texts::{bytes_of, compare, lines_of, met};
