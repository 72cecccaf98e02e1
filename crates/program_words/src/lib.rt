//! What the words of the command line ask the program to do.
//!
//! The words are the program's name and one of the forms
//!
//! ```text
//! run                    the commands of a script are to be answered
//! check MODEL CERT       a certificate is to be checked, MODEL and CERT being names of files
//! bench SEED ROWS COLS NODES   the model of a seed with 1 to 100 rows and 1 to 40 columns is to be solved, placing NODES results at most
//! ```
//!
//! as `clap` reads them: a command without help and version, which needs one of its three subcommands. SEED to NODES are whole numbers of
//! 64 bits.
//!
//! Contract in one sentence: `form_of` answers what the words ask for (`asked_form`, a function of what `clap` finds in
//! them), and refuses them exactly where `clap` finds a fault (`TakesWords`). The laws say without `clap` which words ask
//! for which form for sure, and that the program's name alone has none.
//!
//! `words_of` makes the words of what the system hands over.
//!
//! Below stands `clap`; above stands `sym_shell`, which does what is asked.
#![tactic(auto)]

mod arguments;
mod laws;
mod words;

pub use arguments::words_of;
pub use laws::{bench_law, check_law, no_form_law, run_law};
pub use words::{Form, WordsFault, form_of};
