//! What `bench SEED ROWS COLS NODES` prints.
//!
//! The model of the seed (`bench_models`) is solved from a fresh root, as `solve nodes NODES` does it, and three lines are printed:
//!
//! ```text
//! bench rows ROWS cols COLS
//! the first line of the reply to that solve
//! cert accepted         a certificate of the answer was made, which is accepted for the model; cert none where the search stopped
//! ```
//!
//! The same words print the same lines on every machine, so that they can be compared and timed.
//!
//! Public contract: `bench_text` makes a text of specs/Benches (`IsBenched`: the answer is true of the model, and the certificate is
//! accepted), and `run_bench` prints it (`Prints` of `command_files`). Below stand the models (`bench_models`), the solver (`sym_env` over
//! `kept_env`), the bytes of replies (`reply_texts`) and certificates (`cert_commands`). Above stands the shell.
#![tactic(auto)]

mod benching;
mod printing;
mod telling;

pub use benching::bench_text;
pub use printing::run_bench;
