//! The program `symphony`: the shell over standard input, standard output and the files of the current folder.
//!
//! All of it stands in `sym_shell`, whose `run_program` hands the words and the real ends to `run`, the call with the product's
//! theorem, and answers its status.
#![tactic(auto)]

use std::process::ExitCode;

fn main(rt: HostRuntime) -> ExitCode {
    sym_shell::run_program(&rt)
}
