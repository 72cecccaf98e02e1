//! Worked rows of scripts: plain files that say what the program is given and what it is to write, over which files and at
//! which faults.
//!
//! `row_texts` reads the files that standard input names and compares texts; `stage` runs a row by `sym_shell::run`, over a
//! source, a sink and a store in memory. `docs/ROWS.md` tells what a row may say.
//!
//! The proof of this crate says that it is safe and ends whatever the files are, and nothing of what they want: that comes
//! from outside, and never from the shell's own answers.
//!
//! Where no row differs it is then the program itself, by the words that it was called with. The words of its stored run are refused:
//! it prints the usage line and ends with status 2, where the stored run of `sym_main` ends with 0. So a `run_program` that
//! always ended with one status fails the gate. No clause can say that: none speaks of what the system gets.
#![tactic(auto)]

mod stage;

use crate::stage::ScriptStage;
use anyhow::Result;
use row_texts::{Stages, run_file, run_rows};
use std::process::ExitCode;

/// All files have rows of scripts.
struct Scripts;

impl Stages for Scripts {
    fn run_in(rt: &HostRuntime, _folder: &str, file: &str) -> Result<u64> {
        run_file::<ScriptStage>(rt, file)
    }
}

fn main(rt: HostRuntime) -> ExitCode {
    let rows = run_rows::<Scripts>(&rt);
    if rows != ExitCode::SUCCESS {
        return rows;
    }
    sym_shell::run_program(&rt)
}
