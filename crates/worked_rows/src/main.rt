//! Worked rows from numbers up to the calls of the library: plain files that say what something is asked and what it is to answer.
//! Rows of scripts are those of `script_rows`.
//!
//! Standard input names the files, one a line as `FOLDER/FILE`; `Folders` says which stage runs the rows of a folder. What a
//! row says is told at the head of its stage's crate, and in `docs/ROWS.md`.
//!
//! The proof of this crate says that it is safe and ends whatever the files are, and nothing of what they want: that comes
//! from outside, and never from the answers of what is asked.
#![tactic(auto)]

use anyhow::{Result, bail};
use cut_rows::CutStage;
use env_rows::EnvironmentStage;
use front_rows::FrontStage;
use manager_rows::ManagerStage;
use number_rows::Questions;
use relaxation_rows::RelaxationStage;
use row_texts::{Stages, run_file, run_rows};
use std::process::ExitCode;
use tree_rows::TreeStage;
use warm_rows::WarmStage;

/// The folders of the data folder, each with the stage of its rows.
struct Folders;

impl Stages for Folders {
    fn run_in(rt: &HostRuntime, folder: &str, file: &str) -> Result<u64> {
        match folder {
            "numbers" => run_file::<Questions>(rt, file),
            "cuts" => run_file::<CutStage>(rt, file),
            "relaxations" => run_file::<RelaxationStage>(rt, file),
            "trees" => run_file::<TreeStage>(rt, file),
            "managers" => run_file::<ManagerStage>(rt, file),
            "fronts" => run_file::<FrontStage>(rt, file),
            "warm" => run_file::<WarmStage>(rt, file),
            "environments" => run_file::<EnvironmentStage>(rt, file),
            _ => bail!("no stage has this folder"),
        }
    }
}

fn main(rt: HostRuntime) -> ExitCode {
    run_rows::<Folders>(&rt)
}
