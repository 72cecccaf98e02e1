// What a row has begun, and what its calls are answered.
ghost use Rattle.std.specs.Prelude.{◌≤◌, IfOk};

use crate::managers;
use anyhow::{Result, bail, ensure};
use lp_model::Model;
use model_calls::{Callee, take_number};
use model_texts::Words;
use std::alloc::{AllocError, Global};
use std::mem::replace;
use tree_edit::Search;
use tree_manager::Manager;

/// The most workers that a row may have.
const MOST_WORKERS: u64 = 1_000;

/// The model and the manager of a row, where it has begun them. Calls go to the manager.
#[derive(Drop)]
pub struct Begun {
    alloc: Global,
    model: Option<Model>,
    manager: Option<Manager>,
}

/// The number of workers that a line says.
fn workers_of(alloc: Global, line: &str) -> Result<usize>
    ensures { IfOk result (λ workers. 1 ≤ workers) }
{
    let mut words = Words::new(alloc, line)?;
    let workers = take_number(&mut words)?;
    words.end()?;
    ensure!(1 <= workers && workers <= MOST_WORKERS, "no workers");
    Ok(workers as usize)
}

/// A manager of so many workers over a search of the model from its start.
fn manager_of(alloc: Global, model: &Model, workers: usize) -> Result<Manager, AllocError>
    requires { 1 ≤ workers }
{
    let model = model.copy()?;
    let search = Search::new(alloc, model)?;
    match Manager::new(alloc, search, workers) {
        Ok(manager) => Ok(manager),
        Err(search) => {
            drop(search);
            Err(AllocError)
        }
    }
}

impl Begun {
    /// A manager of a search of the row's model.
    fn begin_manager(&mut self, line: &str) -> Result<()> {
        let workers = workers_of(self.alloc, line)?;
        let Some(model) = &self.model else {
            bail!("no `model` above");
        };
        let manager = manager_of(self.alloc, model, workers)?;
        drop(replace(&mut self.manager, Some(manager)));
        Ok(())
    }

    /// Makes a call that begins nothing, and writes its answer.
    fn call_begun(&mut self, word: &str, line: &str, got: &mut String) -> Result<()> {
        match &mut self.manager {
            Some(manager) => managers::call(self.alloc, manager, word, line, got),
            None => bail!("no `manager` above"),
        }
    }
}

impl Callee for Begun {
    fn new(alloc: Global) -> Result<Self> {
        Ok(Begun {
            alloc,
            model: None,
            manager: None,
        })
    }

    fn takes_model(word: &str) -> bool {
        word == "model"
    }

    fn begin(&mut self, model: Model) -> Result<()> {
        drop(replace(&mut self.model, Some(model)));
        Ok(())
    }

    fn call(&mut self, word: &str, line: &str, got: &mut String) -> Result<()> {
        match word {
            "manager" => self.begin_manager(line)?,
            _ => self.call_begun(word, line, got)?,
        }
        Ok(())
    }
}
