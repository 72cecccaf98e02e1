// The environment of a row, and what its calls are answered.
ghost use Rattle.std.specs.Prelude.{◌≤◌, IfOk};
ghost use Rattle.tree_search.specs.Within.{IsGapLimit};

use crate::answers::push_answer;
use anyhow::{Result, bail};
use cert_commands::held_certificate;
use kept_env::{Env, EnvFault};
use lp_model::{Edit, Model};
use model_calls::{Callee, take_number};
use model_texts::{Words, edit_of, push_edit_fault};
use search_answers::Answer;
use search_file::{search_in, text_of};
use std::alloc::Global;
use sym_env::{solve, warm_solve};
use tree_search::Limits;
use warm_file::WarmFault;

/// The environment, which answers the calls.
#[derive(Drop)]
pub struct Environment {
    alloc: Global,
    env: Env,
    /// The text that was saved last, or is given.
    saved: Vec<u8>,
}

/// The limits that the words name; one that isn't named is the greatest. One worker makes the search.
fn limits_in(words: &mut Words) -> Result<Limits>
    ensures workers { IfOk result (λ limits. 1 ≤ limits.workers) }
    ensures gap { IfOk result (λ limits. IsGapLimit limits.gap) }
{
    let mut nodes = u64::MAX;
    let mut pivots = u64::MAX;
    let mut tree = 1_000_000;
    for _ in 0..words.most() {
        if words.is_done() {
            break;
        }
        let key = words.next("limit")?;
        let number = take_number(words)?;
        match key.as_str() {
            "nodes" => nodes = number,
            "pivots" => pivots = number,
            "tree" => tree = number,
            _ => bail!("no limit: `{key}`"),
        }
    }
    words.end()?;
    Ok(Limits {
        nodes,
        pivots,
        tree,
        workers: 1,
        seed: 0,
        gap: None,
    })
}

/// Writes bytes, which are to be UTF-8.
fn push_bytes(got: &mut String, bytes: &[u8]) -> Result<()> {
    let Ok(text) = str::from_utf8(bytes) else {
        bail!("no text");
    };
    got.push_str(text)?;
    Ok(())
}

/// Writes the place and the code of a fault of a text.
fn push_warm_fault(got: &mut String, fault: &WarmFault) -> Result<()> {
    match fault {
        WarmFault::Bad { place, code } => {
            got.push_str("place ")?;
            push_bytes(got, place.as_slice())?;
            write!(got, " code {code}")?;
        }
        WarmFault::Memory => got.push_str("no memory")?,
    }
    Ok(())
}

fn push_fault(got: &mut String, fault: &EnvFault) -> Result<()> {
    match fault {
        EnvFault::NoModel => got.push_str("no model")?,
        EnvFault::NoAnswer => got.push_str("no answer")?,
        EnvFault::Edit(fault) => push_edit_fault(got, fault)?,
        EnvFault::Memory => got.push_str("no memory")?,
    }
    Ok(())
}

/// The limits that a line says.
fn limits_of(alloc: Global, line: &str) -> Result<Limits>
    ensures workers { IfOk result (λ limits. 1 ≤ limits.workers) }
    ensures gap { IfOk result (λ limits. IsGapLimit limits.gap) }
{
    let mut words = Words::new(alloc, line)?;
    limits_in(&mut words)
}

/// The edit that a line says.
fn edit_in(alloc: Global, line: &str) -> Result<Edit> {
    let mut words = Words::new(alloc, line)?;
    edit_of(alloc, &mut words)
}

/// Writes the fault of an edit, if it has one.
fn push_edited(got: &mut String, edited: &Result<(), EnvFault>) -> Result<()> {
    match edited {
        Ok(()) => Ok(()),
        Err(fault) => push_fault(got, fault),
    }
}

/// The depth that a line says.
fn depth_of(alloc: Global, line: &str) -> Result<u64> {
    let mut words = Words::new(alloc, line)?;
    let depth = take_number(&mut words)?;
    words.end()?;
    Ok(depth)
}

/// How many bytes a certificate's text has.
fn push_length(got: &mut String, cert: &Result<Vec<u8>, EnvFault>) -> Result<()> {
    match cert {
        Ok(text) => write!(got, "{} bytes", text.len())?,
        Err(fault) => push_fault(got, fault)?,
    }
    Ok(())
}

impl Environment {
    /// Writes what was found of the model that is loaded.
    fn push_found(&self, got: &mut String, found: &Result<Answer, EnvFault>) -> Result<()> {
        match found {
            Ok(answer) => {
                let Some(model) = self.env.model() else {
                    bail!("an answer, and no model");
                };
                push_answer(got, model, answer)
            }
            Err(fault) => push_fault(got, fault),
        }
    }

    fn solve(&mut self, line: &str, got: &mut String) -> Result<()> {
        let limits = limits_of(self.alloc, line)?;
        let found = solve(self.alloc, &mut self.env, &limits);
        let pushed = self.push_found(got, &found);
        drop(found);
        pushed
    }

    fn warm(&mut self, line: &str, got: &mut String) -> Result<()> {
        let limits = limits_of(self.alloc, line)?;
        let found = warm_solve(self.alloc, &mut self.env, &limits);
        let pushed = self.push_found(got, &found);
        drop(found);
        pushed
    }

    fn edit(&mut self, line: &str, got: &mut String) -> Result<()> {
        let edit = edit_in(self.alloc, line)?;
        let edited = self.env.edit(edit);
        let pushed = push_edited(got, &edited);
        drop(edited);
        pushed
    }

    /// Cuts the tree down at the depth that a line says.
    fn trim(&mut self, line: &str, got: &mut String) -> Result<()> {
        let depth = depth_of(self.alloc, line)?;
        let trimmed = self.env.trim(depth);
        let pushed = push_edited(got, &trimmed);
        drop(trimmed);
        pushed
    }

    /// Saves the search, and notes its text.
    fn save(&mut self, got: &mut String) -> Result<()> {
        let Some(search) = self.env.search() else {
            got.push_str("no model")?;
            return Ok(());
        };
        self.saved = text_of(self.alloc, search)?;
        Ok(())
    }

    /// Takes the text that is given.
    fn file(&mut self, line: &str) -> Result<()> {
        self.saved.clear();
        self.saved.extend_from_slice(line.trim().as_bytes())?;
        Ok(())
    }

    /// Restores the search of the text that was saved last, or is given.
    fn restore(&mut self, got: &mut String) -> Result<()> {
        match search_in(self.alloc, &self.saved) {
            Ok(search) => {
                self.env.restore(search);
                Ok(())
            }
            Err(fault) => push_warm_fault(got, &fault),
        }
    }

    /// How many bytes the certificate's text has.
    fn cert(&self, got: &mut String) -> Result<()> {
        let cert = held_certificate(self.alloc, &self.env);
        let pushed = push_length(got, &cert);
        drop(cert);
        pushed
    }

    /// How many columns the model has.
    fn columns(&self, got: &mut String) -> Result<()> {
        match self.env.model() {
            Some(model) => write!(got, "{}", model.cols().len())?,
            None => got.push_str("no model")?,
        }
        Ok(())
    }
}

impl Callee for Environment {
    fn new(alloc: Global) -> Result<Self> {
        Ok(Environment {
            alloc,
            env: Env::new(alloc),
            saved: Vec::new(alloc),
        })
    }

    fn takes_model(word: &str) -> bool {
        word == "load"
    }

    fn begin(&mut self, model: Model) -> Result<()> {
        if self.env.load(model).is_err() {
            bail!("no memory");
        }
        Ok(())
    }

    fn call(&mut self, word: &str, line: &str, got: &mut String) -> Result<()> {
        match word {
            "solve" => self.solve(line, got),
            "warm" => self.warm(line, got),
            "edit" => self.edit(line, got),
            "trim" => self.trim(line, got),
            "save" => self.save(got),
            "file" => self.file(line),
            "saved" => push_bytes(got, &self.saved),
            "restore" => self.restore(got),
            "cert" => self.cert(got),
            "columns" => self.columns(got),
            _ => bail!("no call: `{word}`"),
        }
    }
}
