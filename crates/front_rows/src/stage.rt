// What a row of sweeps has said so far, and how its answers differ.
use crate::steps::Solve;
use crate::sweeps::sweep_text;
use anyhow::{Result, bail, ensure};
use lp_model::Model;
use model_texts::model_of;
use row_texts::{Stage, bytes_of, compare};
use std::alloc::Global;
use std::mem::replace;

/// A model, the solves of each sweep of it, and how what sweeps answered differs from what the row wants.
#[derive(Drop)]
pub struct FrontStage {
    alloc: Global,
    model: Option<Model>,
    solves: Vec<Solve>,
    /// Whether the row has said what it wants.
    is_judged: bool,
    report: String,
}

/// The model that the lines of a text say.
fn model_in(alloc: Global, text: &[String]) -> Result<Model> {
    let bytes = bytes_of(alloc, text)?;
    model_of(alloc, str::from_utf8(&bytes)?)
}

impl FrontStage {
    fn model(&self) -> Result<&Model> {
        match &self.model {
            Some(model) => Ok(model),
            None => bail!("no `model` above"),
        }
    }

    /// Takes a model, of which nothing is solved yet.
    fn take_model(&mut self, line: &str, text: &[String]) -> Result<()> {
        ensure!(line.is_empty(), "no name stands here: {line}");
        let model = model_in(self.alloc, text)?;
        drop(replace(&mut self.model, Some(model)));
        self.solves.clear();
        Ok(())
    }

    /// Puts a solve behind the others.
    fn take_solve(&mut self, line: &str, text: &[String]) -> Result<()> {
        let line = String::from_str(self.alloc, line)?;
        let text = bytes_of(self.alloc, text)?;
        self.solves.push(Solve { line, text })?;
        Ok(())
    }

    /// Sweeps by the solves above, and compares what is answered with what is wanted.
    fn take_front(&mut self, line: &str, wanted: &[String]) -> Result<()> {
        let got = sweep_text(self.alloc, self.model()?, &self.solves, line)?;
        self.is_judged = true;
        compare(self.alloc, &mut self.report, "front", wanted, &got)?;
        Ok(())
    }
}

impl Stage for FrontStage {
    fn new(alloc: Global) -> Result<Self> {
        Ok(FrontStage {
            alloc,
            model: None,
            solves: Vec::new(alloc),
            is_judged: false,
            report: String::new(alloc),
        })
    }

    fn has_text(word: &str) -> bool {
        matches!(word, "model" | "solve" | "front")
    }

    fn take(&mut self, word: &str, rest: &str, text: &[String]) -> Result<()> {
        match word {
            "model" => self.take_model(rest, text),
            "solve" => self.take_solve(rest, text),
            "front" => self.take_front(rest, text),
            _ => bail!("no heading `{word}`"),
        }
    }

    fn end(&self) -> Result<&str> {
        ensure!(self.is_judged, "no `front`");
        Ok(self.report.as_str())
    }
}
