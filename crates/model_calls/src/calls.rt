// Rows of a model and of calls, each with its answer.
use anyhow::{Result, bail, ensure};
use lp_model::Model;
use model_texts::model_of;
use row_texts::{Stage, bytes_of};
use std::alloc::Global;

/// What takes a model and answers calls, and stands anew for each row.
pub trait Callee: Drop + Sized {
    /// A callee that has no model yet.
    fn new(alloc: Global) -> Result<Self>;

    /// Whether a heading of this word hands in the model below it.
    fn takes_model(word: &str) -> bool;

    /// Takes a model.
    fn begin(&mut self, model: Model) -> Result<()>;

    /// Makes a call, and writes what it is answered: nothing where it is done and no more is to say. An error says that the
    /// call is none, and ends the program.
    fn call(&mut self, word: &str, line: &str, got: &mut String) -> Result<()>;
}

/// A callee's stage: each heading but a model's is a call, with the wanted answer behind `-> `, and `ok` where none is written.
#[derive(Drop)]
pub struct Calls<C: Callee> {
    alloc: Global,
    callee: C,
    /// Whether any call stood.
    is_judged: bool,
    report: String,
}

/// The model that the lines of a text say.
fn model_in(alloc: Global, text: &[String]) -> Result<Model> {
    let bytes = bytes_of(alloc, text)?;
    let Ok(text) = str::from_utf8(&bytes) else {
        bail!("no text");
    };
    model_of(alloc, text)
}

impl<C: Callee> Calls<C> {
    /// Takes the model that the lines of a text say.
    fn take_model(&mut self, text: &[String]) -> Result<()> {
        let model = model_in(self.alloc, text)?;
        self.callee.begin(model)
    }

    /// Makes a call, and compares its answer with the wanted one.
    fn take_call(&mut self, word: &str, rest: &str) -> Result<()> {
        let (said, wanted) = rest.split_once("-> ").unwrap_or((rest, "ok"));
        let mut got = String::new(self.alloc);
        self.callee.call(word, said, &mut got)?;
        let got = if got.is_empty() { "ok" } else { got.trim() };
        self.judge(word, rest, got, wanted)
    }

    /// Notes an answer that isn't the wanted one.
    fn judge(&mut self, word: &str, rest: &str, got: &str, wanted: &str) -> Result<()> {
        self.is_judged = true;
        if got != wanted {
            writeln!(self.report, "  {word} {rest}\n    got {got}")?;
        }
        Ok(())
    }
}

impl<C: Callee> Stage for Calls<C> {
    fn new(alloc: Global) -> Result<Self> {
        Ok(Calls {
            alloc,
            callee: C::new(alloc)?,
            is_judged: false,
            report: String::new(alloc),
        })
    }

    fn has_text(word: &str) -> bool {
        C::takes_model(word)
    }

    fn take(&mut self, word: &str, rest: &str, text: &[String]) -> Result<()> {
        if C::takes_model(word) {
            ensure!(rest.is_empty(), "no name stands here: {rest}");
            return self.take_model(text);
        }
        self.take_call(word, rest)
    }

    fn end(&self) -> Result<&str> {
        ensure!(self.is_judged, "no call");
        Ok(self.report.as_str())
    }
}
