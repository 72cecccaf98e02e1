// What a row of cuts has said so far, and how its answers differ.
use crate::answers::{
    push_added, push_cut_of, push_found, push_kept, push_leaf_number, push_liveness, push_validity,
};
use anyhow::{Result, bail, ensure};
use cover_cuts::CutPool;
use frac128::Frac;
use lp_model::{Derivation, Model, Sense};
use model_calls::derivation_of;
use model_texts::{apply_line, empty_model, model_of};
use row_texts::{Stage, bytes_of};
use std::alloc::Global;
use std::mem::replace;

/// A model, the last derivation that was said, a pool, and how what they were answered differs from what the row wants.
#[derive(Drop)]
pub struct CutStage {
    alloc: Global,
    model: Model,
    cover: Option<Derivation>,
    pool: CutPool,
    /// Whether the row has said what it wants.
    is_judged: bool,
    report: String,
}

fn no_model(alloc: Global) -> Result<Model> {
    empty_model(alloc, Sense::Min, Frac::whole(0), Frac::whole(0))
}

/// The model that the lines of a text say.
fn model_in(alloc: Global, text: &[String]) -> Result<Model> {
    let bytes = bytes_of(alloc, text)?;
    model_of(alloc, str::from_utf8(&bytes)?)
}

impl CutStage {
    fn cover(&self) -> Result<&Derivation> {
        match &self.cover {
            Some(cover) => Ok(cover),
            None => bail!("no `cover` above"),
        }
    }

    fn take_model(&mut self, text: &[String]) -> Result<()> {
        let model = model_in(self.alloc, text)?;
        drop(replace(&mut self.model, model));
        Ok(())
    }

    fn take_cover(&mut self, text: &str) -> Result<()> {
        let cover = derivation_of(self.alloc, &self.model, text)?;
        drop(replace(&mut self.cover, Some(cover)));
        Ok(())
    }

    /// Adds the last derivation to the pool.
    fn add(&mut self, text: &mut String) -> Result<()> {
        let from = self.cover()?.clone()?;
        push_added(text, &mut self.pool, &self.model, from)
    }

    /// Writes the answer to a question about the last derivation.
    fn answer_cover(&self, text: &mut String, word: &str) -> Result<()> {
        let from = self.cover()?;
        if word == "valid" {
            push_validity(text, &self.model, from)?;
        } else {
            push_cut_of(self.alloc, text, &self.model, from)?;
        }
        Ok(())
    }

    /// Writes the answer to a question about the pool and the model.
    fn answer_other(&self, text: &mut String, word: &str, question: &str) -> Result<()> {
        match word {
            "live" => push_liveness(text, &self.pool, question),
            "kept" => push_kept(text, &self.pool, &self.model, question),
            "separate" => push_found(self.alloc, text, &self.model, question),
            "lag" | "farkas" => push_leaf_number(
                self.alloc,
                text,
                &self.pool,
                &self.model,
                word == "lag",
                question,
            ),
            _ => bail!("no heading `{word}`"),
        }
    }

    /// Writes the answer to a question.
    fn answer(&mut self, text: &mut String, word: &str, question: &str) -> Result<()> {
        match word {
            "add" => self.add(text),
            "valid" | "cut" => self.answer_cover(text, word),
            _ => self.answer_other(text, word, question),
        }
    }

    /// Compares the answer to `QUESTION -> ANSWER` with the one that is wanted.
    fn judge(&mut self, word: &str, rest: &str) -> Result<()> {
        let Some((question, wanted)) = rest.split_once("-> ") else {
            bail!("no `->`, or no heading `{word}`");
        };
        self.is_judged = true;
        let question = question.trim();
        let mut got = String::new(self.alloc);
        self.answer(&mut got, word, question)?;
        if got.as_str() != wanted {
            writeln!(self.report, "  {word} {rest}: got {got}")?;
        }
        Ok(())
    }
}

impl Stage for CutStage {
    fn new(alloc: Global) -> Result<Self> {
        Ok(CutStage {
            alloc,
            model: no_model(alloc)?,
            cover: None,
            pool: CutPool::new(alloc),
            is_judged: false,
            report: String::new(alloc),
        })
    }

    fn has_text(word: &str) -> bool {
        word == "model"
    }

    fn take(&mut self, word: &str, rest: &str, text: &[String]) -> Result<()> {
        match word {
            "model" => self.take_model(text)?,
            "edit" => apply_line(self.alloc, &mut self.model, rest)?,
            "cover" => self.take_cover(rest)?,
            "recheck" => self.pool.recheck(&self.model),
            _ => self.judge(word, rest)?,
        }
        Ok(())
    }

    fn end(&self) -> Result<&str> {
        ensure!(self.is_judged, "no `->`");
        Ok(self.report.as_str())
    }
}
