// The model that lines say.
use crate::edits::{edit_of, keyed};
use crate::words::{Words, name_of};
use crate::writing::push_edit_fault;
use anyhow::{Context, Result, bail, ensure};
use frac128::Frac;
use lp_model::{Edit, Model, Sense};
use model_edits::{EditFault, apply};
use std::alloc::{AllocError, Global};
use std::mem::replace;

/// A model without rows and columns, whose objectives are named `cost` and `cost2`.
pub fn empty_model(alloc: Global, sense: Sense, constant: Frac, constant2: Frac) -> Result<Model> {
    let first = name_of(alloc, "cost")?;
    let second = name_of(alloc, "cost2")?;
    ensure!(
        first.as_slice() != second.as_slice(),
        "both objectives have one name"
    );
    Ok(Model::empty(alloc, sense, first, second, [constant, constant2]))
}

/// The sense that the next word says, if it says one.
fn sense_of(words: &mut Words) -> Option<Sense> {
    if words.takes("min") {
        return Some(Sense::Min);
    }
    if words.takes("max") {
        return Some(Sense::Max);
    }
    None
}

/// The empty model of the words of a head line. None: they are those of no head.
fn head_in(alloc: Global, words: &mut Words) -> Result<Option<Model>> {
    let Some(sense) = sense_of(words) else {
        return Ok(None);
    };
    let constant = keyed(words, "constant")?;
    let constant2 = keyed(words, "constant2")?;
    words.end()?;
    let model = empty_model(alloc, sense, constant, constant2)?;
    Ok(Some(model))
}

/// The empty model of a head line `min` or `max`, behind it `constant C` and `constant2 C` where they are not 0. None: the
/// line is no head.
pub fn head_of(alloc: Global, line: &str) -> Result<Option<Model>> {
    let mut words = Words::new(alloc, line)?;
    let head = head_in(alloc, &mut words);
    drop(words);
    head
}

/// Why an edit is refused, in words.
fn fault_text(alloc: Global, fault: &EditFault) -> Result<String, AllocError> {
    let mut text = String::new(alloc);
    push_edit_fault(&mut text, fault)?;
    Ok(text)
}

/// The edit that a line says.
fn edit_in(alloc: Global, line: &str) -> Result<Edit> {
    let mut words = Words::new(alloc, line)?;
    edit_of(alloc, &mut words)
}

/// Makes the edit that a line says. A model that refuses it is told as a fault.
pub fn apply_line(alloc: Global, model: &mut Model, line: &str) -> Result<()> {
    let edit = edit_in(alloc, line)?;
    match apply(model, alloc, edit) {
        Ok(()) => Ok(()),
        Err(fault) => {
            let text = fault_text(alloc, &fault);
            drop(fault);
            let text = text?;
            bail!("the model refuses it: {text}")
        }
    }
}

/// Makes a model what a line of its text says. A blank line says nothing.
fn apply_numbered(alloc: Global, model: &mut Model, line: &str, number: usize) -> Result<()> {
    if line.is_empty() {
        return Ok(());
    }
    apply_line(alloc, model, line).context(format_args!("line {number} of the model"))
}

/// Makes a model what the first line of its text says.
fn apply_first(alloc: Global, model: &mut Model, line: &str) -> Result<()> {
    match head_of(alloc, line).context("line 1 of the model")? {
        Some(head) => {
            drop(replace(model, head));
            Ok(())
        }
        None => apply_numbered(alloc, model, line, 1),
    }
}

/// Makes a model what a text says, line by line.
fn apply_text(alloc: Global, model: &mut Model, text: &str) -> Result<()> {
    for (at, line) in text.lines().enumerate() {
        if at == 0 {
            apply_first(alloc, model, line)?;
        } else {
            apply_numbered(alloc, model, line, at.saturating_add(1))?;
        }
    }
    Ok(())
}

/// The model that a text says, line by line. Blank lines say nothing.
pub fn model_of(alloc: Global, text: &str) -> Result<Model> {
    let mut model = empty_model(alloc, Sense::Min, Frac::whole(0), Frac::whole(0))?;
    if let Err(error) = apply_text(alloc, &mut model, text) {
        drop(model);
        return Err(error);
    }
    Ok(model)
}
