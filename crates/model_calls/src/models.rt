// What a model answers.
ghost use Rattle.std.specs.Prelude.{◌≡◌, ◌⊎◌, IfOk};

use anyhow::{Result, bail, ensure};
use frac128::Frac;
use lp_model::{Model, NotWhole, Sense, Var, WideStep};
use model_edits::{EditFault, apply};
use model_texts::{
    Words, column_of, edit_of, name_text, point_of, push_edit_fault, push_wide_step, variable_of,
};
use std::alloc::{AllocError, Global};
use std::mem::replace;

/// Makes a call of a model, and writes its answer.
pub fn call(
    alloc: Global,
    model: &mut Model,
    word: &str,
    line: &str,
    got: &mut String,
) -> Result<()> {
    let mut words = Words::new(alloc, line)?;
    answer(alloc, model, word, &mut words, got)?;
    words.end()
}

/// Makes a call of a model by the words behind it, and writes its answer.
fn answer(
    alloc: Global,
    model: &mut Model,
    word: &str,
    words: &mut Words,
    got: &mut String,
) -> Result<()> {
    match word {
        "edit" => edit(alloc, model, words, got),
        "copy" => Ok(become_copy(model)?),
        "point" | "value" | "activity" => at_point(alloc, model, word, words, got),
        _ => read(model, word, words, got),
    }
}

/// Puts a copy of the model in its own place.
fn become_copy(model: &mut Model) -> Result<(), AllocError> {
    let copy = model.copy()?;
    drop(replace(model, copy));
    Ok(())
}

/// Makes a call of a point, which changes nothing.
fn at_point(
    alloc: Global,
    model: &Model,
    word: &str,
    words: &mut Words,
    got: &mut String,
) -> Result<()> {
    match word {
        "point" => feasibility(alloc, model, words, got),
        "value" => value(alloc, model, words, got),
        _ => activity(alloc, model, words, got),
    }
}

/// Makes a call that changes nothing.
fn read(model: &Model, word: &str, words: &mut Words, got: &mut String) -> Result<()> {
    match word {
        "coefficient" => coefficient(model, words, got),
        "size" => size(model, got),
        "names" => names(model, got),
        "place" => place(model, words, got),
        "whole" => whole(model, words, got),
        _ => bail!("no call of a model: `{word}`"),
    }
}

fn edit(alloc: Global, model: &mut Model, words: &mut Words, got: &mut String) -> Result<()> {
    let edit = edit_of(alloc, words)?;
    let answer = apply(model, alloc, edit);
    let pushed = push_answer(got, &answer);
    drop(answer);
    pushed
}

/// Writes why an edit is refused, if it is.
pub fn push_answer(got: &mut String, answer: &Result<(), EditFault>) -> Result<()> {
    if let Err(fault) = answer {
        push_edit_fault(got, fault)?;
    }
    Ok(())
}

/// Writes the step that has no room.
pub fn push_step(got: &mut String, model: &Model, step: WideStep) -> Result<()> {
    got.push_str("wide ")?;
    push_wide_step(got, model, step)?;
    Ok(())
}

fn feasibility(alloc: Global, model: &Model, words: &mut Words, got: &mut String) -> Result<()> {
    let point = point_of(alloc, model, words)?;
    match model_points::is_feasible(model, &point) {
        Ok(true) => got.push_str("feasible")?,
        Ok(false) => got.push_str("infeasible")?,
        Err(step) => push_step(got, model, step)?,
    }
    Ok(())
}

/// Writes a number, or the step of it that has no room.
fn push_number(got: &mut String, model: &Model, number: &Result<Frac, WideStep>) -> Result<()> {
    match number {
        Ok(number) => write!(got, "{number}")?,
        Err(step) => push_step(got, model, *step)?,
    }
    Ok(())
}

/// Takes 1 or 2, which names an objective.
fn take_objective(words: &mut Words) -> Result<u8>
    ensures { IfOk result (λ which. (which ≡ 1) ⊎ (which ≡ 2)) }
{
    if words.takes("1") {
        return Ok(1);
    }
    ensure!(words.takes("2"), "no objective 1 or 2");
    Ok(2)
}

fn value(alloc: Global, model: &Model, words: &mut Words, got: &mut String) -> Result<()> {
    let which = take_objective(words)?;
    let point = point_of(alloc, model, words)?;
    let value = model_points::value(model, which, &point);
    push_number(got, model, &value)
}

/// Takes the name of a row.
fn take_row(model: &Model, words: &mut Words) -> Result<u32> {
    let word = words.next("row")?;
    match variable_of(model, &word)? {
        Var::Row(row) => Ok(row.0),
        _ => bail!("no row: `{word}`"),
    }
}

fn activity(alloc: Global, model: &Model, words: &mut Words, got: &mut String) -> Result<()> {
    let row = take_row(model, words)?;
    let point = point_of(alloc, model, words)?;
    let activity = model_points::activity(model, row, &point);
    push_number(got, model, &activity)
}

fn coefficient(model: &Model, words: &mut Words, got: &mut String) -> Result<()> {
    let row = take_row(model, words)?;
    let word = words.next("column")?;
    let place = column_of(model, &word)?.0 as usize;
    ensure!(place < model.cols().len(), "no such column: `{word}`");
    let number = model.coefficient(row, place);
    write!(got, "{number}")?;
    Ok(())
}

fn size(model: &Model, got: &mut String) -> Result<()> {
    let rows = model.rows().len();
    let columns = model.cols().len();
    write!(got, "rows {rows} columns {columns}")?;
    Ok(())
}

/// Writes the sense, and the names of both objectives.
fn names(model: &Model, got: &mut String) -> Result<()> {
    match model.sense() {
        Sense::Min => got.push_str("min")?,
        Sense::Max => got.push_str("max")?,
    }
    let first = name_text(model.objective_name(1));
    let second = name_text(model.objective_name(2));
    write!(got, " {first} {second}")?;
    Ok(())
}

/// The place of a column or a row, from 0.
fn place_of(model: &Model, is_column: bool, name: &str) -> Option<u32> {
    if is_column {
        return Some(model.find_col(name.as_bytes())?.0);
    }
    Some(model.find_row(name.as_bytes())?.0)
}

/// Writes the place of the column or the row with a name.
fn place(model: &Model, words: &mut Words, got: &mut String) -> Result<()> {
    let is_column = words.takes("column");
    ensure!(is_column || words.takes("row"), "no `column` or `row`");
    let name = words.next("name")?;
    match place_of(model, is_column, &name) {
        Some(place) => write!(got, "{place}")?,
        None => got.push_str("none")?,
    }
    Ok(())
}

/// Writes that an objective is whole, or the column by which it isn't.
fn whole(model: &Model, words: &mut Words, got: &mut String) -> Result<()> {
    let which = take_objective(words)?;
    match model_points::whole_objective(model, which) {
        Ok(()) => got.push_str("whole")?,
        Err(NotWhole { col: Some(col) }) => write!(got, "not by column#{}", col.0)?,
        Err(NotWhole { col: None }) => got.push_str("not by its constant")?,
    }
    Ok(())
}
