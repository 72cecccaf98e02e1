// Solves of a script in words.
use crate::scripted::{Ending, Step};
use anyhow::{Result, bail};
use frac128::Frac;
use lp_model::{Basis, List, Model, PivotPlace, StopWhy, WideAt, WideStep};
use model_calls::{section, take_number};
use model_texts::{Words, basis_of, column_of};
use std::alloc::Global;

/// The number behind a key, if the key is next.
fn keyed_number(words: &mut Words, key: &str) -> Result<Option<Frac>> {
    if !words.takes(key) {
        return Ok(None);
    }
    let number = words.number()?;
    Ok(Some(number))
}

/// The basis of the words that are left, and no word behind it.
fn basis_behind(alloc: Global, model: &Model, words: &mut Words) -> Result<Basis> {
    let basis = basis_of(alloc, model, words)?;
    match words.end() {
        Ok(()) => Ok(basis),
        Err(error) => {
            drop(basis);
            Err(error)
        }
    }
}

/// The basis behind `basis`, by the names of a model.
fn basis_in(alloc: Global, model: &Model, line: &str) -> Result<Basis> {
    let mut words = section(alloc, line, "basis")?;
    let basis = basis_behind(alloc, model, &mut words);
    drop(words);
    basis
}

/// Moves at the root of a tree without cuts.
fn pivots(alloc: Global, model: &Model, line: &str) -> Result<StopWhy> {
    let basis = basis_in(alloc, model, line)?;
    Ok(StopWhy::Pivots(PivotPlace {
        path: Some(List::new(alloc)),
        cuts: List::new(alloc),
        basis,
    }))
}

/// A step of a value at the root of a tree without cuts: the term of the column that is named next.
fn wide(alloc: Global, model: &Model, words: &mut Words, line: &str) -> Result<StopWhy> {
    let name = words.next("column")?;
    let col = column_of(model, &name);
    drop(name);
    let col = col?;
    let basis = basis_in(alloc, model, line)?;
    Ok(StopWhy::Wide(WideAt {
        path: Some(List::new(alloc)),
        cuts: List::new(alloc),
        basis,
        step: WideStep::Value { col: Some(col) },
    }))
}

/// Takes the cause of a stop: `nodes`, `tree`, `pivots`, or `wide X` at the value's term of a column. Its basis stands behind `basis`.
pub fn take_cause(alloc: Global, model: &Model, words: &mut Words, line: &str) -> Result<StopWhy> {
    if words.takes("nodes") {
        return Ok(StopWhy::Nodes);
    }
    if words.takes("tree") {
        return Ok(StopWhy::Tree);
    }
    if words.takes("pivots") {
        return pivots(alloc, model, line);
    }
    if words.takes("wide") {
        return wide(alloc, model, words, line);
    }
    let word = words.next("cause")?;
    bail!("no cause of a stop: `{word}`")
}

/// Takes how a solve ends: nothing where it finishes, else the cause of its stop, `bound V` and `best V`.
fn take_ending(alloc: Global, model: &Model, words: &mut Words, line: &str) -> Result<Ending> {
    if words.is_done() {
        return Ok(Ending::Finished);
    }
    let why = take_cause(alloc, model, words, line)?;
    let bound = keyed_number(words, "bound")?;
    let best = keyed_number(words, "best")?;
    words.end()?;
    Ok(Ending::Stopped { why, bound, best })
}

/// A solve as a row says it: its line and the text of its certificate.
#[derive(Drop)]
pub struct Solve {
    pub line: String,
    pub text: Vec<u8>,
}

/// Takes the results of a solve and how it ends.
fn take_step(alloc: Global, model: &Model, words: &mut Words, line: &str) -> Result<(u64, Ending)> {
    let results = take_number(words)?;
    let ending = take_ending(alloc, model, words, line)?;
    Ok((results, ending))
}

/// The solve that a line says, with the text of its certificate.
fn step_of(alloc: Global, model: &Model, line: &str, text: &Vec<u8>) -> Result<Step> {
    let mut words = section(alloc, line, "")?;
    let told = take_step(alloc, model, &mut words, line);
    drop(words);
    let (results, ending) = told?;
    match text.clone() {
        Ok(text) => Ok(Step {
            ending,
            results,
            text,
        }),
        Err(error) => {
            drop(ending);
            Err(error.into())
        }
    }
}

/// The line of the solve at a place: another one where that is told.
fn line_at<'a>(solve: &'a Solve, at: u64, other: &'a Option<(u64, String)>) -> &'a str {
    match other {
        Some((place, line)) => {
            if *place == at {
                line.as_str()
            } else {
                solve.line.as_str()
            }
        }
        None => solve.line.as_str(),
    }
}

/// The solves of a script, the last one first. Where another line is told of the one at a place, that one counts.
pub fn steps_of(
    alloc: Global,
    model: &Model,
    solves: &[Solve],
    other: &Option<(u64, String)>,
) -> Result<Vec<Step>> {
    let mut steps = Vec::new(alloc);
    for (at, solve) in solves.iter().enumerate() {
        let line = line_at(solve, at as u64, other);
        steps.push(step_of(alloc, model, line, &solve.text)?)?;
    }
    steps.reverse();
    Ok(steps)
}
