// A sweep by a script, and what it answers and leaves.
ghost use Rattle.std.specs.Prelude.{◌≡◌, false, IfOk};
ghost use Rattle.frac128.specs.Range.{IsNarrow};
ghost use Rattle.inner_models.specs.Inner.{IsBare};
ghost use Rattle.inner_models.specs.Room.{HasInnerRoom};

use crate::mc_texts::push_mc;
use crate::model_lines::model_lines;
use crate::scripted::{ScriptedSolver, Step};
use crate::steps::{Solve, steps_of, take_cause};
use crate::stopping::StoppingSolver;
use anyhow::{Result, bail, ensure};
use front_solver::Solver;
use gap_models::bare_model;
use inner_models::{bare_law, bare_room_law};
use lp_model::{Model, StopWhy, show_model};
use model_calls::{section, take_number};
use model_texts::{Words, whole_of};
use row_texts::number_of;
use std::alloc::{AllocError, Global};
use wcn_driver::{Mc, run_wcn};

/// What a sweep is told: how many results there may be, the constants, and, where it is to stop, behind how many solves and why.
#[derive(Drop)]
struct Orders {
    nodes: u64,
    constant1: i128,
    constant2: i128,
    stop: Option<(u64, StopWhy)>,
}

/// A stop behind so many solves: `stop K CAUSE`, K from 1.
fn take_stop(
    alloc: Global,
    model: &Model,
    words: &mut Words,
    line: &str,
) -> Result<Option<(u64, StopWhy)>> {
    if !words.takes("stop") {
        return Ok(None);
    }
    let place = take_number(words)?;
    ensure!(place > 0, "no solve 0");
    let why = take_cause(alloc, model, words, line)?;
    Ok(Some((place - 1, why)))
}

/// Takes a whole number for which a fraction has room.
fn take_constant(words: &mut Words) -> Result<i128>
    ensures { IfOk result IsNarrow }
{
    let word = words.next("constant")?;
    let whole = whole_of(&word);
    drop(word);
    whole
}

/// Takes how many results there may be and the constants: `nodes N constants C D`.
fn take_head(words: &mut Words) -> Result<(u64, i128, i128)>
    ensures first { IfOk result (λ o. IsNarrow o.1) }
    ensures second { IfOk result (λ o. IsNarrow o.2) }
{
    ensure!(words.takes("nodes"), "no `nodes`");
    let nodes = take_number(words)?;
    ensure!(words.takes("constants"), "no `constants`");
    let constant1 = take_constant(words)?;
    let constant2 = take_constant(words)?;
    Ok((nodes, constant1, constant2))
}

/// `stop K CAUSE`, or nothing, at the end of a line.
fn last_stop(
    alloc: Global,
    model: &Model,
    words: &mut Words,
    line: &str,
) -> Result<Option<(u64, StopWhy)>> {
    let stop = take_stop(alloc, model, words, line)?;
    match words.end() {
        Ok(()) => Ok(stop),
        Err(error) => {
            drop(stop);
            Err(error)
        }
    }
}

/// `nodes N constants C D [stop K CAUSE]`
fn take_orders(alloc: Global, model: &Model, words: &mut Words, line: &str) -> Result<Orders>
    ensures first { IfOk result (λ o. IsNarrow o.constant1) }
    ensures second { IfOk result (λ o. IsNarrow o.constant2) }
{
    let (nodes, constant1, constant2) = take_head(words)?;
    let stop = last_stop(alloc, model, words, line)?;
    Ok(Orders {
        nodes,
        constant1,
        constant2,
        stop,
    })
}

/// What a line orders.
fn orders_of(alloc: Global, model: &Model, line: &str) -> Result<Orders>
    ensures first { IfOk result (λ o. IsNarrow o.constant1) }
    ensures second { IfOk result (λ o. IsNarrow o.constant2) }
{
    let mut words = section(alloc, line, "")?;
    let orders = take_orders(alloc, model, &mut words, line);
    drop(words);
    orders
}

/// What a sweep of a model in least form without constants answers, and the solver as it is left.
fn swept(alloc: Global, base: Model, steps: Vec<Step>, orders: Orders) -> (Mc, ScriptedSolver)
    requires bare { IsBare base }
    requires room { HasInnerRoom base }
    requires first { IsNarrow orders.constant1 }
    requires second { IsNarrow orders.constant2 }
{
    let Orders {
        nodes,
        constant1,
        constant2,
        stop,
    } = orders;
    let mut solver = ScriptedSolver::new(alloc, base, steps);
    match stop {
        None => {
            let mc = run_wcn(alloc, &mut solver, nodes, constant1, constant2);
            (mc, solver)
        }
        Some((before, why)) => {
            let mut stopping = StoppingSolver::new(solver, before, why);
            let mc = run_wcn(alloc, &mut stopping, nodes, constant1, constant2);
            (mc, stopping.into_inner())
        }
    }
}

/// Writes how many solves of the script are left, and whether the solver has the model that it had. Where memory was wanting nothing is said
/// of the model.
fn push_left(
    alloc: Global,
    got: &mut Vec<u8>,
    mc: &Mc,
    solver: &ScriptedSolver,
    before: &str,
) -> Result<(), AllocError> {
    let mut text = String::new(alloc);
    writeln!(text, "left {}", solver.left())?;
    if !matches!(mc, Mc::Memory) {
        let after = model_lines(alloc, solver.model())?;
        if after.as_str() == before {
            text.push_str("the model stays\n")?;
        } else {
            write!(text, "another model\n{after}")?;
        }
    }
    got.extend_from_slice(text.as_bytes())
}

/// What a sweep answers, and what it leaves.
fn told(
    alloc: Global,
    model: &Model,
    mc: &Mc,
    solver: &ScriptedSolver,
    before: &str,
) -> Result<Vec<u8>, AllocError> {
    let mut got = Vec::new(alloc);
    push_mc(alloc, &mut got, model, mc)?;
    push_left(alloc, &mut got, mc, solver, before)?;
    Ok(got)
}

/// The place of a solve, from 0, and the other line behind `solve K `, K from 1.
fn other_solve(alloc: Global, line: &str) -> Result<Option<(u64, String)>> {
    let Some((_, other)) = line.split_once("solve ") else {
        return Ok(None);
    };
    let Some((place, other)) = other.split_once(' ') else {
        bail!("no `solve K RESULTS ..`: {line}");
    };
    let place = place_of(place)?;
    Ok(Some((place, String::from_str(alloc, other)?)))
}

/// A place from 0, which is told from 1.
fn place_of(word: &str) -> Result<u64> {
    match number_of(word) {
        Some(place) if place > 0 => Ok(place - 1),
        _ => bail!("no place of a solve: `{word}`"),
    }
}

/// What a sweep of a model answers by these steps, and what it leaves.
fn told_by(
    alloc: Global,
    model: &Model,
    steps: Vec<Step>,
    orders: Orders,
) -> Result<Vec<u8>, AllocError>
    requires plain { model.now.wide ≡ false }
    requires first { IsNarrow orders.constant1 }
    requires second { IsNarrow orders.constant2 }
{
    show_model(model);
    bare_law();
    bare_room_law();
    let Ok(base) = bare_model(alloc, model) else {
        drop(steps);
        drop(orders);
        return Err(AllocError);
    };
    let Ok(before) = model_lines(alloc, &base) else {
        drop(steps);
        drop(orders);
        drop(base);
        return Err(AllocError);
    };
    let (mc, solver) = swept(alloc, base, steps, orders);
    let got = told(alloc, model, &mc, &solver, &before);
    drop(solver);
    drop(mc);
    drop(before);
    got
}

/// Sweeps the front of a model by a script of solves, as a line orders it: `nodes N constants C D [stop K CAUSE] [solve K RESULTS ..]`. The
/// text tells what is answered, and what is left.
pub fn sweep_text(alloc: Global, model: &Model, solves: &[Solve], line: &str) -> Result<Vec<u8>> {
    ensure!(!model.is_wide(), "a widened model");
    let (head, _) = line.split_once("solve ").unwrap_or((line, ""));
    let other = other_solve(alloc, line)?;
    let steps = steps_of(alloc, model, solves, &other);
    drop(other);
    let steps = steps?;
    match orders_of(alloc, model, head) {
        Ok(orders) => Ok(told_by(alloc, model, steps, orders)?),
        Err(error) => {
            drop(steps);
            Err(error)
        }
    }
}
