// Walks, steps and solutions of a relaxation.
ghost use Rattle.std.specs.Prelude.{◌≡◌, []};

use crate::judging::{judge_farkas, judge_multipliers, judge_point, push_value};
use crate::starting::begin;
use crate::steps::push_step;
use anyhow::Result;
use dual_simplex::{Lp, LpState, Step, Walk};
use lp_model::{Basis, Model, Mult, Point, WideStep};
use model_texts::push_variable;
use row_tableau::{Relax, RelaxKind};
use std::alloc::Global;

/// The word of an end.
fn end_word(walk: Walk) -> &'static str {
    match walk {
        Walk::Optimal => "optimal",
        Walk::Infeasible => "infeasible",
        Walk::Pivots => "pivots",
    }
}

/// Walks, and writes how that ended.
fn push_walk(text: &mut String, model: &Model, state: &mut LpState<'_>, limit: u64) -> Result<()> {
    match state.walk(limit) {
        Ok(walk) => writeln!(text, "{}", end_word(walk))?,
        Err(step) => push_step(text, model, step)?,
    }
    Ok(())
}

/// Makes steps up to one that does not move, at most so many: how many moved, and what the last one was.
fn steps_of(state: &mut LpState<'_>, limit: u64) -> (u64, Result<Step, WideStep>) {
    for moves in 0..limit {
        match state.step() {
            Ok(Step::Moved) => {}
            last => return (moves, last),
        }
    }
    (limit, Ok(Step::Moved))
}

/// Makes steps, and writes the last one's answer and how many moved.
fn push_steps(text: &mut String, model: &Model, state: &mut LpState<'_>, limit: u64) -> Result<()> {
    let (moves, last) = steps_of(state, limit);
    match last {
        Ok(Step::Moved) => writeln!(text, "moved {moves}")?,
        Ok(Step::Optimal) => writeln!(text, "optimal after {moves}")?,
        Ok(Step::Infeasible) => writeln!(text, "infeasible after {moves}")?,
        Err(step) => push_step(text, model, step)?,
    }
    Ok(())
}

/// Writes the number and the multiplier of each variable.
fn push_numbers(text: &mut String, model: &Model, state: &LpState<'_>) -> Result<()> {
    for variable in 0..state.variables() {
        push_variable(text, model, state.variable(variable))?;
        match (state.number_of(variable), state.multiplier_of(variable)) {
            (Ok(number), Ok(multiplier)) => writeln!(text, " {number} {multiplier}")?,
            _ => text.push_str(" wide\n")?,
        }
    }
    Ok(())
}

/// Walks, and writes the number and the multiplier of each variable where that ended.
fn push_walk_and_numbers(
    text: &mut String,
    model: &Model,
    state: &mut LpState<'_>,
    limit: u64,
) -> Result<()> {
    push_walk(text, model, state, limit)?;
    push_numbers(text, model, state)
}

/// Moves as a command says, and writes what that came to.
fn push_moves(
    text: &mut String,
    model: &Model,
    state: &mut LpState<'_>,
    command: &str,
    limit: u64,
) -> Result<()> {
    match command {
        "walk" => push_walk(text, model, state, limit),
        "steps" => push_steps(text, model, state, limit),
        _ => push_walk_and_numbers(text, model, state, limit),
    }
}

/// Moves as the command `walk`, `steps` or `numbers` says, from where the relaxation begins.
pub fn go_on(
    alloc: Global,
    relax: &Relax<'_>,
    list: &Option<Basis>,
    command: &str,
    limit: u64,
    text: &mut String,
) -> Result<()>
    requires { relax.now.cuts.now ≡ [] }
{
    let Some(mut state) = begin(alloc, relax, list, text)? else {
        return Ok(());
    };
    let moved = push_moves(text, relax.model, &mut state, command, limit);
    drop(state);
    moved
}

/// Writes the value of an optimum, and judges its point and its multipliers where the relaxation is plain.
fn push_optimum(text: &mut String, relax: &Relax<'_>, point: &Point, mult: &Mult) -> Result<()> {
    text.push_str("optimal")?;
    let value = push_value(text, relax.model, point)?;
    if let (RelaxKind::Plain, Some(value)) = (relax.kind, value) {
        judge_point(text, relax, point)?;
        judge_multipliers(text, relax, mult, &value)?;
    }
    Ok(())
}

/// Writes what was found, and judges Farkas multipliers where the relaxation has the model's sides.
fn push_lp(text: &mut String, relax: &Relax<'_>, lp: &Lp) -> Result<()> {
    match lp {
        Lp::Optimal { point, mult, .. } => push_optimum(text, relax, point, mult)?,
        Lp::Infeasible { farkas, .. } => {
            text.push_str("infeasible\n")?;
            judge_farkas(text, relax, farkas)?;
        }
        Lp::Pivots { .. } => text.push_str("pivots\n")?,
        Lp::Wide { step, .. } => push_step(text, relax.model, *step)?,
    }
    Ok(())
}

/// Solves the relaxation from where it begins.
pub fn solve(
    alloc: Global,
    relax: &Relax<'_>,
    list: &Option<Basis>,
    limit: u64,
    text: &mut String,
) -> Result<Option<Lp>>
    requires { relax.now.cuts.now ≡ [] }
{
    let Some(mut state) = begin(alloc, relax, list, text)? else {
        return Ok(None);
    };
    let solved = state.solve(alloc, limit);
    drop(state);
    let lp = solved?;
    if let Err(error) = push_lp(text, relax, &lp) {
        drop(lp);
        return Err(error);
    }
    Ok(Some(lp))
}
