// The places of steps of arithmetic.
ghost use Rattle.std.specs.Prelude.{◌≡◌, ◌++◌, codes, IfOk};
ghost use Rattle.reply_texts.specs.Places.{variable_text, next_text, value_step_text, step_text};
ghost use Rattle.lp_model.specs.Lawful.{row_name};
ghost use Rattle.lp_model.specs.Lawful.{column_name};

use crate::names::{column_name, row_name, write_next, write_variable};
use crate::pieces::write_two;
use lp_model::{ColId, Model, RowId, Var, WideStep};
use std::alloc::AllocError;

/// A row's name behind a piece, and a column's.
fn write_crossing(
    reply: &mut Vec<u8>,
    model: &Model,
    first: &[u8],
    row: RowId,
    column: ColId,
) -> Result<(), AllocError>
    ensures { IfOk result (λ _. reply.new.items ≡ reply.old.items ++ (first.now ++ row_name model.now row.0 ++ codes " col " ++ column_name model.now column.0)) }
{
    let Ok(()) = write_two(reply, first, row_name(model, row)) else {
        return Err(AllocError);
    };
    write_two(reply, b" col ", column_name(model, column))
}

fn write_value_at(reply: &mut Vec<u8>, model: &Model, column: ColId) -> Result<(), AllocError>
    ensures { IfOk result (λ _. reply.new.items ≡ reply.old.items ++ (codes "value col " ++ column_name model.now column.0)) }
{
    write_two(reply, b"value col ", column_name(model, column))
}

fn write_value(reply: &mut Vec<u8>, model: &Model, column: &Option<ColId>) -> Result<(), AllocError>
    ensures { IfOk result (λ _. reply.new.items ≡ reply.old.items ++ value_step_text model.now column.now) }
{
    match column {
        Some(column) => write_value_at(reply, model, *column),
        None => reply.extend_from_slice(b"value"),
    }
}

fn write_entry(
    reply: &mut Vec<u8>,
    model: &Model,
    column: ColId,
    by: &Var,
) -> Result<(), AllocError>
    ensures { IfOk result (λ _. reply.new.items ≡ reply.old.items ++ (codes "lag col " ++ column_name model.now column.0 ++ codes " " ++ variable_text model.now by.now)) }
{
    let Ok(()) = write_two(reply, b"lag col ", column_name(model, column)) else {
        return Err(AllocError);
    };
    write_next(reply, model, by)
}

fn write_term(reply: &mut Vec<u8>, model: &Model, of: &Var) -> Result<(), AllocError>
    ensures { IfOk result (λ _. reply.new.items ≡ reply.old.items ++ (codes "lag " ++ variable_text model.now of.now)) }
{
    let Ok(()) = reply.extend_from_slice(b"lag ") else {
        return Err(AllocError);
    };
    write_variable(reply, model, of)
}

/// A word and two variables.
fn write_pair(
    reply: &mut Vec<u8>,
    model: &Model,
    word: &[u8],
    first: &Var,
    second: &Var,
) -> Result<(), AllocError>
    ensures { IfOk result (λ _. reply.new.items ≡ reply.old.items ++ (word.now ++ next_text model.now first.now ++ next_text model.now second.now)) }
{
    let Ok(()) = reply.extend_from_slice(word) else {
        return Err(AllocError);
    };
    let Ok(()) = write_next(reply, model, first) else {
        return Err(AllocError);
    };
    write_next(reply, model, second)
}

/// An entry after an exchange: who leaves, who enters, and the variables of the entry.
fn write_pivot(
    reply: &mut Vec<u8>,
    model: &Model,
    leaving: &Var,
    entering: &Var,
    first: &Var,
    second: &Var,
) -> Result<(), AllocError>
    ensures { IfOk result (λ _. reply.new.items ≡ reply.old.items ++ (codes "pivot" ++ next_text model.now leaving.now ++ next_text model.now entering.now ++ next_text model.now first.now ++ next_text model.now second.now)) }
{
    let Ok(()) = write_pair(reply, model, b"pivot", leaving, entering) else {
        return Err(AllocError);
    };
    let Ok(()) = write_next(reply, model, first) else {
        return Err(AllocError);
    };
    write_next(reply, model, second)
}

/// A ratio of the costs.
fn write_cost_ratio(
    reply: &mut Vec<u8>,
    model: &Model,
    leaving: &Var,
    entering: &Var,
) -> Result<(), AllocError>
    ensures { IfOk result (λ _. reply.new.items ≡ reply.old.items ++ (codes "ratio" ++ next_text model.now leaving.now ++ next_text model.now entering.now ++ codes " 0")) }
{
    let Ok(()) = write_pair(reply, model, b"ratio", leaving, entering) else {
        return Err(AllocError);
    };
    reply.extend_from_slice(b" 0")
}

/// A ratio of a part of the perturbation.
fn write_part_ratio(
    reply: &mut Vec<u8>,
    model: &Model,
    leaving: &Var,
    entering: &Var,
    part: &Var,
) -> Result<(), AllocError>
    ensures { IfOk result (λ _. reply.new.items ≡ reply.old.items ++ (codes "ratio" ++ next_text model.now leaving.now ++ next_text model.now entering.now ++ next_text model.now part.now)) }
{
    let Ok(()) = write_pair(reply, model, b"ratio", leaving, entering) else {
        return Err(AllocError);
    };
    write_next(reply, model, part)
}

/// The place of a step of arithmetic.
pub fn write_step(reply: &mut Vec<u8>, model: &Model, step: &WideStep) -> Result<(), AllocError>
    ensures { IfOk result (λ _. reply.new.items ≡ reply.old.items ++ step_text model.now step.now) }
{
    match step {
        WideStep::Pivot { r, s, i, k } => write_pivot(reply, model, r, s, i, k),
        WideStep::Point { b, k } => write_pair(reply, model, b"point", b, k),
        WideStep::Cost { k, b } => write_pair(reply, model, b"cost", k, b),
        WideStep::RatioCost { r, k } => write_cost_ratio(reply, model, r, k),
        WideStep::Ratio { r, k, v } => write_part_ratio(reply, model, r, k, v),
        WideStep::Act { row, col } => write_crossing(reply, model, b"act row ", *row, *col),
        WideStep::Value { col } => write_value(reply, model, col),
        WideStep::LagEntry { col, by } => write_entry(reply, model, *col, by),
        WideStep::LagTerm { of } => write_term(reply, model, of),
        WideStep::Cover { row, col } => write_crossing(reply, model, b"cover row ", *row, *col),
    }
}
