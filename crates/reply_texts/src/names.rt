// The names of rows and columns, and variables.
ghost use Rattle.std.specs.Prelude.{◌≡◌, ◌++◌, suc, codes, decimal, IfOk};
ghost use Rattle.std.specs.List.{flat_map};
ghost use Rattle.reply_texts.specs.Places.{variable_text, next_text};
ghost use Rattle.lp_model.specs.Lawful.{row_name};
ghost use Rattle.lp_model.specs.Lawful.{column_name};

use crate::pieces::{write_count, write_two};
use lp_model::{ColId, Model, RowId, Var};
use std::alloc::AllocError;

/// The name of a column, or nothing where there is no such column.
pub fn column_name(model: &Model, place: ColId) -> &[u8]
    ensures { result.now ≡ column_name model.now place.0 }
{
    let columns = model.cols();
    let index = place.0 as usize;
    if index < columns.len() {
        columns[index].name.as_slice()
    } else {
        b""
    }
}

/// The name of a row, or nothing where there is no such row.
pub(crate) fn row_name(model: &Model, place: RowId) -> &[u8]
    ensures { result.now ≡ row_name model.now place.0 }
{
    let rows = model.rows();
    let index = place.0 as usize;
    if index < rows.len() {
        rows[index].name.as_slice()
    } else {
        b""
    }
}

fn write_column(reply: &mut Vec<u8>, model: &Model, place: ColId) -> Result<(), AllocError>
    ensures { IfOk result (λ _. reply.new.items ≡ reply.old.items ++ (codes "col " ++ column_name model.now place.0)) }
{
    write_two(reply, b"col ", column_name(model, place))
}

fn write_row(reply: &mut Vec<u8>, model: &Model, place: RowId) -> Result<(), AllocError>
    ensures { IfOk result (λ _. reply.new.items ≡ reply.old.items ++ (codes "row " ++ row_name model.now place.0)) }
{
    write_two(reply, b"row ", row_name(model, place))
}

fn write_cut(reply: &mut Vec<u8>, place: u32) -> Result<(), AllocError>
    ensures { IfOk result (λ _. reply.new.items ≡ reply.old.items ++ (codes "cut " ++ decimal (suc place))) }
{
    write_count(reply, b"cut ", u64::from(place) + 1)
}

pub(crate) fn write_variable(
    reply: &mut Vec<u8>,
    model: &Model,
    variable: &Var,
) -> Result<(), AllocError>
    ensures { IfOk result (λ _. reply.new.items ≡ reply.old.items ++ variable_text model.now variable.now) }
{
    match variable {
        Var::Col(place) => write_column(reply, model, *place),
        Var::Row(place) => write_row(reply, model, *place),
        Var::Cut(place) => write_cut(reply, place.0),
    }
}

/// A variable, behind a blank.
pub(crate) fn write_next(
    reply: &mut Vec<u8>,
    model: &Model,
    variable: &Var,
) -> Result<(), AllocError>
    ensures { IfOk result (λ _. reply.new.items ≡ reply.old.items ++ next_text model.now variable.now) }
{
    let Ok(()) = reply.extend_from_slice(b" ") else {
        return Err(AllocError);
    };
    write_variable(reply, model, variable)
}

/// Variables, each behind a blank.
pub(crate) fn write_variables(
    reply: &mut Vec<u8>,
    model: &Model,
    variables: &[Var],
) -> Result<(), AllocError>
    ensures { IfOk result (λ _. reply.new.items ≡ reply.old.items ++ flat_map (next_text model.now) variables.now) }
{
    for variable in variables {
        let Ok(()) = write_next(reply, model, variable) else {
            return Err(AllocError);
        };
    }
    Ok(())
}
