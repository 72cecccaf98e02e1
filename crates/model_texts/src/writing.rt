// Lists and faults as text, by the names of a model.
use frac128::Frac;
use lp_model::{Basis, Bound, ColId, Model, Mult, Name, Point, RowId, Var, WideStep};
use model_edits::EditFault;
use std::alloc::AllocError;

/// A name as text: `?` where it is none.
pub fn name_text(name: &Name) -> &str {
    str::from_utf8(name.as_slice()).unwrap_or("?")
}

fn push_column(text: &mut String, model: &Model, col: ColId) -> Result<(), AllocError> {
    match model.cols().get(col.0 as usize) {
        Some(column) => text.push_str(name_text(&column.name)),
        None => write!(text, "column#{}", col.0),
    }
}

/// Writes a row: by its place where a column has its name.
fn push_row(text: &mut String, model: &Model, row: RowId) -> Result<(), AllocError> {
    match model.rows().get(row.0 as usize) {
        Some(named) if model.find_col(named.name.as_slice()).is_none() => {
            text.push_str(name_text(&named.name))
        }
        _ => write!(text, "row#{}", row.0),
    }
}

/// Writes a variable, as `variable_of` reads it.
pub fn push_variable(text: &mut String, model: &Model, variable: Var) -> Result<(), AllocError> {
    match variable {
        Var::Col(col) => push_column(text, model, col),
        Var::Row(row) => push_row(text, model, row),
        Var::Cut(cut) => write!(text, "cut#{}", cut.0),
    }
}

/// Writes variables, a blank before each.
pub fn push_variables(text: &mut String, model: &Model, list: &[Var]) -> Result<(), AllocError> {
    for variable in list {
        text.push(' ')?;
        push_variable(text, model, *variable)?;
    }
    Ok(())
}

fn push_coordinate(
    text: &mut String,
    model: &Model,
    place: usize,
    number: &Frac,
) -> Result<(), AllocError> {
    match model.cols().get(place) {
        Some(column) => push_words(text, " ", name_text(&column.name))?,
        None => write!(text, " column#{place}")?,
    }
    text.push(' ')?;
    push_number(text, number)
}

/// Writes the columns and numbers of a point, a blank before each.
pub fn push_point(text: &mut String, model: &Model, point: &Point) -> Result<(), AllocError> {
    for (place, number) in point.as_slice().iter().enumerate() {
        push_coordinate(text, model, place, number)?;
    }
    Ok(())
}

/// Writes the variables and numbers of multipliers, a blank before each.
pub fn push_multipliers(text: &mut String, model: &Model, list: &Mult) -> Result<(), AllocError> {
    for (variable, number) in list.as_slice() {
        text.push(' ')?;
        push_variable(text, model, *variable)?;
        text.push(' ')?;
        push_number(text, number)?;
    }
    Ok(())
}

/// Writes a basis, a blank before each word: the basic variables, and behind `high` those that stand high, where there are
/// any.
pub fn push_basis(text: &mut String, model: &Model, basis: &Basis) -> Result<(), AllocError> {
    push_variables(text, model, basis.basic.as_slice())?;
    let high = basis.high.as_slice();
    if !high.is_empty() {
        text.push_str(" high")?;
        push_variables(text, model, high)?;
    }
    Ok(())
}

/// Writes a side, nothing where there is none.
pub fn push_bound(text: &mut String, bound: &Bound) -> Result<(), AllocError> {
    match bound {
        Some(number) => push_number(text, number),
        None => Ok(()),
    }
}

fn push_number(text: &mut String, number: &Frac) -> Result<(), AllocError> {
    write!(text, "{number}")
}

fn push_words(text: &mut String, word: &str, name: &str) -> Result<(), AllocError> {
    text.push_str(word)?;
    text.push_str(name)
}

/// Writes why an edit is refused.
pub fn push_edit_fault(text: &mut String, fault: &EditFault) -> Result<(), AllocError> {
    match fault {
        EditFault::NoSuch(name) => push_words(text, "no such ", name_text(name)),
        EditFault::Duplicate(name) => push_words(text, "duplicate ", name_text(name)),
        EditFault::Limit(limit) => write!(text, "limit {limit}"),
        EditFault::IntegerUnbounded(name) => push_words(text, "unbounded ", name_text(name)),
        EditFault::Ranged(name) => push_words(text, "no range ", name_text(name)),
        EditFault::Memory => text.push_str("no memory"),
    }
}

/// Writes a word and two variables.
fn push_pair(
    text: &mut String,
    model: &Model,
    word: &str,
    first: Var,
    second: Var,
) -> Result<(), AllocError> {
    push_words(text, word, " ")?;
    push_variable(text, model, first)?;
    text.push(' ')?;
    push_variable(text, model, second)
}

/// Writes a word and variables.
fn push_named(
    text: &mut String,
    model: &Model,
    word: &str,
    variables: &[Var],
) -> Result<(), AllocError> {
    text.push_str(word)?;
    push_variables(text, model, variables)
}

/// Writes the place of a step of arithmetic without room.
pub fn push_wide_step(text: &mut String, model: &Model, step: WideStep) -> Result<(), AllocError> {
    match step {
        WideStep::Pivot { r, s, i, k } => push_named(text, model, "exchange", &[r, s, i, k]),
        WideStep::Point { b, k } => push_named(text, model, "point", &[b, k]),
        WideStep::Cost { k, b } => push_named(text, model, "cost", &[k, b]),
        WideStep::RatioCost { r, k } => push_named(text, model, "ratio", &[r, k]),
        WideStep::Ratio { r, k, v } => push_named(text, model, "ratio", &[r, k, v]),
        WideStep::Act { row, col } => {
            push_pair(text, model, "activity", Var::Row(row), Var::Col(col))
        }
        WideStep::Value { col: None } => text.push_str("value constant"),
        WideStep::Value { col: Some(col) } => {
            text.push_str("value ")?;
            push_column(text, model, col)
        }
        WideStep::LagEntry { col, by } => push_pair(text, model, "entry", Var::Col(col), by),
        WideStep::LagTerm { of } => {
            text.push_str("term ")?;
            push_variable(text, model, of)
        }
        WideStep::Cover { row, col } => {
            push_pair(text, model, "cover", Var::Row(row), Var::Col(col))
        }
    }
}
