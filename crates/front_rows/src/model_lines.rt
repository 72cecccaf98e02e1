// A whole model in lines, each number of it, so that two models have the same lines exactly where they are the same.
use lp_model::{Bound, Col, Model, Row, Sense};
use model_texts::name_text;
use std::alloc::{AllocError, Global};

fn push_side(text: &mut String, side: &Bound) -> Result<(), AllocError> {
    match side {
        Some(number) => write!(text, " {number}"),
        None => text.push_str(" none"),
    }
}

fn push_row(text: &mut String, row: &Row) -> Result<(), AllocError> {
    write!(text, "row {}", name_text(&row.name))?;
    push_side(text, &row.lo)?;
    push_side(text, &row.hi)?;
    text.push('\n')
}

fn push_column(text: &mut String, col: &Col) -> Result<(), AllocError> {
    let kind = if col.int { "integer" } else { "real" };
    write!(text, "column {} {kind}", name_text(&col.name))?;
    push_side(text, &col.lo)?;
    push_side(text, &col.up)?;
    write!(text, " cost {} cost2 {}", col.cost, col.cost2)?;
    for (row, number) in col.rows.as_slice() {
        write!(text, " {} {number}", row.0)?;
    }
    text.push('\n')
}

/// Writes what a model has beside its rows and columns.
fn push_head(text: &mut String, model: &Model) -> Result<(), AllocError> {
    let sense = match model.sense() {
        Sense::Min => "min",
        Sense::Max => "max",
    };
    let width = if model.is_wide() { "widened" } else { "plain" };
    let first = name_text(model.objective_name(1));
    let second = name_text(model.objective_name(2));
    let constants = [model.constant(1), model.constant(2)];
    writeln!(
        text,
        "{sense} {width} {first} {} {second} {}",
        constants[0], constants[1]
    )
}

/// The lines of a model: its head, its rows and its columns with their entries by the places of rows.
pub fn model_lines(alloc: Global, model: &Model) -> Result<String, AllocError> {
    let mut text = String::new(alloc);
    push_head(&mut text, model)?;
    for row in model.rows() {
        push_row(&mut text, row)?;
    }
    for col in model.cols() {
        push_column(&mut text, col)?;
    }
    Ok(text)
}
