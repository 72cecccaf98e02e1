// Exchanges in the table of a basis.
use crate::steps::push_step;
use anyhow::Result;
use frac128::Frac;
use lp_model::{Basis, Model, Var, WideStep};
use row_tableau::{Position, Tableau};

/// The row or place of a variable, if it is there.
fn find(tableau: &Tableau, variable: Var) -> Option<Position> {
    let at = tableau.number(variable);
    if at < tableau.columns() + tableau.activities() {
        Some(tableau.find(at))
    } else {
        None
    }
}

/// The row of a basic variable and the place of another one.
fn row_and_place(tableau: &Tableau, basic: Var, other: Var) -> Option<(usize, usize)> {
    match (find(tableau, basic), find(tableau, other)) {
        (Some(Position::Row(row)), Some(Position::Place(place))) => Some((row, place)),
        _ => None,
    }
}

/// The entry of a row and a place, if they are there.
fn entry_at(tableau: &Tableau, row: usize, place: usize) -> Option<Frac> {
    if row < tableau.activities() && place < tableau.columns() {
        Some(tableau.entry(row, place))
    } else {
        None
    }
}

/// Writes the entry of a basic variable and another one.
pub fn push_entry(text: &mut String, tableau: &Tableau, basic: Var, other: Var) -> Result<()> {
    let Some((row, place)) = row_and_place(tableau, basic, other) else {
        text.push_str("no entry\n")?;
        return Ok(());
    };
    match entry_at(tableau, row, place) {
        Some(entry) => writeln!(text, "{entry}")?,
        None => text.push_str("no entry\n")?,
    }
    Ok(())
}

/// Exchanges the variables of a row and a place by their names. False: their entry is 0, or they aren't there.
fn exchange_at(tableau: &mut Tableau, row: usize, place: usize) -> Result<bool, WideStep> {
    if row < tableau.activities()
        && place < tableau.columns()
        && !tableau.entry(row, place).is_zero()
    {
        let leaving = tableau.variable(tableau.basic(row));
        let entering = tableau.variable(tableau.nonbasic(place));
        match tableau.pivot(leaving, entering) {
            Ok(()) => Ok(true),
            Err(wide) => Err(wide),
        }
    } else {
        Ok(false)
    }
}

/// Writes how an exchange or the bringing in of a list ended.
fn push_brought(
    text: &mut String,
    model: &Model,
    answer: &Result<bool, WideStep>,
    words: [&str; 2],
) -> Result<()> {
    match answer {
        Ok(true) => writeln!(text, "{}", words[0])?,
        Ok(false) => writeln!(text, "{}", words[1])?,
        Err(step) => push_step(text, model, *step)?,
    }
    Ok(())
}

/// Exchanges a basic variable with another one.
pub fn exchange(
    text: &mut String,
    model: &Model,
    tableau: &mut Tableau,
    basic: Var,
    other: Var,
) -> Result<()> {
    let answer = match row_and_place(tableau, basic, other) {
        Some((row, place)) => exchange_at(tableau, row, place),
        None => Ok(false),
    };
    push_brought(text, model, &answer, ["exchanged", "no exchange"])
}

/// Brings a list in.
pub fn bring_in(
    text: &mut String,
    model: &Model,
    tableau: &mut Tableau,
    list: &Basis,
) -> Result<()> {
    let answer = tableau.bring_in(list);
    push_brought(text, model, &answer, ["basis", "no basis"])
}
