// Multipliers, bases and splits, as the sections of a call say them.
use anyhow::{Result, ensure};
use lp_model::{Basis, ColId, Model, Mult};
use model_calls::section;
use model_texts::{Words, basis_of, column_of, multipliers_of};
use std::alloc::Global;

/// The multipliers of a section.
pub fn multipliers_in(alloc: Global, model: &Model, line: &str, key: &str) -> Result<Mult> {
    let mut words = section(alloc, line, key)?;
    multipliers_of(alloc, model, &mut words)
}

/// The basis of the section `basis`.
pub fn basis_in(alloc: Global, model: &Model, line: &str) -> Result<Basis> {
    let mut words = section(alloc, line, "basis")?;
    basis_of(alloc, model, &mut words)
}

/// Takes `COLUMN at V`, to the end.
pub fn take_split(model: &Model, words: &mut Words) -> Result<(ColId, i128)> {
    let col = column_of(model, &words.next("column")?)?;
    ensure!(words.takes("at"), "no `at`");
    let v = words.next("number")?.parse::<i128>()?;
    words.end()?;
    Ok((col, v))
}
