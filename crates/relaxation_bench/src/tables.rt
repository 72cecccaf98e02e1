// Models whose relaxations have large tables.
ghost use Rattle.std.specs.Prelude.{◌<◌};

use frac128::Frac;
use lp_model::{Edit, List, Model, Name, Sense};
use model_edits::{EditFault, apply};
use rand_core::utils::NextWord;
use rand_pcg::Pcg32;
use std::alloc::{AllocError, Global};

/// How many rows and columns there are.
#[derive(Clone, Copy, Drop)]
pub struct Size {
    pub rows: u32,
    pub columns: u32,
}

/// One of so many whole numbers from 0 on, 0 where there is none.
pub fn draw(random: &mut Pcg32, count: u32) -> u32 {
    let word = random.next_word();
    if count == 0 { 0 } else { word % count }
}

fn name(alloc: Global, letter: u8, place: u32) -> Result<Name, AllocError> {
    let [first, second, third, fourth] = place.to_be_bytes();
    List::from_slice(alloc, &[letter, first, second, third, fourth])
}

/// An entry by the row, of a column that is 1 from the first row to before the second, or that has a digit everywhere.
fn entry(random: &mut Pcg32, interval: Option<(u32, u32)>, row: u32) -> Frac {
    match interval {
        Some((first, end)) if first <= row && row < end => Frac::whole(1),
        Some(_) => Frac::whole(0),
        None => {
            let digit = draw(random, 18) as i64;
            Frac::whole(if digit < 9 { digit - 9 } else { digit - 8 })
        }
    }
}

/// A column of at least 0 that costs a digit.
fn column(
    alloc: Global,
    random: &mut Pcg32,
    is_interval: bool,
    rows: u32,
    place: u32,
) -> Result<Edit, AllocError> {
    let interval = if is_interval {
        let first = draw(random, rows);
        let length = draw(random, rows);
        Some((first, first.saturating_add(length).saturating_add(1)))
    } else {
        None
    };
    let mut entries = List::new(alloc);
    for row in 0..rows {
        entries.push((name(alloc, b'r', row)?, entry(random, interval, row)))?;
    }
    Ok(Edit::AddCol {
        name: name(alloc, b'x', place)?,
        int: false,
        lo: Some(Frac::whole(0)),
        up: None,
        cost: Frac::whole(draw(random, 9) as i64 + 1),
        cost2: Frac::whole(0),
        entries,
    })
}

/// A row of at least a digit.
fn row(alloc: Global, random: &mut Pcg32, place: u32) -> Result<Edit, AllocError> {
    Ok(Edit::AddRow {
        name: name(alloc, b'r', place)?,
        lo: Some(Frac::whole(draw(random, 9) as i64 + 1)),
        hi: None,
        entries: List::new(alloc),
    })
}

/// A model without rows and columns.
fn empty(alloc: Global) -> Result<Model, EditFault> {
    let first = name(alloc, b'C', 0)?;
    let second = name(alloc, b'D', 0)?;
    if first.as_slice() == second.as_slice() {
        return Err(EditFault::Memory);
    }
    let constants = [Frac::whole(0), Frac::whole(0)];
    Ok(Model::empty(alloc, Sense::Min, first, second, constants))
}

/// Adds rows.
fn add_rows(
    model: &mut Model,
    alloc: Global,
    random: &mut Pcg32,
    size: Size,
) -> Result<(), EditFault> {
    for place in 0..size.rows {
        apply(model, alloc, row(alloc, random, place)?)?;
    }
    Ok(())
}

/// Adds columns.
fn add_columns(
    model: &mut Model,
    alloc: Global,
    random: &mut Pcg32,
    size: Size,
    is_interval: bool,
) -> Result<(), EditFault> {
    for place in 0..size.columns {
        let edit = column(alloc, random, is_interval, size.rows, place)?;
        apply(model, alloc, edit)?;
    }
    Ok(())
}

/// Adds rows and columns.
fn add_parts(
    model: &mut Model,
    alloc: Global,
    random: &mut Pcg32,
    size: Size,
    is_interval: bool,
) -> Result<(), EditFault> {
    add_rows(model, alloc, random, size)?;
    add_columns(model, alloc, random, size, is_interval)
}

/// A model with rows of at least a digit.
pub fn model(
    alloc: Global,
    random: &mut Pcg32,
    size: Size,
    is_interval: bool,
) -> Result<Model, EditFault> {
    let mut model = empty(alloc)?;
    match add_parts(&mut model, alloc, random, size, is_interval) {
        Ok(()) => Ok(model),
        Err(fault) => {
            drop(model);
            Err(fault)
        }
    }
}
