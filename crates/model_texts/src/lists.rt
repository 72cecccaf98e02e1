// Lists by the names of a model: variables, points, multipliers, regions, bases.
ghost use Rattle.std.specs.Prelude.{IsTrue};
ghost use Rattle.lp_model.specs.Regions.{AreNarrow};

use crate::words::{Words, fault};
use anyhow::{Result, ensure};
use frac128::Frac;
use lp_model::{
    Basis, Bound, BoundChange, ColId, CutId, List, Model, Mult, Point, Region, RowId, Side, Var,
};
use std::alloc::{AllocError, Global};

/// The place behind a kind and a `#`.
fn place_of(word: &str, kind: &str) -> Option<u32> {
    let number = word.strip_prefix(kind)?.strip_prefix("#")?;
    number.parse::<u32>().ok()
}

/// The variable of a kind and a place.
fn placed(word: &str) -> Option<Var> {
    if let Some(place) = place_of(word, "column") {
        return Some(Var::Col(ColId(place)));
    }
    if let Some(place) = place_of(word, "row") {
        return Some(Var::Row(RowId(place)));
    }
    match place_of(word, "cut") {
        Some(place) => Some(Var::Cut(CutId(place))),
        None => None,
    }
}

/// The variable that a word names: a column of the model, else a row of it, else by kind and place.
pub fn variable_of(model: &Model, word: &str) -> Result<Var> {
    if let Some(col) = model.find_col(word.as_bytes()) {
        return Ok(Var::Col(col));
    }
    if let Some(row) = model.find_row(word.as_bytes()) {
        return Ok(Var::Row(row));
    }
    match placed(word) {
        Some(variable) => Ok(variable),
        None => Err(fault("no column, row or cut", word)),
    }
}

/// The column that a word names.
pub fn column_of(model: &Model, word: &str) -> Result<ColId> {
    match variable_of(model, word)? {
        Var::Col(col) => Ok(col),
        _ => Err(fault("no column", word)),
    }
}

/// Takes the next word, which names a variable.
fn take_variable(model: &Model, words: &mut Words) -> Result<Var> {
    let word = words.next("variable")?;
    let variable = variable_of(model, &word);
    drop(word);
    variable
}

/// Takes variables up to the end, or to a word, and puts them behind others.
fn take_variables(
    list: &mut List<Var>,
    model: &Model,
    words: &mut Words,
    end: Option<&str>,
) -> Result<()> {
    for _ in 0..words.most() {
        if words.is_done() || is_at(words, end) {
            break;
        }
        let variable = take_variable(model, words)?;
        list.push(variable)?;
    }
    Ok(())
}

fn is_at(words: &mut Words, end: Option<&str>) -> bool {
    match end {
        Some(word) => words.takes(word),
        None => false,
    }
}

/// The variables up to the end, or to a word.
fn variables_to(
    alloc: Global,
    model: &Model,
    words: &mut Words,
    end: Option<&str>,
) -> Result<List<Var>> {
    let mut list = List::new(alloc);
    match take_variables(&mut list, model, words, end) {
        Ok(()) => Ok(list),
        Err(error) => {
            drop(list);
            Err(error)
        }
    }
}

/// The variables that the words left name.
pub fn variables_of(alloc: Global, model: &Model, words: &mut Words) -> Result<List<Var>> {
    variables_to(alloc, model, words, None)
}

fn take_multipliers(list: &mut Mult, model: &Model, words: &mut Words) -> Result<()> {
    for _ in 0..words.most() {
        if words.is_done() {
            break;
        }
        let variable = take_variable(model, words)?;
        let number = words.number()?;
        list.push((variable, number))?;
    }
    Ok(())
}

/// The multipliers that the words left say: `A 1/2 B -1`.
pub fn multipliers_of(alloc: Global, model: &Model, words: &mut Words) -> Result<Mult> {
    let mut list = List::new(alloc);
    match take_multipliers(&mut list, model, words) {
        Ok(()) => Ok(list),
        Err(error) => {
            drop(list);
            Err(error)
        }
    }
}

/// The number of a column in a list by columns, 0 where it is not named.
fn number_in(list: &[(Var, Frac)], place: usize) -> Frac {
    for (variable, number) in list {
        match variable {
            Var::Col(col) if col.0 as usize == place => return *number,
            _ => {}
        }
    }
    Frac::whole(0)
}

fn push_numbers(
    point: &mut Point,
    model: &Model,
    numbers: &[(Var, Frac)],
) -> Result<(), AllocError> {
    for place in 0..model.cols().len() {
        point.push(number_in(numbers, place))?;
    }
    Ok(())
}

/// The point that the words left say: `x 1 y 1/2`, and 0 for each column that is not named.
pub fn point_of(alloc: Global, model: &Model, words: &mut Words) -> Result<Point> {
    let numbers = multipliers_of(alloc, model, words)?;
    let mut point = List::new(alloc);
    let pushed = push_numbers(&mut point, model, numbers.as_slice());
    drop(numbers);
    match pushed {
        Ok(()) => Ok(point),
        Err(error) => {
            drop(point);
            Err(error.into())
        }
    }
}

/// Puts the change of a bound behind those of a region, where there is a bound.
fn push_change(region: &mut Region, col: ColId, side: Side, bound: &Bound) -> Result<()> {
    if let Some(number) = bound {
        ensure!(number.is_whole(), "no whole number: {number}");
        let v = number.floor();
        region.push(BoundChange { col, side, v })?;
    }
    Ok(())
}

/// Takes a column and its bounds, and puts their changes behind those of a region.
fn take_changes(region: &mut Region, model: &Model, words: &mut Words) -> Result<()> {
    let word = words.next("column")?;
    let col = column_of(model, &word);
    drop(word);
    let col = col?;
    let (low, high) = words.range()?;
    push_change(region, col, Side::Lo, &low)?;
    push_change(region, col, Side::Hi, &high)
}

fn take_region(region: &mut Region, model: &Model, words: &mut Words) -> Result<()> {
    for _ in 0..words.most() {
        if words.is_done() {
            break;
        }
        take_changes(region, model, words)?;
    }
    Ok(())
}

/// The region that the words left say: `x 0..1 y ..3`, in this order, of a column the lower bound first.
pub fn region_of(alloc: Global, model: &Model, words: &mut Words) -> Result<Region> {
    let mut region = List::new(alloc);
    match take_region(&mut region, model, words) {
        Ok(()) => Ok(region),
        Err(error) => {
            drop(region);
            Err(error)
        }
    }
}

/// Whether a fraction has room for each number of a region. So it is of a region that words said.
pub fn is_narrow_region(region: &[BoundChange]) -> bool
    ensures { IsTrue result → AreNarrow region.now }
{
    match region.split_first() {
        None => true,
        Some((change, rest)) => change.v > i128::MIN && is_narrow_region(rest),
    }
}

/// The basis that the words left say: `A x high y`.
pub fn basis_of(alloc: Global, model: &Model, words: &mut Words) -> Result<Basis> {
    let basic = variables_to(alloc, model, words, Some("high"))?;
    match variables_of(alloc, model, words) {
        Ok(high) => Ok(Basis { basic, high }),
        Err(error) => {
            drop(basic);
            Err(error)
        }
    }
}
