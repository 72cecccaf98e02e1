// Numbers beside names: one for each name, and the entries of those that are not 0.
ghost use Rattle.std.specs.Prelude.{◌≡◌, ◌∷◌, ◌++◌, ◌<◌, ◌^◌, [], List as Items, length, IfOk, OnOk};
ghost use Rattle.lp_model.specs.Edits.{entry_at};
ghost use Rattle.mps_model.specs.Meaning.{row_number_beside, row_numbers_beside, row_entries_from, beside_objective, beside_second};

use crate::names::Names;
use frac128::Frac;
use lp_model::{List, Name, RowId, is_zero};
use mps_sections::RowNumber;
use std::alloc::{AllocError, Global};

/// The first number beside the name, 0 where there is none.
fn number_beside(numbers: &[RowNumber], name: &[u8]) -> Frac
    ensures { result ≡ row_number_beside name.now numbers.now }
{
    for item in numbers {
        if item.row.as_slice() == name {
            return item.number;
        }
    }
    Frac::whole(0)
}

/// The first objective's number, 0 where there is no objective.
pub(crate) fn beside_objective(objectives: &[Name], numbers: &[RowNumber]) -> Frac
    ensures { result ≡ beside_objective objectives.now numbers.now }
{
    match objectives {
        [name, ..] => number_beside(numbers, name.as_slice()),
        [] => Frac::whole(0),
    }
}

/// The second objective's number, 0 where there is no second objective.
pub(crate) fn beside_second(objectives: &[Name], numbers: &[RowNumber]) -> Frac
    ensures { result ≡ beside_second objectives.now numbers.now }
{
    match objectives {
        [_, name, ..] => number_beside(numbers, name.as_slice()),
        _ => Frac::whole(0),
    }
}

/// No numbers beside any name.
fn zeros(alloc: Global, names: &[Name]) -> Result<Vec<Frac>, AllocError>
    ensures { IfOk result (λ zeros. zeros.items ≡ row_numbers_beside names.now []) }
{
    let mut zeros = Vec::new(alloc);
    for _name in names {
        let Ok(()) = zeros.push(Frac::whole(0)) else {
            drop(zeros);
            return Err(AllocError);
        };
    }
    Ok(zeros)
}

/// The numbers with one in front of those that they stand for, which counts where it has the name.
fn set_number(numbers: &mut [Frac], names: &Names, item: &RowNumber)
    requires { length numbers.old ≡ length names.now.names }
    ensures length { length numbers.new ≡ length numbers.old }
    ensures steps { (behind : Items RowNumber) → numbers.old ≡ row_numbers_beside names.now.names behind → numbers.new ≡ row_numbers_beside names.now.names (item.now ∷ behind) }
{
    match names.find(item.row.as_slice()) {
        Some(place) => numbers[place] = item.number,
        None => {}
    }
}

/// The numbers in their places, from the last one on, so that the first one counts where there are several.
fn set_numbers(found: &mut [Frac], names: &Names, numbers: &[RowNumber])
    requires { length found.old ≡ length names.now.names }
    ensures { found.old ≡ row_numbers_beside names.now.names [] → found.new ≡ row_numbers_beside names.now.names numbers.now }
{
    let count = numbers.len();
    for done in 0..count {
        set_number(found, names, &numbers[count - 1 - done]);
    }
}

/// The number beside each name, the first where there are several.
pub(crate) fn numbers_beside(
    alloc: Global,
    names: &Names,
    numbers: &[RowNumber],
) -> Result<Vec<Frac>, AllocError>
    ensures { IfOk result (λ found. found.items ≡ row_numbers_beside names.now.names numbers.now) }
{
    let Ok(mut found) = zeros(alloc, names.names.as_slice()) else {
        return Err(AllocError);
    };
    set_numbers(found.as_mut_slice(), names, numbers);
    Ok(found)
}

/// The entries with a number at its place, where it isn't 0.
fn push_entry(
    entries: &mut List<(RowId, Frac)>,
    place: usize,
    number: &Frac,
) -> Result<(), AllocError>
    requires { place < 2 ^ 32 }
    ensures { OnOk result (entries.new ≡ entries.old ++ entry_at place number.now) }
{
    if is_zero(number) {
        return Ok(());
    }
    entries.push((RowId(place as u32), *number))
}

/// The numbers that are not 0, by their places.
pub(crate) fn entries_of(alloc: Global, numbers: &[Frac]) -> Result<List<(RowId, Frac)>, AllocError>
    requires { length numbers.now < 2 ^ 32 }
    ensures { IfOk result (λ entries. entries ≡ row_entries_from 0 numbers.now) }
{
    let mut entries = List::new(alloc);
    for place in 0..numbers.len() {
        let Ok(()) = push_entry(&mut entries, place, &numbers[place]) else {
            drop(entries);
            return Err(AllocError);
        };
    }
    Ok(entries)
}
