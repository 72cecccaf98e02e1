// Names of objectives that a text lacks: a word, or the word with _1, _2, .. behind, whichever is free first.
ghost use Rattle.std.specs.Prelude.{◌≡◌, ◌++◌, ◌∷◌, [], codes, decimal, IfOk, OnOk};
ghost use Rattle.mps_fields.specs.Words.{among};
ghost use Rattle.mps_model.specs.Meaning.{candidate, free_name, objective_or, second_or, objective_name, second_name};

use crate::names::{names_of_rows, push_copy};
use lp_model::{List, Name};
use mps_sections::{Sections, copied};
use std::alloc::{AllocError, Global};

/// Whether a name is one of some.
fn contains(names: &[Name], name: &[u8]) -> bool
    ensures { result ≡ among names.now name.now }
{
    for item in names {
        if item.as_slice() == name {
            return true;
        }
    }
    false
}

/// Puts `_` and a number behind a word.
fn push_number(alloc: Global, word: &mut Vec<u8>, number: u64) -> Result<(), AllocError>
    ensures { OnOk result (word.new.items ≡ word.old.items ++ codes "_" ++ decimal number) }
{
    let Ok(()) = word.push(b'_') else {
        return Err(AllocError);
    };
    let Ok(digits) = number.to_string(alloc) else {
        return Err(AllocError);
    };
    let written = word.extend_from_slice(digits.as_bytes());
    drop(digits);
    written
}

/// The word with a number behind it, if that isn't 0.
fn candidate(alloc: Global, base: &[u8], number: u64) -> Result<Name, AllocError>
    ensures { IfOk result (λ name. name ≡ candidate base.now number) }
{
    let Ok(mut bytes) = Vec::from_slice(alloc, base) else {
        return Err(AllocError);
    };
    if number > 0 {
        let Ok(()) = push_number(alloc, &mut bytes, number) else {
            drop(bytes);
            return Err(AllocError);
        };
    }
    Ok(List::from_vec(bytes))
}

/// The first candidate that isn't taken: one of them isn't, since there is one more than there are taken names.
fn free_name(alloc: Global, taken: &[Name], base: &[u8]) -> Result<Name, AllocError>
    ensures { IfOk result (λ name. name ≡ free_name taken.now base.now) }
{
    for number in 0..taken.len() {
        let Ok(name) = candidate(alloc, base, number as u64) else {
            return Err(AllocError);
        };
        if !contains(taken, name.as_slice()) {
            return Ok(name);
        }
    }
    candidate(alloc, base, taken.len() as u64)
}

/// The objective's name: that of the first row of type N, or a free one.
fn objective_name(alloc: Global, objectives: &[Name], rows: &[Name]) -> Result<Name, AllocError>
    ensures { IfOk result (λ name. name ≡ objective_or objectives.now (free_name rows.now (codes "OBJ"))) }
{
    match objectives {
        [name, ..] => copied(alloc, name.as_slice()),
        [] => free_name(alloc, rows, b"OBJ"),
    }
}

/// The second objective's name: that of the second row of type N, or a free one.
fn second_name(alloc: Global, objectives: &[Name], taken: &[Name]) -> Result<Name, AllocError>
    ensures { IfOk result (λ name. name ≡ second_or objectives.now (free_name taken.now (codes "OBJ2"))) }
{
    match objectives {
        [_, name, ..] => copied(alloc, name.as_slice()),
        _ => free_name(alloc, taken, b"OBJ2"),
    }
}

/// The second objective's name, where the first one's is taken too.
fn second_behind(
    alloc: Global,
    objectives: &[Name],
    taken: &mut List<Name>,
    first: &Name,
) -> Result<Name, AllocError>
    ensures { IfOk result (λ name. name ≡ second_or objectives.now (free_name (taken.old ++ first.now ∷ []) (codes "OBJ2"))) }
{
    let Ok(()) = push_copy(alloc, taken, first.as_slice()) else {
        return Err(AllocError);
    };
    second_name(alloc, objectives, taken.as_slice())
}

/// The names of both objectives, where these names are taken.
fn names_beside(
    alloc: Global,
    objectives: &[Name],
    taken: &mut List<Name>,
) -> Result<(Name, Name), AllocError>
    ensures first { IfOk result (λ names. names.0 ≡ objective_or objectives.now (free_name taken.old (codes "OBJ"))) }
    ensures second { IfOk result (λ names. names.1 ≡ second_or objectives.now (free_name (taken.old ++ names.0 ∷ []) (codes "OBJ2"))) }
{
    let Ok(first) = objective_name(alloc, objectives, taken.as_slice()) else {
        return Err(AllocError);
    };
    match second_behind(alloc, objectives, taken, &first) {
        Ok(second) => Ok((first, second)),
        Err(error) => {
            drop(first);
            Err(error)
        }
    }
}

/// The names of both objectives.
pub(crate) fn objective_names(
    alloc: Global,
    sections: &Sections,
) -> Result<(Name, Name), AllocError>
    ensures first { IfOk result (λ names. names.0 ≡ objective_name sections.now) }
    ensures second { IfOk result (λ names. names.1 ≡ second_name sections.now) }
{
    let Ok(mut taken) = names_of_rows(alloc, sections.rows.as_slice()) else {
        return Err(AllocError);
    };
    let names = names_beside(alloc, sections.objectives.as_slice(), &mut taken);
    drop(taken);
    names
}
