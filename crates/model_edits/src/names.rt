// Numbers beside names, and which of the names there are.
ghost use Rattle.std.specs.Prelude.{◌≡◌, ◌↔◌, ◌<◌, ◌≤◌, ◌^◌, [], map, length, get_or, IsTrue, All, Contains, MatchOption, bytes_eq, IfOk};
ghost use Rattle.lp_model.specs.Edits.{number_beside, entries_beside};
ghost use Rattle.model_edits.specs.Faults.{IsFirstUnknown};
ghost use Rattle.model_edits.specs.private.Faults.{IsUnknownName};

use crate::faults::{EditFault, no_such};
use frac128::Frac;
use lp_model::{HasName, List, Name, RowId, is_zero, place_of};
use std::alloc::{AllocError, Global};

/// Whether two names have the same bytes.
pub fn is_same(first: &Name, second: &Name) -> bool
    ensures { result ≡ bytes_eq first.now second.now }
{
    first.as_slice() == second.as_slice()
}

/// Whether one of the items has the name.
pub fn has_name<T: HasName>(items: &[T], name: &Name) -> bool
    ensures { IsTrue result ↔ Contains (map T.name items.now) name.now }
{
    place_of(items, name.as_slice()).is_some()
}

/// The number beside a name: the first, and 0 where there is none.
pub fn number_beside(name: &Name, named: &[(Name, Frac)]) -> Frac
    ensures { result ≡ number_beside name.now named.now }
{
    for (other, number) in named {
        if is_same(other, name) {
            return *number;
        }
    }
    Frac::whole(0)
}

/// The place of the first name that none of the items has.
pub fn first_unknown<T: HasName>(items: &[T], named: &[(Name, Frac)]) -> Option<usize>
    ensures { MatchOption result (All (Contains (map T.name items.now)) (map (λ e. e.0) named.now)) (λ k. (k < length named.now) × IsFirstUnknown (map T.name items.now) (map (λ e. e.0) named.now) (get_or (map (λ e. e.0) named.now) k [])) }
{
    for (place, (name, _)) in named.iter().enumerate() {
        if !has_name(items, name) {
            return Some(place);
        }
    }
    None
}

/// The fault of the first name that none of the items has.
pub(crate) fn unknown_name<T: HasName>(items: &[T], named: &[(Name, Frac)]) -> Option<EditFault>
    ensures { MatchOption result (All (Contains (map T.name items.now)) (map (λ e. e.0) named.now)) (IsUnknownName (map T.name items.now) (map (λ e. e.0) named.now)) }
{
    match first_unknown(items, named) {
        Some(place) => Some(no_such(&named[place].0)),
        None => None,
    }
}

/// The places and the numbers of the items whose number is not 0.
pub fn entries_beside<T: HasName>(
    alloc: Global,
    items: &[T],
    named: &[(Name, Frac)],
) -> Result<List<(RowId, Frac)>, AllocError>
    requires { length items.now < 2 ^ 32 }
    ensures { IfOk result (λ es. es ≡ entries_beside 0 (map T.name items.now) named.now) }
{
    let mut entries = List::new(alloc);
    for (place, item) in items.iter().enumerate() {
        let number = number_beside(item.name(), named);
        if !is_zero(&number) {
            let Ok(()) = entries.push((RowId(place as u32), number)) else {
                drop(entries);
                return Err(AllocError);
            };
        }
    }
    Ok(entries)
}

/// How many of the items have a number that is not 0.
pub fn count_beside<T: HasName>(items: &[T], named: &[(Name, Frac)]) -> usize
    ensures count { result ≡ length (entries_beside 0 (map T.name items.now) named.now) }
    ensures few { result ≤ length items.now }
{
    let mut count = 0;
    for item in items {
        if !is_zero(&number_beside(item.name(), named)) {
            count += 1;
        }
    }
    count
}
