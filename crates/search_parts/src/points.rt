// The kept points of a search, and which is the best.
ghost use Rattle.std.specs.Prelude.{◌≡◌, ◌↔◌, ◌<◌, ◌++◌, ◌∷◌, IsTrue, IfOk, MatchOption, [], length, vec_len, Some};
ghost use Rattle.search_parts.specs.Points.{IsOldestLeast, lesser};
ghost use Rattle.search_parts.specs.Joining.{IsOldestGreatestOf, IsWorst, IsPlaceWithin, list_without, IsLeastValue, Joins};

use frac128::Frac;
use lp_model::POINT_LIMIT;
use std::alloc::{AllocError, Global};

/// The values of the kept points and of one more, without the worst beyond `POINT_LIMIT`.
#[derive(Drop)]
pub struct Joined {
    pub values: Vec<Frac>,
    pub worst: Option<usize>,
    pub target: Option<Frac>,
}

/// Whether the two are one number, or both none.
#[tactic(auto, using(frac128::proofs::Comparison::comparisons))]
pub fn is_same_value(first: &Option<Frac>, second: &Option<Frac>) -> bool
    ensures { IsTrue result ↔ (first.now ≡ second.now) }
{
    match (first, second) {
        (None, None) => true,
        (Some(one), Some(other)) => *one == *other,
        _ => false,
    }
}

/// The place of the least value, the first of equals.
pub fn oldest_least(values: &[Frac]) -> Option<usize>
    ensures { MatchOption result (values.now ≡ []) (λ k. IsOldestLeast values.now k) }
{
    if values.is_empty() {
        return None;
    }
    let mut best = 0;
    for place in 1..values.len() {
        if values[place].is_below(&values[best]) {
            best = place;
        }
    }
    Some(best)
}

/// The place of the greatest value, the first of equals.
fn oldest_greatest(values: &[Frac]) -> usize
    requires { 0 < length values.now }
    ensures { IsOldestGreatestOf values.now (length values.now) result }
{
    let mut worst = 0;
    for place in 1..values.len() {
        if values[worst].is_below(&values[place]) {
            worst = place;
        }
    }
    worst
}

/// The place of the value that goes where there are too many.
fn worst_of(values: &[Frac]) -> Option<usize>
    ensures { IsWorst values.now result }
{
    if values.len() > POINT_LIMIT {
        Some(oldest_greatest(values))
    } else {
        None
    }
}

/// The values and one more.
fn with_value(alloc: Global, values: &[Frac], value: Frac) -> Result<Vec<Frac>, AllocError>
    ensures { IfOk result (λ more. more.items ≡ values.now ++ value ∷ []) }
{
    let mut more = match Vec::from_slice(alloc, values) {
        Ok(more) => more,
        Err(error) => return Err(error),
    };
    match more.push(value) {
        Ok(()) => Ok(more),
        Err(failed) => Err(failed.into()),
    }
}

/// Takes out what stands at a place, if one is given.
pub fn take_out<T: Drop>(items: &mut Vec<T>, place: Option<usize>)
    requires { IsPlaceWithin (vec_len items.old) place }
    ensures { items.new.items ≡ list_without items.old.items place }
{
    if let Some(place) = place {
        let _ = items.remove(place);
    }
}

/// The least of the values.
pub fn least_of(values: &[Frac]) -> Option<Frac>
    ensures { IsLeastValue values.now result }
{
    match oldest_least(values) {
        None => None,
        Some(place) => Some(values[place]),
    }
}

/// The values and one more, without the worst beyond `POINT_LIMIT`.
pub fn join_value(alloc: Global, values: &[Frac], value: Frac) -> Result<Joined, AllocError>
    ensures { IfOk result (λ joined. Joins values.now value joined) }
{
    let mut more = match with_value(alloc, values, value) {
        Ok(more) => more,
        Err(error) => return Err(error),
    };
    let worst = worst_of(&more);
    take_out(&mut more, worst);
    let target = least_of(&more);
    Ok(Joined {
        values: more,
        worst,
        target,
    })
}
