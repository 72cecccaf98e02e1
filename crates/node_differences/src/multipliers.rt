// Multipliers told by how they differ from others, and had again.
ghost use Rattle.std.specs.Prelude.{◌≡◌, IfOk};
ghost use Rattle.node_differences.specs.Differences.{difference};
ghost use Rattle.node_differences.specs.Answers.{IsChanged};
ghost use Rattle.node_differences.specs.private.Steps.{told_in, made_in};
ghost use Rattle.node_differences.specs.private.Next.{passed_in};

use crate::order::{Next, add, first_behind, next_of, second_behind};
use frac128::Frac;
use lp_model::{List, Mult, Var, is_zero};
use std::alloc::{AllocError, Global};

/// Why multipliers can't be had from changes.
#[derive(Clone, Copy, Drop)]
pub enum ChangeFault {
    /// The change at this place is the first that says nothing.
    Idle(usize),
    /// There is no memory.
    Memory,
}

/// What the next variable has in a difference, if it stands there.
fn told(next: Next, former: &[(Var, Frac)], own: &[(Var, Frac)]) -> Option<(Var, Frac)>
    ensures { result ≡ told_in next former.now own.now }
{
    match next {
        Next::First => {
            let gone = former.first()?;
            Some((gone.0, Frac::whole(0)))
        }
        Next::Second => own.first().copied(),
        Next::Both => {
            let before = former.first()?;
            let now = own.first()?;
            if before.1 == now.1 { None } else { Some(*now) }
        }
    }
}

/// How multipliers differ from others.
pub(crate) fn difference(
    alloc: Global,
    former: &[(Var, Frac)],
    own: &[(Var, Frac)],
) -> Result<Mult, AllocError>
    ensures { IfOk result (λ ms. ms ≡ difference former.now own.now) }
{
    let mut found = List::new(alloc);
    let mut one = former;
    let mut other = own;
    while let Some(next) = next_of(one, other) {
        let Ok(()) = add(&mut found, told(next, one, other)) else {
            drop(found);
            return Err(AllocError);
        };
        one = first_behind(next, one);
        other = second_behind(next, other);
    }
    Ok(found)
}

/// What the next variable has once it is changed, if it stands there, or None where the change says nothing.
fn made(next: Next, former: &[(Var, Frac)], changes: &[(Var, Frac)]) -> Option<Option<(Var, Frac)>>
    ensures { result ≡ made_in next former.now changes.now }
{
    match next {
        Next::First => Some(former.first().copied()),
        Next::Second => {
            let change = changes.first()?;
            if is_zero(&change.1) {
                None
            } else {
                Some(Some(*change))
            }
        }
        Next::Both => {
            let before = former.first()?;
            let change = changes.first()?;
            if before.1 == change.1 {
                None
            } else if is_zero(&change.1) {
                Some(None)
            } else {
                Some(Some(*change))
            }
        }
    }
}

/// How many changes are passed.
fn passed(next: Next) -> usize
    ensures { result ≡ passed_in next }
{
    match next {
        Next::First => 0,
        Next::Second | Next::Both => 1,
    }
}

/// The multipliers with these changes, or the first change that says nothing.
pub(crate) fn changed(
    alloc: Global,
    former: &[(Var, Frac)],
    changes: &[(Var, Frac)],
) -> Result<Mult, ChangeFault>
    ensures { IsChanged former.now changes.now result }
{
    let mut found = List::new(alloc);
    let mut one = former;
    let mut other = changes;
    let mut place = 0;
    while let Some(next) = next_of(one, other) {
        let Some(entry) = made(next, one, other) else {
            drop(found);
            return Err(ChangeFault::Idle(place));
        };
        let Ok(()) = add(&mut found, entry) else {
            drop(found);
            return Err(ChangeFault::Memory);
        };
        place += passed(next);
        one = first_behind(next, one);
        other = second_behind(next, other);
    }
    Ok(found)
}
