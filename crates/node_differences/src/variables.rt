// The variables that stand in one of two lists alone.
ghost use Rattle.std.specs.Prelude.{◌≡◌, IfOk};
ghost use Rattle.node_differences.specs.Differences.{differing};
ghost use Rattle.node_differences.specs.private.Steps.{alone_in};

use crate::order::{Next, add, first_behind, next_of, second_behind};
use lp_model::{List, Var};
use std::alloc::{AllocError, Global};

/// The next variable, where it stands in one list alone.
fn alone(next: Next, first: &[Var], second: &[Var]) -> Option<Var>
    ensures { result ≡ alone_in next first.now second.now }
{
    match next {
        Next::First => first.first().copied(),
        Next::Second => second.first().copied(),
        Next::Both => None,
    }
}

/// The variables that stand in exactly one of two rising lists.
pub(crate) fn differing(
    alloc: Global,
    first: &[Var],
    second: &[Var],
) -> Result<List<Var>, AllocError>
    ensures { IfOk result (λ vs. vs ≡ differing first.now second.now) }
{
    let mut found = List::new(alloc);
    let mut one = first;
    let mut other = second;
    while let Some(next) = next_of(one, other) {
        let Ok(()) = add(&mut found, alone(next, one, other)) else {
            drop(found);
            return Err(AllocError);
        };
        one = first_behind(next, one);
        other = second_behind(next, other);
    }
    Ok(found)
}
