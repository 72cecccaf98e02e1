// The order of variables, and which of two rising lists has the next one.
ghost use Rattle.std.specs.Prelude.{◌≡◌, [], ◌∷◌, ◌++◌, map, Some, IfOk};
ghost use Rattle.lp_model.specs.declared.types.Var.{Var as Variable};
ghost use Rattle.node_differences.specs.Order.{stands_before, are_rising};
ghost use Rattle.node_differences.specs.private.Next.{next_in, first_behind, second_behind};
ghost use Rattle.node_differences.specs.private.Steps.{as_list};

use frac128::Frac;
use lp_model::{List, Var};
use std::alloc::AllocError;

/// What stands beside a variable, or is one.
pub(crate) trait Ranked {
    ghost variable: { Self → Variable };

    fn variable(&self) -> Var
        ensures { result ≡ variable self.now };
}

impl Ranked for Var {
    ghost variable = { λ v. v };

    fn variable(&self) -> Var {
        *self
    }
}

impl Ranked for (Var, Frac) {
    ghost variable = { λ m. m.0 };

    fn variable(&self) -> Var {
        self.0
    }
}

/// Whether one variable stands before the other.
pub(crate) fn stands_before(one: Var, other: Var) -> bool
    ensures { result ≡ stands_before one other }
{
    match (one, other) {
        (Var::Col(one), Var::Col(other)) => one.0 < other.0,
        (Var::Row(one), Var::Row(other)) => one.0 < other.0,
        (Var::Cut(one), Var::Cut(other)) => one.0 < other.0,
        (Var::Col(_), Var::Row(_)) => true,
        (Var::Col(_), Var::Cut(_)) => true,
        (Var::Row(_), Var::Cut(_)) => true,
        (Var::Row(_), Var::Col(_)) => false,
        (Var::Cut(_), Var::Col(_)) => false,
        (Var::Cut(_), Var::Row(_)) => false,
    }
}

/// Whether each of these stands before the next.
pub(crate) fn are_rising<A: Ranked>(items: &[A]) -> bool
    ensures { result ≡ are_rising (map A.variable items.now) }
{
    let mut rest = items;
    while let [one, more @ ..] = rest {
        if let [other, ..] = more {
            if !stands_before(one.variable(), other.variable()) {
                return false;
            }
        }
        rest = more;
    }
    true
}

/// Which of two rising lists has the next variable.
#[derive(Clone, Copy, Drop)]
pub(crate) enum Next {
    First,
    Second,
    Both,
}

/// Which list has the next one of these.
fn next_of_two(one: Var, other: Var) -> Next
    ensures { Some result ≡ next_in (λ (v : Variable). v) (one ∷ []) (other ∷ []) }
{
    if stands_before(one, other) {
        Next::First
    } else if stands_before(other, one) {
        Next::Second
    } else {
        Next::Both
    }
}

/// Which of two rising lists has the next variable, and None where both are at their ends.
pub(crate) fn next_of<A: Ranked>(first: &[A], second: &[A]) -> Option<Next>
    ensures { result ≡ next_in A.variable first.now second.now }
{
    match first {
        [] => match second {
            [] => None,
            [_, ..] => Some(Next::Second),
        },
        [one, ..] => match second {
            [] => Some(Next::First),
            [other, ..] => Some(next_of_two(one.variable(), other.variable())),
        },
    }
}

/// The first list behind the next variable.
pub(crate) fn first_behind<A>(next: Next, first: &[A]) -> &[A]
    ensures { result.now ≡ first_behind next first.now }
{
    match next {
        Next::Second => first,
        Next::First | Next::Both => match first {
            [] => first,
            [_, more @ ..] => more,
        },
    }
}

/// The second list behind the next variable.
pub(crate) fn second_behind<A>(next: Next, second: &[A]) -> &[A]
    ensures { result.now ≡ second_behind next second.now }
{
    match next {
        Next::First => second,
        Next::Second | Next::Both => match second {
            [] => second,
            [_, more @ ..] => more,
        },
    }
}

/// Puts an item behind the others, where there is one.
pub(crate) fn add<A: Drop>(found: &mut List<A>, item: Option<A>) -> Result<(), AllocError>
    ensures { IfOk result (λ _. found.new ≡ found.old ++ as_list item) }
{
    match item {
        None => Ok(()),
        Some(item) => found.push(item),
    }
}
