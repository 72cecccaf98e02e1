// What the numbers of leaves prove together.
ghost use Rattle.std.specs.Prelude.{◌≡◌};
ghost use Rattle.search_parts.specs.Points.{lesser};
ghost use Rattle.dual_bounds.specs.TreeBounds.{no_value, decided_by, deciding_bound, least_of_two, least_of_numbers, value_or_infeasible, bound_of_numbers, IsRoundedBound};
ghost use Rattle.dual_bounds.specs.declared.answers.LowerBound.TheVariants.{Value};

use crate::answers::LowerBound;
use frac128::Frac;
use leaf_dual::LagValue;
use leaf_judging::{LeafNumber, finite_number};
use lp_model::Model;
use model_points::has_whole_objective;

/// What a leaf with this value says by itself, if it is not set aside.
fn no_value(value: &LagValue) -> Option<LowerBound>
    ensures { result ≡ no_value value.now }
{
    match value {
        LagValue::Minus => Some(LowerBound::NoValue),
        LagValue::Num(_) => None,
    }
}

/// What the leaf at a place, from 1, says by itself.
fn decided_by(leaf: u64, number: &LeafNumber) -> Option<LowerBound>
    ensures { result ≡ decided_by leaf number.now }
{
    match number {
        LeafNumber::Empty => None,
        LeafNumber::Lag(value) => no_value(value),
        LeafNumber::Wide(step) => Some(LowerBound::Wide { leaf, step: *step }),
    }
}

/// What the first leaf says that says something by itself.
fn deciding_bound(numbers: &[LeafNumber]) -> Option<LowerBound>
    ensures { result ≡ deciding_bound 0 numbers.now }
{
    for place in 0..numbers.len() {
        if let Some(bound) = decided_by(place as u64 + 1, &numbers[place]) {
            return Some(bound);
        }
    }
    None
}

/// The lesser of a number and another, if there is one.
fn lesser(number: Frac, other: &Option<Frac>) -> Frac
    ensures { result ≡ lesser number other.now }
{
    match other {
        Some(other) if !number.is_at_most(other) => *other,
        _ => number,
    }
}

/// The lesser of two numbers, where there are any.
pub(crate) fn least_of_two(first: Option<Frac>, second: &Option<Frac>) -> Option<Frac>
    ensures { result ≡ least_of_two first second.now }
{
    match first {
        Some(number) => Some(lesser(number, second)),
        None => *second,
    }
}

/// The least of the numbers, where there are any.
fn least_of_numbers(numbers: &[LeafNumber]) -> Option<Frac>
    ensures { result ≡ least_of_numbers numbers.now }
{
    let mut least = None;
    for number in numbers {
        least = least_of_two(least, &finite_number(number));
    }
    least
}

/// The least number as a bound, and where there is none, that no point is feasible.
fn value_or_infeasible(least: Option<Frac>) -> LowerBound
    ensures { result ≡ value_or_infeasible least }
{
    match least {
        Some(number) => LowerBound::Value(number),
        None => LowerBound::Infeasible,
    }
}

/// What the numbers of a tree's leaves, from left to right, prove together.
fn bound_of_numbers(numbers: &[LeafNumber]) -> LowerBound
    ensures { result ≡ bound_of_numbers numbers.now }
{
    match deciding_bound(numbers) {
        Some(bound) => bound,
        None => value_or_infeasible(least_of_numbers(numbers)),
    }
}

/// A number as a bound, rounded up where the objective is whole.
fn rounded_value(model: &Model, number: &Frac) -> LowerBound
    ensures { IsRoundedBound model.now (Value number.now) result }
{
    if has_whole_objective(model, 1) {
        LowerBound::Value(Frac::of_whole(number.ceil()))
    } else {
        LowerBound::Value(*number)
    }
}

/// The bound with its value, if it has one, rounded up where the objective is whole.
fn rounded_bound(model: &Model, bound: &LowerBound) -> LowerBound
    ensures { IsRoundedBound model.now bound.now result }
{
    match bound {
        LowerBound::Value(number) => rounded_value(model, number),
        LowerBound::NoValue => LowerBound::NoValue,
        LowerBound::Infeasible => LowerBound::Infeasible,
        LowerBound::Wide { leaf, step } => LowerBound::Wide {
            leaf: *leaf,
            step: *step,
        },
    }
}

/// What the numbers of a tree's leaves prove of a model.
pub(crate) fn proved_bound(model: &Model, numbers: &[LeafNumber]) -> LowerBound
    ensures { IsRoundedBound model.now (bound_of_numbers numbers.now) result }
{
    rounded_bound(model, &bound_of_numbers(numbers))
}
