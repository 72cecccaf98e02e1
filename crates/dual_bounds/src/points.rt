// The kept points at a model.
ghost use Rattle.std.specs.Prelude.{◌≡◌};
ghost use Rattle.dual_bounds.specs.TreeBounds.{upper_bound, IsPointBound};
ghost use Rattle.dual_bounds.specs.private.Walk.{IsLeastFeasible};

use crate::answers::UpperBound;
use crate::numbers::least_of_two;
use frac128::Frac;
use lp_model::{Model, Point};
use search_parts::keepable_value;

/// The least value of those of the points that are feasible.
fn least_feasible(model: &Model, points: &[Point]) -> Option<Frac>
    ensures { IsLeastFeasible model.now points.now result }
{
    let mut least = None;
    for point in points {
        least = least_of_two(least, &keepable_value(model, point));
    }
    least
}

/// The least value as a bound.
fn upper_bound(least: Option<Frac>) -> UpperBound
    ensures { result ≡ upper_bound least }
{
    match least {
        Some(value) => UpperBound::Value(value),
        None => UpperBound::NoValue,
    }
}

/// The best of the points that are feasible in the model.
pub(crate) fn point_bound(model: &Model, points: &[Point]) -> UpperBound
    ensures { IsPointBound model.now points.now result }
{
    upper_bound(least_feasible(model, points))
}
