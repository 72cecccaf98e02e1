// What a sweep stands on, and the outcomes of its points.
ghost use Rattle.std.specs.Prelude.{◌≡◌, ◌↔◌, ℤ, ◌+ℤ◌, IsTrue, MatchOption};
ghost use Rattle.frac128.specs.Rational.{int};
ghost use Rattle.frac128.specs.Range.{IsNarrow, SumFits};
ghost use Rattle.lp_model.specs.Program.{IsFeasible};
ghost use Rattle.wcn_driver.specs.Answers.{IsWideOutcome};
ghost use Rattle.wcn_driver.specs.private.Tasks.{IsSweepTask};
ghost use Rattle.wcn_driver.specs.private.Founds.{IsSummedOutcome};

use frac128::Frac;
use frontier::Outcome;
use lp_model::{Model, Point};
use model_points::value;

/// What a sweep stands on: the model in least form without constants, the constants, and how many results there may be.
#[derive(Drop)]
pub(crate) struct Task {
    pub(crate) base: Model,
    pub(crate) constant1: i128,
    pub(crate) constant2: i128,
    pub(crate) nodes: u64,
}

/// Whether two numbers have a sum with room.
fn fits_beside(number: &Frac, other: &Frac) -> bool
    ensures { IsTrue result ↔ SumFits number.now other.now }
{
    number.add(other).is_ok()
}

/// Whether the sum of a whole value and a constant has room.
fn has_sum(value: &Frac, constant: i128) -> bool
    requires { IsNarrow constant }
    ensures { (z : ℤ) → value.now ≡ int z → IsTrue result ↔ IsNarrow (z +ℤ constant) }
{
    value.has_room();
    fits_beside(value, &Frac::of_whole(constant))
}

/// The outcome of a point, where its numbers have room, with the constants and without them.
pub(crate) fn outcome_at(task: &Task, point: &Point) -> Option<Outcome>
    requires task { IsSweepTask task.now }
    requires feasible { IsFeasible task.now.base point.now }
    ensures { MatchOption result (IsWideOutcome task.now.base task.now.constant1 task.now.constant2 point.now) (IsSummedOutcome task.now.base task.now.constant1 task.now.constant2 point.now) }
{
    let Ok(first) = value(&task.base, 1, point) else {
        return None;
    };
    let Ok(second) = value(&task.base, 2, point) else {
        return None;
    };
    first.has_room();
    second.has_room();
    if !has_sum(&first, task.constant1) {
        return None;
    }
    if !has_sum(&second, task.constant2) {
        return None;
    }
    Some(Outcome {
        f1: first.numerator(),
        f2: second.numerator(),
    })
}
