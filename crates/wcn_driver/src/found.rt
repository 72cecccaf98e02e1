// The outcomes that are found, with the points that show them.
ghost use Rattle.std.specs.Prelude.{◌≡◌, length, true, IfOk, Ok};
ghost use Rattle.lp_model.specs.Lawful.{column_names};
ghost use Rattle.model_points.specs.Answers.{IsFeasibilityAnswer};
ghost use Rattle.cert_check.specs.Accepted.{AreNames, point_of};
ghost use Rattle.wcn_driver.specs.private.Tasks.{IsSweepTask};
ghost use Rattle.wcn_driver.specs.private.Founds.{IsSummedOutcome, IsShownBy};

use crate::task::Task;
use frac128::Frac;
use front_parts::push_named;
use front_text::FrontOutcome;
use frontier::Outcome;
use lp_model::{List, Model, Name, Point};
use std::alloc::{AllocError, Global};

/// An outcome: without the constants, and as a certificate has it, with them.
#[derive(Drop)]
pub(crate) struct Found {
    pub(crate) outcome: Outcome,
    pub(crate) shown: FrontOutcome,
}

/// The numbers of a point beside the names of the columns.
fn named_point(
    alloc: Global,
    model: &Model,
    point: &Point,
) -> Result<List<(Name, Frac)>, AllocError>
    requires { length point.now ≡ length model.now.cols }
    ensures names { IfOk result (AreNames (column_names model.now)) }
    ensures point { IfOk result (λ named. point_of model.now named ≡ point.now) }
{
    let numbers = point.as_slice();
    let mut named = List::new(alloc);
    for (index, col) in model.cols().iter().enumerate() {
        let Ok(()) = push_named(&mut named, &col.name, numbers[index]) else {
            drop(named);
            return Err(AllocError);
        };
    }
    Ok(named)
}

/// An outcome of a point that was judged feasible, whose numbers have room, as it is found.
pub(crate) fn found_at(
    alloc: Global,
    task: &Task,
    outcome: &Outcome,
    point: &Point,
) -> Result<Found, AllocError>
    requires task { IsSweepTask task.now }
    requires judged { IsFeasibilityAnswer task.now.base point.now (Ok true) }
    requires outcome { IsSummedOutcome task.now.base task.now.constant1 task.now.constant2 point.now outcome.now }
    ensures outcome { IfOk result (λ f. f.outcome ≡ outcome.now) }
    ensures shown { IfOk result (λ f. IsShownBy task.now.base task.now.constant1 task.now.constant2 outcome.now f.shown) }
{
    let Ok(named) = named_point(alloc, &task.base, point) else {
        return Err(AllocError);
    };
    Ok(Found {
        outcome: *outcome,
        shown: FrontOutcome {
            v1: outcome.f1 + task.constant1,
            v2: outcome.f2 + task.constant2,
            point: named,
        },
    })
}
