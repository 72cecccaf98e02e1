// What is told where a sweep ends at a part.
ghost use Rattle.std.specs.Prelude.{◌≡◌, [], map, IfOk};
ghost use Rattle.frontier.specs.Covers.{IsFront};
ghost use Rattle.front_check.specs.Accepted.{outcome_of};
ghost use Rattle.wcn_driver.specs.private.Kept.{UnlessMemory};
ghost use Rattle.wcn_driver.specs.private.Told.{shown_outcome, IsToldAtPart};

use crate::answers::{Mc, Part};
use crate::found::Found;
use crate::settling::Halt;
use front_text::FrontOutcome;
use frontier::{Front, Outcome};
use std::alloc::{AllocError, Global};

/// The two values that a certificate states of an outcome.
fn outcome_shown(shown: &FrontOutcome) -> Outcome
    ensures { result ≡ outcome_of shown.now }
{
    Outcome {
        f1: shown.v1,
        f2: shown.v2,
    }
}

/// The front of the outcomes that are found, with the constants.
pub(crate) fn front_of(alloc: Global, found: &[Found]) -> Result<Front, AllocError>
    requires { IsFront (map shown_outcome found.now) }
    ensures { IfOk result (λ front. front ≡ map shown_outcome found.now) }
{
    let mut front = Front::new(alloc);
    for item in found {
        let Ok(_) = front.insert(outcome_shown(&item.shown)) else {
            drop(front);
            return Err(AllocError);
        };
    }
    Ok(front)
}

/// The same, where what is found goes.
fn last_front(alloc: Global, found: Vec<Found>) -> Result<Front, AllocError>
    requires { IsFront (map shown_outcome found.items) }
    ensures { IfOk result (λ front. front ≡ map shown_outcome found.items) }
{
    let front = front_of(alloc, &found);
    drop(found);
    front
}

/// The answer where a sweep ends at a part, with what is found until then.
pub(crate) fn told(alloc: Global, found: Vec<Found>, part: Part, halt: Halt) -> Mc
    requires { UnlessMemory (IsFront (map shown_outcome found.items)) halt }
    ensures { IsToldAtPart (map shown_outcome found.items) part halt result }
{
    match halt {
        Halt::Memory => {
            drop(found);
            Mc::Memory
        }
        Halt::Wide(place) => match last_front(alloc, found) {
            Ok(front) => Mc::WideScale { front, part, place },
            Err(_) => Mc::Memory,
        },
        Halt::Stopped {
            why,
            results,
            bound,
            best,
        } => match last_front(alloc, found) {
            Ok(front) => Mc::Stopped {
                front,
                part,
                why,
                results,
                bound,
                best,
            },
            Err(_) => Mc::Memory,
        },
    }
}

/// The answer where a sweep ends at a part before an outcome is found.
pub(crate) fn told_without(alloc: Global, part: Part, halt: Halt) -> Mc
    ensures { IsToldAtPart [] part halt result }
{
    told(alloc, Vec::new(alloc), part, halt)
}
