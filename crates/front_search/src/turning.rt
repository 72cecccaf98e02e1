// Fronts in the model's own sense.
ghost use Rattle.std.specs.Prelude.{◌≡◌, map, reverse, All, IfOk};
ghost use Rattle.frac128.specs.Range.{IsNarrow};
ghost use Rattle.frontier.specs.Covers.{IsFront};
ghost use Rattle.frontier.specs.Outcomes.{opposite, outcomes_in_own_sense};

use frontier::{Front, Outcome};
use lp_model::Sense;
use std::alloc::{AllocError, Global};

/// Outcomes with their numbers negated, the order turned round.
fn turned(alloc: Global, outcomes: &[Outcome]) -> Result<Front, AllocError>
    requires front { IsFront outcomes.now }
    requires narrow { All (λ o. IsNarrow o.f1 × IsNarrow o.f2) outcomes.now }
    ensures { IfOk result (λ own. own ≡ reverse (map opposite outcomes.now)) }
{
    let mut own = Front::new(alloc);
    for outcome in outcomes {
        let opposite = Outcome {
            f1: -outcome.f1,
            f2: -outcome.f2,
        };
        let Ok(_) = own.insert(opposite) else {
            drop(own);
            return Err(AllocError);
        };
    }
    Ok(own)
}

/// A front in least form as it is in the model's own sense.
pub(crate) fn in_own_sense(alloc: Global, sense: Sense, front: Front) -> Result<Front, AllocError>
    requires narrow { All (λ o. IsNarrow o.f1 × IsNarrow o.f2) front }
    ensures { IfOk result (λ own. own ≡ outcomes_in_own_sense sense front) }
{
    match sense {
        Sense::Min => Ok(front),
        Sense::Max => {
            let own = turned(alloc, front.as_slice());
            drop(front);
            own
        }
    }
}
