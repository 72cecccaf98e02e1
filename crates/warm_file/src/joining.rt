// Parts that are read one behind the other.
ghost use Rattle.std.specs.Prelude.{Result as Said};
ghost use Rattle.serde_json.specs.View.{view};
ghost use Rattle.warm_file.specs.Faults.{Fault};
ghost use Rattle.warm_file.specs.private.Faults.{SaysFault};
ghost use Rattle.warm_file.specs.Values.{member};
ghost use Rattle.warm_file.specs.private.Joined.{both_of};

use crate::fault::WarmFault;
use crate::parts::{Part, member};
use serde_json::Value;
use std::alloc::Global;

/// What two parts state, the second read behind the first: both values, or the first fault.
pub(crate) fn both<A: Drop, B: Drop>(
    first: Result<A, WarmFault>,
    second: Result<B, WarmFault>,
) -> Result<(A, B), WarmFault>
    ensures { (f : Said A Fault) (s : Said B Fault) → SaysFault f first → SaysFault s second → SaysFault (both_of f s) result }
{
    match first {
        Ok(first) => match second {
            Ok(second) => Ok((first, second)),
            Err(fault) => {
                drop(first);
                Err(fault)
            }
        },
        Err(fault) => {
            drop(second);
            Err(fault)
        }
    }
}

/// What the values of two keys state, of an object, the second read behind the first.
pub(crate) fn two_members<A: Drop, P: Part<A>>(
    alloc: Global,
    object: &Value,
    first: &str,
    second: &str,
    part: &P,
) -> Result<(A, A), WarmFault>
    ensures { SaysFault (both_of (member first.now (P.states part.now) (view object.now)) (member second.now (P.states part.now) (view object.now))) result }
{
    let one = member(alloc, object, first, part);
    let other = member(alloc, object, second, part);
    both(one, other)
}
