// The replies to commands of bounds.
ghost use Rattle.std.specs.Prelude.{◌≡◌, [], OnOk};
ghost use Rattle.shell_replies.specs.Bounds.{ShowsNumber, IsLowerTold, IsUpperTold};

use dual_bounds::{LowerBound, UpperBound};
use frac128::Frac;
use lp_model::Model;
use reply_texts::{write_bound, write_wide_bound};
use std::alloc::AllocError;

/// A number in the model's own sense.
fn write_number(reply: &mut Vec<u8>, number: Frac) -> Result<(), AllocError>
    requires { reply.old.items ≡ [] }
    ensures { OnOk result (ShowsNumber number reply.new.items) }
{
    number.has_room();
    write_bound(reply, &Some(number))
}

/// What the tree proves.
pub fn write_lower(reply: &mut Vec<u8>, model: &Model, bound: &LowerBound) -> Result<(), AllocError>
    requires { reply.old.items ≡ [] }
    ensures { OnOk result (IsLowerTold model.now bound.now reply.new.items) }
{
    match bound {
        LowerBound::Value(least) => write_number(reply, model.sense().own_sense(least)),
        LowerBound::NoValue => write_bound(reply, &None),
        LowerBound::Infeasible => reply.extend_from_slice(b"bound infeasible\n"),
        LowerBound::Wide { leaf, step } => write_wide_bound(reply, model, *leaf, step),
    }
}

/// The best of the points.
pub fn write_upper(reply: &mut Vec<u8>, model: &Model, bound: &UpperBound) -> Result<(), AllocError>
    requires { reply.old.items ≡ [] }
    ensures { OnOk result (IsUpperTold model.now bound.now reply.new.items) }
{
    match bound {
        UpperBound::Value(least) => write_number(reply, model.sense().own_sense(least)),
        UpperBound::NoValue => write_bound(reply, &None),
    }
}
