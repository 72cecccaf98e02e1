// The bytes of the replies that tell a bound on the best value with other sides or costs.
ghost use Rattle.std.specs.Prelude.{◌≡◌, ◌++◌, IfOk};
ghost use Rattle.reply_texts.specs.Texts.{bound_text, wide_bound_text};

use crate::answers::write_number_or_none;
use crate::pieces::write_count;
use crate::steps::write_step;
use frac128::Frac;
use lp_model::{Model, WideStep};
use std::alloc::AllocError;

/// A bound, or that none is known.
pub fn write_bound(reply: &mut Vec<u8>, bound: &Option<Frac>) -> Result<(), AllocError>
    ensures { IfOk result (λ _. reply.new.items ≡ reply.old.items ++ bound_text bound.now) }
{
    let Ok(()) = reply.extend_from_slice(b"bound ") else {
        return Err(AllocError);
    };
    let Ok(()) = write_number_or_none(reply, bound) else {
        return Err(AllocError);
    };
    reply.extend_from_slice(b"\n")
}

/// The leaf, from 1 in preorder, in whose number a step has no room, and the step.
pub fn write_wide_bound(
    reply: &mut Vec<u8>,
    model: &Model,
    leaf: u64,
    step: &WideStep,
) -> Result<(), AllocError>
    ensures { IfOk result (λ _. reply.new.items ≡ reply.old.items ++ wide_bound_text model.now leaf step.now) }
{
    let Ok(()) = write_count(reply, b"bound wide ", leaf) else {
        return Err(AllocError);
    };
    let Ok(()) = reply.extend_from_slice(b" ") else {
        return Err(AllocError);
    };
    let Ok(()) = write_step(reply, model, step) else {
        return Err(AllocError);
    };
    reply.extend_from_slice(b"\n")
}
