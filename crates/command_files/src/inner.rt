// The rows and columns that a step on the way to a front, or to the verdict on one, may be of.
ghost use Rattle.std.specs.Prelude.{◌≡◌, false, IfOk};
ghost use Rattle.command_files.specs.Checking.{inner_program};

use frac128::Frac;
use gap_models::{Gap, bare_model, gap_model};
use inner_models::bare_room_law;
use lp_model::{Model, show_model};
use std::alloc::{AllocError, Global};

/// A model with the names of the rows and columns of all inner models.
pub fn inner_model(alloc: Global, model: &Model) -> Result<Model, AllocError>
    requires { model.now.wide ≡ false }
    ensures { IfOk result (λ m. m ≡ inner_program model.now) }
{
    show_model(model);
    bare_room_law();
    let zero = Frac::whole(0);
    let gap = Gap {
        a: zero,
        b: zero,
        width: zero,
        side1: zero,
        side2: zero,
    };
    let bare = bare_model(alloc, model)?;
    gap_model(alloc, &bare, &gap)
}
