// A basis that starts can fall back to.
ghost use Rattle.std.specs.Prelude.{IfOk, IfSome};
ghost use Rattle.relaxation_rows.specs.Firsts.{CanFallBack};

use anyhow::Result;
use dual_simplex::slack_basis;
use lp_model::{Basis, Model};
use ray_phase::{RayAnswer, first_law, ray, root_law};
use std::alloc::{AllocError, Global};

/// How many moves the ray phase may make. No row has a model that needs as many.
const MOST_MOVES: u64 = 1000;

/// The basis that the ray phase answers, if it does.
fn ray_basis(alloc: Global, model: &Model) -> Result<Option<Basis>, AllocError>
    ensures { IfOk result (λ found. IfSome found (CanFallBack model.now)) }
{
    first_law();
    root_law();
    match ray(alloc, model, MOST_MOVES) {
        RayAnswer::DualBasis(basis) => Ok(Some(basis)),
        RayAnswer::Memory => Err(AllocError),
        _ => Ok(None),
    }
}

/// The slack basis of a model where it is lawful, else the basis that the ray phase answers, if it does.
pub fn first_basis(alloc: Global, model: &Model) -> Result<Option<Basis>, AllocError>
    ensures { IfOk result (λ found. IfSome found (CanFallBack model.now)) }
{
    root_law();
    match slack_basis(alloc, model) {
        Err(error) => Err(error),
        Ok(Some(basis)) => Ok(Some(basis)),
        Ok(None) => ray_basis(alloc, model),
    }
}
