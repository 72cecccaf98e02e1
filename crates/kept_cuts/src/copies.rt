// The derivations of cuts.
ghost use Rattle.std.specs.Prelude.{◌≡◌, IfOk};
ghost use Rattle.kept_cuts.specs.Kept.{derivations_of};

use lp_model::{CutRow, Derivation, List};
use std::alloc::{AllocError, Global};

/// An equal derivation.
pub fn copy_derivation(from: &Derivation) -> Result<Derivation, AllocError>
    ensures { IfOk result (λ copy. copy ≡ from.now) }
{
    from.clone()
}

/// Copies of the derivations of cuts, in their order.
pub fn derivations(alloc: Global, cuts: &[CutRow]) -> Result<List<Derivation>, AllocError>
    ensures { IfOk result (λ list. list ≡ derivations_of cuts.now) }
{
    let mut list = List::new(alloc);
    for cut in cuts {
        let Ok(copy) = copy_derivation(&cut.from) else {
            return Err(AllocError);
        };
        let Ok(()) = list.push(copy) else {
            return Err(AllocError);
        };
    }
    Ok(list)
}
