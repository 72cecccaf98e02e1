// The tightest changes of a path that is given whole.
ghost use Rattle.std.specs.Prelude.{◌≡◌, IfOk, OnOk};
ghost use Rattle.lp_model.specs.Regions.{AreNarrow};
ghost use Rattle.tight_regions.specs.Tight.{tightened};
ghost use Rattle.tight_regions.specs.SameBounds.{SameBounds};

use crate::trail::{place_of, tighter};
use lp_model::BoundChange;
use std::alloc::{AllocError, Global};

/// Puts one more change into a region: the tighter of two for the same side of the same column stands there.
fn put(region: &mut Vec<BoundChange>, change: &BoundChange) -> Result<(), AllocError>
    ensures { OnOk result (region.new.items ≡ tightened region.old.items change.now) }
{
    let place = place_of(region.as_slice(), change);
    if place < region.len() {
        region[place] = tighter(&region[place], change);
        return Ok(());
    }
    match region.push(*change) {
        Ok(()) => Ok(()),
        Err(_) => Err(AllocError),
    }
}

/// The tightest changes of a path, at most one for each side of each column: they leave the bounds that the path leaves.
pub fn tightest(alloc: Global, path: &[BoundChange]) -> Result<Vec<BoundChange>, AllocError>
    ensures bounds { IfOk result (λ region. SameBounds region.items path.now) }
    ensures narrow { IfOk result (λ region. AreNarrow path.now → AreNarrow region.items) }
{
    let mut region = Vec::new(alloc);
    for change in path {
        let Ok(()) = put(&mut region, change) else {
            return Err(AllocError);
        };
    }
    Ok(region)
}
