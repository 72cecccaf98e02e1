// Regions that a relaxation may be taken in.
ghost use Rattle.std.specs.Prelude.{◌≡◌, ◌<◌, length, IsTrue};
ghost use Rattle.lp_model.specs.Program.{is_integer};
ghost use Rattle.lp_model.specs.Regions.{AreNarrow};
ghost use Rattle.row_tableau.specs.Tilts.{KeepsFree};
ghost use Rattle.node_solve.specs.Runs.{NamesIntegers};

use lp_model::{BoundChange, Model};
use model_texts::is_narrow_region;

/// Whether each change is of an integer column that is there.
fn names_integers(model: &Model, region: &[BoundChange]) -> bool
    ensures { IsTrue result → NamesIntegers model.now region.now }
{
    match region.split_first() {
        None => true,
        Some((change, rest)) => {
            model.is_integer(change.col.0 as usize) && names_integers(model, rest)
        }
    }
}

/// Nothing happens: a region whose changes are of integer columns, which have bounds, leaves columns without bounds free.
fn leaves_free(model: &Model, region: &[BoundChange])
    requires { NamesIntegers model.now region.now }
    ensures { KeepsFree model.now region.now }
{
    let _lawful = model.cols();
}

/// Whether a fraction has room for each number of the region, and each change is of an integer column. Then each column
/// without bounds is free in the region too.
pub fn is_lawful_region(model: &Model, region: &[BoundChange]) -> bool
    ensures narrow { IsTrue result → AreNarrow region.now }
    ensures integers { IsTrue result → NamesIntegers model.now region.now }
    ensures free { IsTrue result → KeepsFree model.now region.now }
{
    if !is_narrow_region(region) {
        return false;
    }
    if !names_integers(model, region) {
        return false;
    }
    leaves_free(model, region);
    true
}
