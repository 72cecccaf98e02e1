// The cuts up to the last one that multipliers name.
ghost use Rattle.std.specs.Prelude.{◌≡◌, ◌<◌, ◌≤◌, ℕ, false, length, take};
ghost use Rattle.leaf_dual.specs.Dual.{is_cut};
ghost use Rattle.leaf_dual.specs.Laws.{NamesNoCut};

use frac128::Frac;
use lp_model::{CutRow, Var};

/// One past the cut that the variable is the activity of, and 0 where it is that of none.
fn cut_end(name: &Var) -> usize
    ensures { (k : ℕ) → result ≤ k → is_cut name.now k ≡ false }
{
    match name {
        Var::Col(_) => 0,
        Var::Row(_) => 0,
        Var::Cut(place) => place.0 as usize + 1,
    }
}

/// One past the last cut that a multiplier is of, and 0 where none is.
fn named_end(mult: &[(Var, Frac)]) -> usize
    ensures { (k : ℕ) → result ≤ k → NamesNoCut mult.now k }
{
    let mut end = 0;
    for (name, _) in mult {
        end = end.max(cut_end(name));
    }
    end
}

/// The cuts up to the last one that a multiplier is of. A pool may have thousands behind it: their weight is 0, so they take
/// no side and make no step.
pub fn named_front<'a>(cuts: &'a [CutRow], mult: &[(Var, Frac)]) -> &'a [CutRow]
    ensures front { result.now ≡ take (length result.now) cuts.now }
    ensures few { length result.now ≤ length cuts.now }
    ensures behind { (k : ℕ) → length result.now ≤ k → k < length cuts.now → NamesNoCut mult.now k }
{
    let count = named_end(mult).min(cuts.len());
    &cuts[..count]
}
