// The cuts of a search at another model.
ghost use Rattle.std.specs.Prelude.{◌≡◌, ◌<◌, IsTrue, IfOk, length};
ghost use Rattle.lp_model.specs.Limits.{pool_limit};
ghost use Rattle.cover_cuts.specs.Cuts.{IsCutOf};
ghost use Rattle.sound_searches.specs.Sound.{IsSound};
ghost use Rattle.dual_bounds.specs.NewNumbers.{with_new_numbers};
ghost use Rattle.dual_bounds.specs.TreeBounds.{AreDerivedAgain};
ghost use Rattle.dual_bounds.specs.private.Spared.{LeavesDerivation, AddsAgain};

use crate::new_numbers::OtherNumbers;
use crate::spared::is_same_row;
use cover_cuts::CutPool;
use kept_cuts::{add_derivation, copy_derivation, with_derivation};
use lp_model::{CutRow, Derivation, Model};
use std::alloc::{AllocError, Global};
use tree_edit::Search;

/// Whether the numbers that are given leave all that a derivation reads: costs do, and sides that its row has already.
fn leaves_derivation(given: &OtherNumbers, own: &Model, model: &Model, from: &Derivation) -> bool
    ensures { IsTrue result → LeavesDerivation given.now own.now model.now from.now }
{
    match given {
        OtherNumbers::Sides(_) => is_same_row(own, model, from.row.0 as usize),
        OtherNumbers::Costs(_) => true,
    }
}

/// Adds a cut of one model as it derives at another: as it stands where the numbers that are given leave what it is derived from, and
/// else derived again.
fn add_again(
    again: &mut CutPool,
    alloc: Global,
    own: &Model,
    model: &Model,
    given: &OtherNumbers,
    cut: &CutRow,
) -> Result<(), AllocError>
    requires room { length again.old < pool_limit }
    requires cut { IsCutOf own.now cut.now }
    requires given { model.now ≡ with_new_numbers own.now given.now }
    ensures { IfOk result (λ _. AddsAgain model.now cut.now again.old again.new) }
{
    let from = copy_derivation(&cut.from)?;
    if leaves_derivation(given, own, model, &cut.from) {
        let same = with_derivation(alloc, cut, from)?;
        again.add_cut_row(model, same)?;
        return Ok(());
    }
    add_derivation(again, model, from)?;
    Ok(())
}

/// The cuts of a search, as each derives at its model with these numbers.
pub(crate) fn derived_again(
    alloc: Global,
    model: &Model,
    search: &Search,
    given: &OtherNumbers,
) -> Result<CutPool, AllocError>
    requires { model.now ≡ with_new_numbers search.now.model given.now }
    ensures derived { IfOk result (λ again. AreDerivedAgain model.now search.now.cuts again) }
    ensures sound { IfOk result (λ again. IsSound search.now) }
{
    let mut again = CutPool::new(alloc);
    let own = search.model();
    let pool = search.pool();
    let cuts = pool.rows();
    for cut in cuts {
        add_again(&mut again, alloc, own, model, given, cut)?;
    }
    Ok(again)
}
