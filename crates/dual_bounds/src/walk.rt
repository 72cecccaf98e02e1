// A walk over the leaves of a search's tree, which lists their numbers at a model.
ghost use Rattle.std.specs.Prelude.{◌≡◌, IfOk, OnOk, IsTrue};
ghost use Rattle.lp_model.specs.Regions.{Path, AreNarrow};
ghost use Rattle.lp_model.specs.Formulations.{formulation};
ghost use Rattle.tight_regions.specs.SameBounds.{SameBounds};
ghost use Rattle.sound_searches.specs.Sound.{IsSound};
ghost use Rattle.dual_bounds.specs.NewNumbers.{with_new_numbers};
ghost use Rattle.dual_bounds.specs.TreeBounds.{AreDerivedAgain, IsTreeBound, IsTreeBoundAt};

use crate::answers::LowerBound;
use crate::cuts::derived_again;
use crate::new_numbers::OtherNumbers;
use crate::numbers::proved_bound;
use crate::spared::{has_quiet_cost, is_spared_list};
use branch_tree::{LeafData, LeafVisitor};
use cover_cuts::CutPool;
use leaf_dual::LagValue;
use leaf_judging::{LeafNumber, number_of};
use lp_model::{BoundChange, Model};
use std::alloc::{AllocError, Global};
use tree_edit::Search;

/// The numbers of a search's leaves at a model with its cuts, one by one.
#[derive(Drop)]
pub(crate) struct Listing<'a> {
    pub(crate) model: &'a Model,
    pub(crate) pool: &'a CutPool,
    pub(crate) search: &'a Search,
    /// By which the model differs from the search's, so that a leaf may keep the number that the search keeps.
    pub(crate) given: &'a OtherNumbers,
    pub(crate) numbers: Vec<LeafNumber>,
}

impl Listing<'_> {
    ghost use Rattle.dual_bounds.specs.private.Spared.{IsSparedList, IsSparedLeaf, IsListedNumber};
    ghost use Rattle.dual_bounds.specs.private.Walk.{ListsLeaf};

    /// Whether neither list of a leaf names a row with other sides, nor a cut that counts at one of the models alone.
    fn has_spared_lists(&self, kept: &LeafData) -> bool
        ensures mult { IsTrue result → IsSparedList self.now.search.now self.now.model.now self.now.pool.now kept.now.mult }
        ensures farkas { IsTrue result → IsSparedList self.now.search.now self.now.model.now self.now.pool.now kept.now.farkas }
    {
        let mult = kept.mult.as_slice();
        let farkas = kept.farkas.as_slice();
        if is_spared_list(self.search, self.model, self.pool, mult) {
            return is_spared_list(self.search, self.model, self.pool, farkas);
        }
        false
    }

    /// Whether the numbers that are given are seen to leave a leaf's number.
    fn is_spared(&self, region: &[BoundChange], kept: &LeafData) -> bool
        requires { AreNarrow region.now }
        ensures { IsTrue result → IsSparedLeaf self.now.given.now self.now.search.now self.now.model.now self.now.pool.now region.now kept.now }
    {
        match self.given {
            OtherNumbers::Sides(_) => self.has_spared_lists(kept),
            OtherNumbers::Costs(costs) => {
                let list = costs.as_slice();
                has_quiet_cost(self.search, self.model, self.pool, list, region, kept)
            }
        }
    }

    /// A leaf's number, which is that of each path with the region's bounds: the one that is kept where the leaf is spared.
    fn number_at(&self, id: u64, region: &[BoundChange], kept: &LeafData) -> LeafNumber
        requires { AreNarrow region.now }
        ensures { (path : Path) → SameBounds region.now path → IsListedNumber self.now.search.now self.now.model.now self.now.pool.now self.now.given.now (record { id = id; region = path; kept = kept.now }) result }
    {
        // without this name the proof isn't told the type of the number's value
        let _named = LagValue::Minus;
        if self.is_spared(region, kept) {
            return self.search.numbers().number_or_minus(id);
        }
        number_of(self.model, self.pool, region, &kept.mult, &kept.farkas)
    }

    /// Puts a leaf's number, which is that of each path with the region's bounds, behind the others.
    fn list_leaf(
        &mut self,
        id: u64,
        region: &[BoundChange],
        kept: &LeafData,
    ) -> Result<(), AllocError>
        requires { AreNarrow region.now }
        ensures { OnOk result ((path : Path) → SameBounds region.now path → ListsLeaf self.old (record { id = id; region = path; kept = kept.now }) self.new) }
    {
        // without this name the proof isn't told the type of the number's value
        let _named = LagValue::Minus;
        let number = self.number_at(id, region, kept);
        self.numbers.push(number)?;
        Ok(())
    }
}

impl LeafVisitor for Listing<'_> {
    ghost use Rattle.dual_bounds.specs.private.Walk.{ListsLeaf};

    ghost step = { ListsLeaf };

    fn visit(
        &mut self,
        id: u64,
        region: &[BoundChange],
        kept: &LeafData,
    ) -> Result<(), AllocError> {
        self.list_leaf(id, region, kept)
    }
}

/// What a search's tree proves of a model, with each of the search's cuts as it derives there.
fn bound_with_cuts(
    alloc: Global,
    model: &Model,
    pool: &CutPool,
    search: &Search,
    given: &OtherNumbers,
) -> Result<LowerBound, AllocError>
    requires derived { AreDerivedAgain model.now search.now.cuts pool.now }
    requires given { model.now ≡ with_new_numbers search.now.model given.now }
    ensures { IfOk result (λ bound. IsTreeBound (formulation model.now pool.now) search.now.tree.root bound) }
{
    let mut listing = Listing {
        model,
        pool,
        search,
        given,
        numbers: Vec::new(alloc),
    };
    match search.tree().visit_leaves(&mut listing) {
        Ok(()) => {
            let bound = proved_bound(model, &listing.numbers);
            drop(listing);
            Ok(bound)
        }
        Err(error) => {
            drop(listing);
            Err(error)
        }
    }
}

/// What a search's tree proves of its model with these numbers, with each of its cuts as it derives there.
pub(crate) fn tree_bound(
    alloc: Global,
    model: &Model,
    search: &Search,
    given: &OtherNumbers,
) -> Result<LowerBound, AllocError>
    requires { model.now ≡ with_new_numbers search.now.model given.now }
    ensures bound { IfOk result (λ bound. IsTreeBoundAt model.now search.now.cuts search.now.tree.root bound) }
    ensures sound { IfOk result (λ bound. IsSound search.now) }
{
    let again = derived_again(alloc, model, search, given)?;
    let bound = bound_with_cuts(alloc, model, &again, search, given);
    drop(again);
    bound
}
