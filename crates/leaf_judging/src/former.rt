// Entries of leaves from before an edit of the model, and what of them stands after it.
ghost use Rattle.std.specs.Prelude.{◌↔◌, ◌<◌, ◌≡◌, ◌&&◌, IsTrue, true, false, length};
ghost use Rattle.lp_model.specs.Regions.{AreNarrow};
ghost use Rattle.lp_model.specs.Formulations.{formulation};
ghost use Rattle.spared_leaves.specs.declared.touched.Touched.TheVariants.{Nothing};
ghost use Rattle.spared_leaves.specs.Touched.{leaves_list};
ghost use Rattle.leaf_judging.specs.private.Ways.{KeepsBlocks, IsNamedWay, IsWayBy, IsWayAfter};

use crate::numbers::LeafNumbers;
use branch_tree::LeafData;
use cover_cuts::CutPool;
use lp_model::{BoundChange, Model};
use spared_leaves::{Change, Posed, Touched, leaves_list};

/// The numbers that were kept of a tree's leaves before an edit of the model, the model and the cuts of then, and what the edit
/// touched, where that was so little that some leaves may keep what is kept of them.
#[derive(Clone, Copy, Drop)]
pub struct Former<'a> {
    pub touched: Option<Touched>,
    pub model: &'a Model,
    pub pool: &'a CutPool,
    pub numbers: &'a LeafNumbers,
}

/// What of a leaf's entry stands after an edit.
#[derive(Clone, Copy, Drop)]
pub(crate) enum Way {
    /// All of it.
    Spared,
    /// All but its number, and the totals of its multipliers from this column on.
    FromCost(usize),
    /// All but its number and the totals of its multipliers, which grow with the side of this row.
    FromSide(usize),
    /// Nothing that is known.
    Anew,
}

impl Former<'_> {
    /// Whether a model has no column less, and no further block of 64.
    fn keeps_blocks(&self, model: &Model) -> bool
        ensures { IsTrue result ↔ KeepsBlocks self.now.model.now model.now }
    {
        let before = self.model.cols().len();
        let after = model.cols().len();
        before <= after && before / 64 == after / 64
    }

    /// Whether there is the column, and a model has as many.
    fn has_column(&self, model: &Model, col: usize) -> bool
        ensures { IsTrue result ↔ (col < length self.now.model.now.cols) × (length self.now.model.now.cols ≡ length model.now.cols) }
    {
        col < self.model.cols().len() && self.model.cols().len() == model.cols().len()
    }

    /// Whether there is the row, and a model has as many.
    fn has_row(&self, model: &Model, row: usize) -> bool
        ensures { IsTrue result ↔ (row < length self.now.model.now.rows) × (length self.now.model.now.rows ≡ length model.now.rows) }
    {
        row < self.model.rows().len() && self.model.rows().len() == model.rows().len()
    }

    /// Whether there are as many cuts, the list of multipliers names none that turned, and that of Farkas multipliers nothing that is touched.
    /// Nothing rests on a `false` but speed.
    fn leaves_all_but_side(&self, touched: &Touched, pool: &CutPool, kept: &LeafData) -> bool
        ensures cuts { IsTrue result → length self.now.pool.now ≡ length pool.now }
        ensures mult { IsTrue result → leaves_list Nothing self.now.pool.now pool.now kept.now.mult ≡ true }
        ensures farkas { IsTrue result → leaves_list touched.now self.now.pool.now pool.now kept.now.farkas ≡ true }
    {
        let before = self.pool.rows();
        let after = pool.rows();
        if before.len() != after.len() {
            return false;
        }
        if !leaves_list(&Touched::Nothing, before, after, kept.mult.as_slice()) {
            return false;
        }
        leaves_list(touched, before, after, kept.farkas.as_slice())
    }

    /// What stands of a leaf's entry where a list names what was touched.
    fn named_way(&self, touched: &Touched, model: &Model, pool: &CutPool, kept: &LeafData) -> Way
        requires { (leaves_list touched.now self.now.pool.now pool.now kept.now.mult && leaves_list touched.now self.now.pool.now pool.now kept.now.farkas) ≡ false }
        ensures { IsNamedWay touched.now self.now (formulation model.now pool.now) kept.now result }
    {
        match touched {
            Touched::RowSides(row) => {
                let place = row.0 as usize;
                if !self.has_row(model, place) {
                    return Way::Anew;
                }
                if !self.has_column(model, 0) {
                    return Way::Anew;
                }
                if !self.leaves_all_but_side(touched, pool, kept) {
                    return Way::Anew;
                }
                Way::FromSide(place)
            }
            _ => Way::Anew,
        }
    }

    /// What stands of a leaf's entry after an edit that touched so much.
    fn way_by(
        &self,
        touched: &Touched,
        model: &Model,
        pool: &CutPool,
        region: &[BoundChange],
        kept: &LeafData,
    ) -> Way
        requires { AreNarrow region.now }
        ensures { IsWayBy touched.now self.now (formulation model.now pool.now) region.now kept.now result }
    {
        let change = Change {
            before: Posed {
                model: self.model,
                cuts: self.pool.rows(),
            },
            after: Posed {
                model,
                cuts: pool.rows(),
            },
        };
        let mult = kept.mult.as_slice();
        let farkas = kept.farkas.as_slice();
        if change.spares(touched, region, mult, farkas) {
            if self.keeps_blocks(model) {
                return Way::Spared;
            }
            return Way::Anew;
        }
        if !change.leaves_lists(touched, mult, farkas) {
            return self.named_way(touched, model, pool, kept);
        }
        match touched {
            Touched::Nothing => Way::Anew,
            Touched::OneRow(_) => Way::Anew,
            Touched::RowSides(_) => Way::Anew,
            Touched::OneCost(col) => {
                let place = col.0 as usize;
                if self.has_column(model, place) {
                    Way::FromCost(place)
                } else {
                    Way::Anew
                }
            }
            Touched::OneColumn(_) => Way::Anew,
        }
    }

    /// What stands of a leaf's entry after the edit.
    pub(crate) fn way(
        &self,
        model: &Model,
        pool: &CutPool,
        region: &[BoundChange],
        kept: &LeafData,
    ) -> Way
        requires { AreNarrow region.now }
        ensures { IsWayAfter self.now (formulation model.now pool.now) region.now kept.now result }
    {
        match &self.touched {
            None => Way::Anew,
            Some(touched) => self.way_by(touched, model, pool, region, kept),
        }
    }
}
