// Which leaves an edit spares: what it touches is not named by their lists, or makes no step there.
ghost use Rattle.std.specs.Prelude.{◌≡◌, ◌&&◌, true, IsTrue};
ghost use Rattle.lp_model.specs.Regions.{AreNarrow};
ghost use Rattle.lp_model.specs.Formulations.{formulation};
ghost use Rattle.leaf_dual.specs.Dual.{multiplier, cut_weight};
ghost use Rattle.leaf_dual.specs.Parts.{cost_of};
ghost use Rattle.spared_leaves.specs.Alike.{AreAlikeBut, AreAlikeCuts};
ghost use Rattle.spared_leaves.specs.Questions.{IsQuietColumn};
ghost use Rattle.spared_leaves.specs.Touched.{cost_touched, column_touched, leaves_list};
ghost use Rattle.spared_leaves.specs.Spared.{IsQuietLag, IsQuietFarkas, HasInEach, KeepsCrossing, IsAbsent, IsSpared};

use crate::posed::Posed;
use crate::touched::{Touched, column_touched, cost_touched, leaves_list};
use frac128::Frac;
use lp_model::{BoundChange, ColId, Var};

/// A model with its cuts before an edit, and after it.
#[derive(Clone, Copy, Drop)]
pub struct Change<'a> {
    pub before: Posed<'a>,
    pub after: Posed<'a>,
}

impl Change<'_> {
    /// Whether the column, if one is given, is seen to make no step before and after.
    fn is_quiet(
        &self,
        of: &Option<ColId>,
        region: &[BoundChange],
        mult: &[(Var, Frac)],
        costed: bool,
    ) -> bool
        requires { AreNarrow region.now }
        ensures absent { IsAbsent of.now self.now.before.model.now self.now.after.model.now → IsTrue result }
        ensures quiet { IsTrue result → HasInEach (λ F j. IsQuietColumn F region.now (multiplier mult.now) (cut_weight F.cuts mult.now) (cost_of costed F.model) j) of.now (formulation self.now.before.model.now self.now.before.cuts.now) (formulation self.now.after.model.now self.now.after.cuts.now) }
    {
        match of {
            None => true,
            Some(col) => {
                let place = col.0 as usize;
                self.before.is_quiet(region, mult, costed, place)
                    && self.after.is_quiet(region, mult, costed, place)
            }
        }
    }

    /// Whether the column, if one is given, has a number in the region before and after, or neither before nor after.
    fn keeps_crossing(&self, of: &Option<ColId>, region: &[BoundChange]) -> bool
        requires { AreNarrow region.now }
        ensures absent { IsAbsent of.now self.now.before.model.now self.now.after.model.now → IsTrue result }
        ensures keeps { IsTrue result → KeepsCrossing region.now of.now self.now.before.model.now self.now.after.model.now }
    {
        match of {
            None => true,
            Some(col) => {
                let place = col.0 as usize;
                self.before.crosses(region, place) == self.after.crosses(region, place)
            }
        }
    }

    /// Whether the lists name nothing that is touched.
    pub fn leaves_lists(
        &self,
        touched: &Touched,
        mult: &[(Var, Frac)],
        farkas: &[(Var, Frac)],
    ) -> bool
        ensures { result ≡ (leaves_list touched.now self.now.before.cuts.now self.now.after.cuts.now mult.now && leaves_list touched.now self.now.before.cuts.now self.now.after.cuts.now farkas.now) }
    {
        leaves_list(touched, self.before.cuts, self.after.cuts, mult)
            && leaves_list(touched, self.before.cuts, self.after.cuts, farkas)
    }

    /// Whether a column that is touched is seen to make no step before and after, under each list whose terms of it are touched.
    fn leaves_terms(
        &self,
        touched: &Touched,
        region: &[BoundChange],
        mult: &[(Var, Frac)],
        farkas: &[(Var, Frac)],
    ) -> bool
        requires { AreNarrow region.now }
        ensures absent { IsAbsent (cost_touched touched.now) self.now.before.model.now self.now.after.model.now → IsAbsent (column_touched touched.now) self.now.before.model.now self.now.after.model.now → IsTrue result }
        ensures lag { IsTrue result → HasInEach (IsQuietLag region.now mult.now) (cost_touched touched.now) (formulation self.now.before.model.now self.now.before.cuts.now) (formulation self.now.after.model.now self.now.after.cuts.now) }
        ensures refuting { IsTrue result → HasInEach (IsQuietFarkas region.now farkas.now) (column_touched touched.now) (formulation self.now.before.model.now self.now.before.cuts.now) (formulation self.now.after.model.now self.now.after.cuts.now) }
    {
        self.is_quiet(&cost_touched(touched), region, mult, true)
            && self.is_quiet(&column_touched(touched), region, farkas, false)
    }

    /// Whether the change is seen to leave a leaf's emptiness, the answers of its two lists and what is kept of their totals, where it
    /// changes no more than what is touched. Where neither list names what is touched, and no column is, it is seen.
    pub fn spares(
        &self,
        touched: &Touched,
        region: &[BoundChange],
        mult: &[(Var, Frac)],
        farkas: &[(Var, Frac)],
    ) -> bool
        requires { AreNarrow region.now }
        ensures untouched { leaves_list touched.now self.now.before.cuts.now self.now.after.cuts.now mult.now ≡ true → leaves_list touched.now self.now.before.cuts.now self.now.after.cuts.now farkas.now ≡ true → IsAbsent (cost_touched touched.now) self.now.before.model.now self.now.after.model.now → IsAbsent (column_touched touched.now) self.now.before.model.now self.now.after.model.now → IsTrue result }
        ensures spared { IsTrue result → AreAlikeBut touched.now self.now.before.model.now self.now.after.model.now → AreAlikeCuts self.now.before.cuts.now self.now.after.cuts.now → IsSpared (formulation self.now.before.model.now self.now.before.cuts.now) (formulation self.now.after.model.now self.now.after.cuts.now) region.now mult.now farkas.now }
    {
        if self.leaves_lists(touched, mult, farkas) {
            if self.keeps_crossing(&column_touched(touched), region) {
                return self.leaves_terms(touched, region, mult, farkas);
            }
        }
        false
    }
}
