// Leaves whose terms are short numbers over their denominator.
ghost use Rattle.std.specs.Prelude.{IsTrue, length};
ghost use Rattle.lp_model.specs.Regions.{AreNarrow};
ghost use Rattle.kept_totals.specs.Short.{IsShortFraction, AreShortProducts};
ghost use Rattle.leaf_dual.specs.Dual.{HavePlaces, column_reduced_cost};
ghost use Rattle.leaf_dual.specs.Answers.{row_number, cut_number, bound_number};
ghost use Rattle.leaf_dual.specs.Parts.{leaf_formulation, leaf_constant, costs, weights, cut_weights};
ghost use Rattle.leaf_dual.specs.WholeParts.{IsWholeLeaf};
ghost use Rattle.leaf_dual.specs.ShortTerms.{AreShortTerms, ShortTermsLaw};

use crate::parts::{ColumnParts, CutParts, RowParts};
use crate::whole_leaf::WholeLeaf;
use kept_totals::are_short;
use whole_sums::short_over;

impl WholeLeaf<'_> {
    /// Whether the terms of the rows are seen at once to be short numbers over the denominator.
    fn has_short_rows(&self) -> bool
        requires { IsWholeLeaf self.now }
        ensures { IsTrue result → AreShortProducts self.now.denominator (weights self.now.leaf) (row_number self.now.leaf.model.now (weights self.now.leaf)) (length self.now.leaf.model.now.rows) }
    {
        are_short(&RowParts { whole: *self }, self.denominator)
    }

    /// The same of the terms of the cuts.
    fn has_short_cuts(&self) -> bool
        requires { IsWholeLeaf self.now }
        ensures { IsTrue result → AreShortProducts self.now.denominator (cut_weights self.now.leaf) (cut_number self.now.leaf.cuts.now (cut_weights self.now.leaf)) (length self.now.leaf.cuts.now) }
    {
        are_short(&CutParts { whole: *self }, self.denominator)
    }

    /// The same of the terms of the columns.
    fn has_short_columns(&self) -> bool
        requires whole { IsWholeLeaf self.now }
        requires narrow { AreNarrow self.now.leaf.region.now }
        requires places { HavePlaces self.now.leaf.cuts.now }
        ensures { IsTrue result → AreShortProducts self.now.denominator (column_reduced_cost (leaf_formulation self.now.leaf) (weights self.now.leaf) (cut_weights self.now.leaf) (costs self.now.leaf)) (bound_number (leaf_formulation self.now.leaf) self.now.leaf.region.now (weights self.now.leaf) (cut_weights self.now.leaf) (costs self.now.leaf)) (length self.now.leaf.model.now.cols) }
    {
        are_short(&ColumnParts { whole: *self }, self.denominator)
    }

    /// Whether the constant is.
    fn has_short_constant(&self) -> bool
        requires { IsWholeLeaf self.now }
        ensures { IsTrue result → IsShortFraction self.now.denominator (leaf_constant self.now.leaf) }
    {
        match short_over(&self.leaf.constant(), self.denominator) {
            None => false,
            Some(_) => true,
        }
    }

    /// Whether the constant and all terms are seen at once to be short numbers over the denominator. Nothing rests on a `false` but speed.
    pub fn has_short_terms(&self) -> bool
        requires whole { IsWholeLeaf self.now }
        requires narrow { AreNarrow self.now.leaf.region.now }
        requires places { HavePlaces self.now.leaf.cuts.now }
        ensures { IsTrue result → AreShortTerms self.now.denominator (leaf_formulation self.now.leaf) self.now.leaf.region.now (weights self.now.leaf) (cut_weights self.now.leaf) (leaf_constant self.now.leaf) (costs self.now.leaf) }
    {
        if !self.has_short_constant() {
            return false;
        }
        if !self.has_short_rows() {
            return false;
        }
        if !self.has_short_cuts() {
            return false;
        }
        self.has_short_columns()
    }
}

/// Where all terms are short numbers over one denominator, all steps have room.
pub fn short_terms_law()
    ensures { ShortTermsLaw }
{}
