// The terms of a leaf's number one by one, as they are added to totals that are kept: those of the rows, of the cuts and of the columns.
ghost use Rattle.std.specs.Prelude.{◌≡◌, ◌≢◌, ◌<◌, length, None, MatchOption};
ghost use Rattle.frac128.specs.LowestTerms.{quotient_of};
ghost use Rattle.lp_model.specs.Regions.{AreNarrow};
ghost use Rattle.lp_model.specs.Sides.{side_number};
ghost use Rattle.whole_sums.specs.Wholes.{IsShort, IsDenominator};
ghost use Rattle.leaf_dual.specs.Dual.{HavePlaces, column_reduced_cost};
ghost use Rattle.leaf_dual.specs.Answers.{row_number, cut_number, bound_number, EntriesFit};
ghost use Rattle.leaf_dual.specs.Parts.{leaf_formulation, costs, weights, cut_weights};
ghost use Rattle.leaf_dual.specs.WholeParts.{IsWholeLeaf};
ghost use Rattle.leaf_dual.specs.LeafTerms.{HasRowSide, HasCutSide, HasColumnTerm};

use crate::terms::{cut_weight, multiplier};
use crate::whole_leaf::{WholeLeaf, weight_at, whole_side};
use frac128::Frac;
use kept_totals::{PartialTerms, Term};
use lp_model::Bound;
use whole_sums::{quotient, whole_number};

/// The term of a fraction and a side, if that is there.
fn exact_term(factor: &Frac, side: &Bound) -> Option<Term>
    ensures { MatchOption result (side.now ≡ None) (λ t. (side.now ≢ None) × (t ≡ record { factor = factor.now; number = side_number side.now })) }
{
    match side {
        None => None,
        Some(bound) => Some(Term::exact(factor, bound)),
    }
}

/// The term of a number over a denominator and a side, if that is there.
#[inline]
fn term_over(weight: i64, denominator: i64, side: &Bound) -> Option<Term>
    requires weight { IsShort weight }
    requires denominator { IsDenominator denominator }
    ensures { MatchOption result (side.now ≡ None) (λ t. (side.now ≢ None) × (t ≡ record { factor = quotient_of weight denominator; number = side_number side.now })) }
{
    match side {
        None => None,
        Some(bound) => match whole_number(bound) {
            Some(number) => Some(Term::over(weight, number, denominator)),
            None => Some(Term::exact(&quotient(i128::from(weight), denominator), bound)),
        },
    }
}

impl WholeLeaf<'_> {
    /// The term of a row in fractions, if its side is there.
    fn exact_term_of_row(&self, index: usize) -> Option<Term>
        requires { index < length self.now.leaf.model.now.rows }
        ensures { MatchOption result (¬ HasRowSide self.now.leaf index) (λ t. HasRowSide self.now.leaf index × (t ≡ record { factor = weights self.now.leaf index; number = row_number self.now.leaf.model.now (weights self.now.leaf) index })) }
    {
        let weight = multiplier(self.leaf.mult, index);
        let side = self.leaf.row_side(index);
        exact_term(&weight, &side)
    }

    /// The term of a row, if its side is there.
    #[inline]
    fn term_of_row(&self, index: usize) -> Option<Term>
        requires whole { IsWholeLeaf self.now }
        requires index { index < length self.now.leaf.model.now.rows }
        ensures { MatchOption result (¬ HasRowSide self.now.leaf index) (λ t. HasRowSide self.now.leaf index × (t ≡ record { factor = weights self.now.leaf index; number = row_number self.now.leaf.model.now (weights self.now.leaf) index })) }
    {
        let Some(weight) = weight_at(self.rows, index) else {
            return self.exact_term_of_row(index);
        };
        let sides = &self.leaf.model.rows()[index];
        let side = whole_side(weight, &sides.lo, &sides.hi);
        term_over(weight, self.denominator, &side)
    }

    /// The term of a cut in fractions, if its side is there.
    fn exact_term_of_cut(&self, index: usize) -> Option<Term>
        requires { index < length self.now.leaf.cuts.now }
        ensures { MatchOption result (¬ HasCutSide self.now.leaf index) (λ t. HasCutSide self.now.leaf index × (t ≡ record { factor = cut_weights self.now.leaf index; number = cut_number self.now.leaf.cuts.now (cut_weights self.now.leaf) index })) }
    {
        let weight = cut_weight(self.leaf.cuts, self.leaf.mult, index);
        let side = self.leaf.cut_side(index);
        exact_term(&weight, &side)
    }

    /// The term of a cut, if its side is there.
    #[inline]
    fn term_of_cut(&self, index: usize) -> Option<Term>
        requires whole { IsWholeLeaf self.now }
        requires index { index < length self.now.leaf.cuts.now }
        ensures { MatchOption result (¬ HasCutSide self.now.leaf index) (λ t. HasCutSide self.now.leaf index × (t ≡ record { factor = cut_weights self.now.leaf index; number = cut_number self.now.leaf.cuts.now (cut_weights self.now.leaf) index })) }
    {
        let Some(weight) = weight_at(self.cuts, index) else {
            return self.exact_term_of_cut(index);
        };
        let high = Some(self.leaf.cuts[index].hi);
        let side = whole_side(weight, &None, &high);
        term_over(weight, self.denominator, &side)
    }

    /// The term of a column in fractions, if each step of its reduced cost has room and its bound is there.
    fn exact_term_of_column(&self, col: usize) -> Option<Term>
        requires within { col < length self.now.leaf.model.now.cols }
        requires narrow { AreNarrow self.now.leaf.region.now }
        requires places { HavePlaces self.now.leaf.cuts.now }
        ensures { MatchOption result (¬ HasColumnTerm self.now.leaf col) (λ t. HasColumnTerm self.now.leaf col × (t ≡ record { factor = column_reduced_cost (leaf_formulation self.now.leaf) (weights self.now.leaf) (cut_weights self.now.leaf) (costs self.now.leaf) col; number = bound_number (leaf_formulation self.now.leaf) self.now.leaf.region.now (weights self.now.leaf) (cut_weights self.now.leaf) (costs self.now.leaf) col })) }
    {
        match self.leaf.cost_left(col) {
            Ok(reduced) => {
                let side = self.leaf.column_side(&reduced, col);
                exact_term(&reduced, &side)
            }
            Err(_) => None,
        }
    }

    /// The term of a column, if each step of its reduced cost has room and its bound is there.
    #[inline]
    fn term_of_column(&self, col: usize) -> Option<Term>
        requires whole { IsWholeLeaf self.now }
        requires within { col < length self.now.leaf.model.now.cols }
        requires narrow { AreNarrow self.now.leaf.region.now }
        requires places { HavePlaces self.now.leaf.cuts.now }
        ensures { MatchOption result (¬ HasColumnTerm self.now.leaf col) (λ t. HasColumnTerm self.now.leaf col × (t ≡ record { factor = column_reduced_cost (leaf_formulation self.now.leaf) (weights self.now.leaf) (cut_weights self.now.leaf) (costs self.now.leaf) col; number = bound_number (leaf_formulation self.now.leaf) self.now.leaf.region.now (weights self.now.leaf) (cut_weights self.now.leaf) (costs self.now.leaf) col })) }
    {
        let Some(reduced) = self.cost_left(col) else {
            return self.exact_term_of_column(col);
        };
        let side = self.column_side(reduced, col);
        term_over(reduced, self.denominator, &side)
    }
}

/// The terms of the rows, from the constant.
#[derive(Drop)]
pub struct RowParts<'a> {
    pub whole: WholeLeaf<'a>,
}

impl PartialTerms for RowParts<'_> {
    ghost count = { λ t. length t.whole.leaf.model.now.rows };

    ghost factor = { λ t i. weights t.whole.leaf i };

    ghost number = { λ t i. row_number t.whole.leaf.model.now (weights t.whole.leaf) i };

    ghost is_there = { λ t i. HasRowSide t.whole.leaf i };

    ghost is_lawful = { λ t. IsWholeLeaf t.whole };

    fn count(&self) -> usize {
        self.whole.leaf.model.rows().len()
    }

    fn term(&self, index: usize) -> Option<Term> {
        self.whole.term_of_row(index)
    }
}

/// The terms of the cuts, from the rows' total.
#[derive(Drop)]
pub struct CutParts<'a> {
    pub whole: WholeLeaf<'a>,
}

impl PartialTerms for CutParts<'_> {
    ghost count = { λ t. length t.whole.leaf.cuts.now };

    ghost factor = { λ t k. cut_weights t.whole.leaf k };

    ghost number = { λ t k. cut_number t.whole.leaf.cuts.now (cut_weights t.whole.leaf) k };

    ghost is_there = { λ t k. HasCutSide t.whole.leaf k };

    ghost is_lawful = { λ t. IsWholeLeaf t.whole };

    fn count(&self) -> usize {
        self.whole.leaf.cuts.len()
    }

    fn term(&self, index: usize) -> Option<Term> {
        self.whole.term_of_cut(index)
    }
}

/// The terms of the columns, from the cuts' total. One is missing where its bound is, and where a step of its reduced cost has no room.
#[derive(Drop)]
pub struct ColumnParts<'a> {
    pub whole: WholeLeaf<'a>,
}

impl PartialTerms for ColumnParts<'_> {
    ghost count = { λ t. length t.whole.leaf.model.now.cols };

    ghost factor = { λ t j. column_reduced_cost (leaf_formulation t.whole.leaf) (weights t.whole.leaf) (cut_weights t.whole.leaf) (costs t.whole.leaf) j };

    ghost number = { λ t j. bound_number (leaf_formulation t.whole.leaf) t.whole.leaf.region.now (weights t.whole.leaf) (cut_weights t.whole.leaf) (costs t.whole.leaf) j };

    ghost is_there = { λ t j. HasColumnTerm t.whole.leaf j };

    ghost is_lawful = { λ t. IsWholeLeaf t.whole × (AreNarrow t.whole.leaf.region.now × HavePlaces t.whole.leaf.cuts.now) };

    fn count(&self) -> usize {
        self.whole.leaf.model.cols().len()
    }

    fn term(&self, index: usize) -> Option<Term> {
        self.whole.term_of_column(index)
    }
}
