// What is left of the columns' costs, in whole numbers: by the rows column by column, and then cut by cut, in one pass over each
// cut's terms.
ghost use Rattle.std.specs.Prelude.{◌≡◌, ◌≢◌, ◌<◌, ◌≤◌, ℕ, ℤ, length, IsTrue, IfSome, Ok};
ghost use Rattle.frac128.specs.Rational.{neg_ℚ};
ghost use Rattle.frac128.specs.LowestTerms.{quotient_of};
ghost use Rattle.lp_model.specs.Formulations.{cut_coefficient};
ghost use Rattle.whole_sums.specs.Wholes.{IsShort, IsDenominator, whole_number_at};
ghost use Rattle.leaf_dual.specs.Parts.{costs, weights, cut_weights};
ghost use Rattle.leaf_dual.specs.WholeParts.{AreCostsLeft, IsWholeLeaf};
ghost use Rattle.leaf_dual.specs.private.Parts.{IsReducedCost};
ghost use Rattle.leaf_dual.specs.private.CostsLeft.{IsProductTaken, AreFirstShort, AreTaken, AreAllTaken};

use crate::whole_leaf::{WholeLeaf, taken_term, weight_at};
use frac128::Frac;
use whole_sums::{short_number, with_product};

/// Of how many columns what is left of their costs is had row by row.
pub const COLUMN_PLACES: usize = 1_024;

/// A number without the product of a weight and a coefficient, all over any denominator, where it is short. None says nothing.
#[inline]
fn without_product(left: i64, weight: i64, coefficient: &Frac) -> Option<i64>
    requires left { IsShort left }
    requires weight { IsShort weight }
    ensures { IfSome result (λ n. (d : ℤ) → IsDenominator d → IsProductTaken d (neg_ℚ (quotient_of weight d)) coefficient.now left n) }
{
    let Some(term) = taken_term(weight, coefficient) else {
        return None;
    };
    let Some(next) = with_product(i128::from(left), term.factor, term.number) else {
        return None;
    };
    short_number(next)
}

/// Takes the product of a weight and a coefficient away at a place, if it is one of the first so many. False where that is not short.
#[inline]
fn take_product(
    weight: i64,
    coefficient: &Frac,
    place: usize,
    count: usize,
    lefts: &mut [i64],
) -> bool
    requires weight { IsShort weight }
    requires within { count ≤ length lefts.old }
    requires left { place < count → IsShort (whole_number_at lefts.old place) }
    ensures taken { IsTrue result → place < count → (d : ℤ) → IsDenominator d → IsProductTaken d (neg_ℚ (quotient_of weight d)) coefficient.now (whole_number_at lefts.old place) (whole_number_at lefts.new place) }
    ensures others { (k : ℕ) → k ≢ place → whole_number_at lefts.new k ≡ whole_number_at lefts.old k }
{
    if place >= count {
        return true;
    }
    match without_product(lefts[place], weight, coefficient) {
        None => false,
        Some(left) => {
            lefts[place] = left;
            true
        }
    }
}

impl WholeLeaf<'_> {
    /// What the rows leave of a column's cost, where that is short.
    fn short_after_rows(&self, col: usize) -> Option<i64>
        requires whole { IsWholeLeaf self.now }
        requires within { col < length self.now.leaf.model.now.cols }
        ensures short { IfSome result (λ n. IsShort n) }
        ensures left { IfSome result (λ n. IsReducedCost self.now.leaf.model.now (weights self.now.leaf) (costs self.now.leaf) col (Ok (quotient_of n self.now.denominator))) }
    {
        match self.after_rows(col) {
            None => None,
            Some(left) => short_number(left),
        }
    }

    /// Writes what the rows leave of the first columns' costs. False where that of one is not had.
    fn write_after_rows(&self, count: usize, lefts: &mut [i64]) -> bool
        requires whole { IsWholeLeaf self.now }
        requires within { count ≤ length self.now.leaf.model.now.cols }
        requires places { count ≤ length lefts.old }
        ensures { IsTrue result → (j : ℕ) → j < count → IsShort (whole_number_at lefts.new j) × IsReducedCost self.now.leaf.model.now (weights self.now.leaf) (costs self.now.leaf) j (Ok (quotient_of (whole_number_at lefts.new j) self.now.denominator)) }
    {
        for col in 0..count {
            match self.short_after_rows(col) {
                None => return false,
                Some(left) => lefts[col] = left,
            }
        }
        true
    }

    /// Takes away what a cut takes of the first columns' costs, in one pass over its terms. False where that of one is not had, or
    /// the terms don't name columns in model order.
    fn take_cut(&self, cut: usize, count: usize, lefts: &mut [i64]) -> bool
        requires whole { IsWholeLeaf self.now }
        requires within { cut < length self.now.leaf.cuts.now }
        requires places { count ≤ length lefts.old }
        requires short { AreFirstShort count lefts.old }
        ensures { IsTrue result → AreTaken self.now.denominator (neg_ℚ (cut_weights self.now.leaf cut)) (λ j. cut_coefficient self.now.leaf.cuts.now cut j) count lefts.old lefts.new }
    {
        let Some(weight) = weight_at(self.cuts, cut) else {
            return false;
        };
        let mut next = 0;
        for (name, coefficient) in self.leaf.cuts[cut].terms.as_slice() {
            let col = name.0 as usize;
            if col < next {
                return false;
            }
            if !take_product(weight, coefficient, col, count, lefts) {
                return false;
            }
            next = col + 1;
        }
        true
    }

    /// Takes away what the cuts take of the first columns' costs, one cut after the other; one without a weight is passed over.
    fn take_cuts(&self, count: usize, lefts: &mut [i64]) -> bool
        requires whole { IsWholeLeaf self.now }
        requires places { count ≤ length lefts.old }
        requires short { AreFirstShort count lefts.old }
        ensures { IsTrue result → AreAllTaken self.now.denominator (λ k. neg_ℚ (cut_weights self.now.leaf k)) (cut_coefficient self.now.leaf.cuts.now) (length self.now.leaf.cuts.now) count lefts.old lefts.new }
    {
        let cuts = self.leaf.cuts.len();
        let mut place = self.next_weighed(0);
        while place < cuts {
            if !self.take_cut(place, count, lefts) {
                return false;
            }
            place = self.next_weighed(place + 1);
        }
        true
    }

    /// Writes what is left of the first columns' costs. False where that of one is not had.
    fn write_first_left(&self, count: usize, lefts: &mut [i64]) -> bool
        requires whole { IsWholeLeaf self.now }
        requires within { count ≤ length self.now.leaf.model.now.cols }
        requires places { count ≤ length lefts.old }
        ensures { IsTrue result → AreCostsLeft self.now.leaf self.now.denominator lefts.new count }
    {
        if !self.write_after_rows(count, lefts) {
            return false;
        }
        self.take_cuts(count, lefts)
    }

    /// Writes what is left of the columns' costs, of so many at most, and answers of how many: of none where it can't be had so, or
    /// where no cut has a weight. Nothing rests on the number but speed.
    pub fn write_costs_left(&self, most: usize, lefts: &mut [i64]) -> usize
        requires { IsWholeLeaf self.now }
        ensures { AreCostsLeft self.now.leaf self.now.denominator lefts.new result }
    {
        if self.next_weighed(0) >= self.leaf.cuts.len() {
            return 0;
        }
        let count = most.min(lefts.len()).min(self.leaf.model.cols().len());
        if self.write_first_left(count, lefts) {
            count
        } else {
            0
        }
    }
}
