// A leaf's number in whole numbers over one denominator, with one greatest common divisor at its end.
ghost use Rattle.std.specs.Prelude.{◌≡◌, ◌≢◌, ◌<◌, ◌≤◌, ◌<ℤ◌, ℕ, ℤ, List, Option, pos, length, None, Ok, IfSome};
ghost use Rattle.frac128.specs.Rational.{ℚ, int, neg_ℚ, ◌+ℚ◌, ◌*ℚ◌};
ghost use Rattle.checked_sum.specs.Steps.{StepFits, AllFit, partial};
ghost use Rattle.frac128.specs.LowestTerms.{quotient_of};
ghost use Rattle.lp_model.specs.Regions.{AreNarrow, low_along, high_along, region_low, region_high};
ghost use Rattle.lp_model.specs.Sides.{needed_side, side_number};
ghost use Rattle.lp_model.specs.Formulations.{cut_coefficient};
ghost use Rattle.leaf_dual.specs.declared.dual.LagValue.TheVariants.{Num};
ghost use Rattle.leaf_dual.specs.Dual.{HavePlaces, row_side, cut_side, column_side};
ghost use Rattle.leaf_dual.specs.Answers.{row_number, cut_number, LacksRowSide, LacksCutSide, IsDualAnswer};
ghost use Rattle.leaf_dual.specs.Parts.{leaf_formulation, leaf_constant, costs, weights, cut_weights, entry_row, entry_number};
ghost use Rattle.leaf_dual.specs.private.Parts.{IsRowsTotal, IsCutsTotal, IsReducedCost, IsCostAnswer, IsColumnAnswer, IsColumnsTotal};
ghost use Rattle.whole_sums.specs.Wholes.{IsShort, HasMargin, IsWholeTerm, whole_number_at};
ghost use Rattle.leaf_dual.specs.Wholes.{IsNextOf, AreNexts};
ghost use Rattle.leaf_dual.specs.WholeParts.{IsWholeLeaf};

use crate::leaf::Leaf;
use crate::named_columns::is_unmarked;
use crate::terms::cut_coefficient;
use frac128::Frac;
use lp_model::{Bound, BoundChange, RowId};
use whole_sums::{
    WholeTerm, WholeTerms, quotient, short_number, short_over, whole_number, whole_total,
    with_product,
};

/// A leaf, with the numbers of its rows' multipliers and of its cuts' weights over a denominator. For each of the first cuts
/// that are known the next one, itself included, that has a weight: few have one, and each column's cost is taken over all. Of the
/// first columns whose number is known what is left of their costs. And of the columns that have a mark whether the region names them.
#[derive(Clone, Copy, Drop)]
pub struct WholeLeaf<'a> {
    pub leaf: Leaf<'a>,
    pub denominator: i64,
    pub rows: &'a [i64],
    pub cuts: &'a [i64],
    pub next: &'a [usize],
    pub known: usize,
    pub costs_left: &'a [i64],
    pub costs_known: usize,
    pub named: &'a [bool],
}

/// The number at a place, if there is one.
#[inline]
pub(crate) fn weight_at(numbers: &[i64], place: usize) -> Option<i64>
    ensures within { IfSome result (λ n. place < length numbers.now) }
    ensures value { IfSome result (λ n. n ≡ whole_number_at numbers.now place) }
{
    if place < numbers.len() {
        Some(numbers[place])
    } else {
        None
    }
}

/// What is next from a place on, and the place where that is not known.
#[inline]
fn next_at(next: &[usize], known: usize, place: usize) -> usize
    ensures from { place ≤ result }
    ensures next { (numbers : List ℤ) → AreNexts numbers next.now known → IsNextOf numbers place result }
{
    if known <= place {
        return place;
    }
    if next.len() <= place {
        return place;
    }
    let far = next[place];
    if far <= place {
        return place;
    }
    far
}

/// The side that a number over any denominator takes of two.
#[inline]
pub(crate) fn whole_side(weight: i64, lo: &Bound, hi: &Bound) -> Bound
    ensures { (d : ℤ) → pos 0 <ℤ d → result ≡ needed_side (quotient_of weight d) lo.now hi.now }
{
    if weight > 0 {
        return *lo;
    }
    if weight < 0 {
        return *hi;
    }
    Some(Frac::whole(0))
}

/// The product of a number over any denominator and a side, where that is there, whole and short.
#[inline]
fn side_term(weight: i64, side: &Bound) -> Option<WholeTerm>
    requires { IsShort weight }
    ensures value { IfSome result (λ t. (d : ℤ) → pos 0 <ℤ d → IsWholeTerm d (quotient_of weight d) (side_number side.now) t.factor t.number) }
    ensures there { IfSome result (λ t. side.now ≢ None) }
{
    match side {
        None => None,
        Some(bound) => {
            let Some(number) = whole_number(bound) else {
                return None;
            };
            Some(WholeTerm {
                factor: weight,
                number,
            })
        }
    }
}

/// What a weight over any denominator takes away of a cost by a coefficient, where that is whole and short.
#[inline]
pub(crate) fn taken_term(weight: i64, coefficient: &Frac) -> Option<WholeTerm>
    requires { IsShort weight }
    ensures { IfSome result (λ t. (d : ℤ) → pos 0 <ℤ d → IsWholeTerm d (neg_ℚ (quotient_of weight d)) coefficient.now t.factor t.number) }
{
    if weight == 0 {
        return Some(WholeTerm {
            factor: 0,
            number: 0,
        });
    }
    let Some(number) = whole_number(coefficient) else {
        return None;
    };
    Some(WholeTerm {
        factor: -weight,
        number,
    })
}

/// The terms of the rows.
#[derive(Drop)]
struct RowNumbers<'a> {
    whole: WholeLeaf<'a>,
}

impl WholeTerms for RowNumbers<'_> {
    ghost count = { λ t. length t.whole.leaf.model.now.rows };

    ghost factor = { λ t i. weights t.whole.leaf i };

    ghost number = { λ t i. row_number t.whole.leaf.model.now (weights t.whole.leaf) i };

    ghost denominator = { λ t. t.whole.denominator };

    ghost is_lawful = { λ t. IsWholeLeaf t.whole };

    ghost holds = { λ t i. row_side t.whole.leaf.model.now (weights t.whole.leaf) i ≢ None };

    fn count(&self) -> usize {
        self.whole.leaf.model.rows().len()
    }

    fn term(&self, index: usize) -> Option<WholeTerm> {
        let Some(weight) = weight_at(self.whole.rows, index) else {
            return None;
        };
        let sides = &self.whole.leaf.model.rows()[index];
        let side = whole_side(weight, &sides.lo, &sides.hi);
        side_term(weight, &side)
    }
}

/// The terms of the cuts.
#[derive(Drop)]
struct CutNumbers<'a> {
    whole: WholeLeaf<'a>,
}

impl WholeTerms for CutNumbers<'_> {
    ghost count = { λ t. length t.whole.leaf.cuts.now };

    ghost factor = { λ t k. cut_weights t.whole.leaf k };

    ghost number = { λ t k. cut_number t.whole.leaf.cuts.now (cut_weights t.whole.leaf) k };

    ghost denominator = { λ t. t.whole.denominator };

    ghost is_lawful = { λ t. IsWholeLeaf t.whole };

    ghost holds = { λ t k. cut_side t.whole.leaf.cuts.now (cut_weights t.whole.leaf) k ≢ None };

    fn count(&self) -> usize {
        self.whole.leaf.cuts.len()
    }

    fn term(&self, index: usize) -> Option<WholeTerm> {
        let Some(weight) = weight_at(self.whole.cuts, index) else {
            return None;
        };
        let high = Some(self.whole.leaf.cuts[index].hi);
        let side = whole_side(weight, &None, &high);
        side_term(weight, &side)
    }
}

/// The terms of what the rows leave of a column's cost, over its entries.
#[derive(Drop)]
struct EntryNumbers<'a> {
    whole: WholeLeaf<'a>,
    entries: &'a [(RowId, Frac)],
}

impl WholeTerms for EntryNumbers<'_> {
    ghost count = { λ t. length t.entries.now };

    ghost factor = { λ t k. neg_ℚ (weights t.whole.leaf (entry_row t.entries.now k)) };

    ghost number = { λ t k. entry_number t.entries.now k };

    ghost denominator = { λ t. t.whole.denominator };

    ghost is_lawful = { λ t. IsWholeLeaf t.whole };

    ghost holds = { λ t k. Unit {0} };

    fn count(&self) -> usize {
        self.entries.len()
    }

    fn term(&self, index: usize) -> Option<WholeTerm> {
        let entry = &self.entries[index];
        let Some(weight) = weight_at(self.whole.rows, entry.0.0 as usize) else {
            return None;
        };
        taken_term(weight, &entry.1)
    }
}

impl WholeLeaf<'_> {
    /// The constant and the terms of the rows, over the denominator, where they can be had in whole numbers and each side is
    /// there. None says nothing.
    fn rows_total(&self) -> Option<i128>
        requires { IsWholeLeaf self.now }
        ensures room { IfSome result (λ total. HasMargin total) }
        ensures total { IfSome result (λ total. IsRowsTotal self.now.leaf.model.now (weights self.now.leaf) (leaf_constant self.now.leaf) (Ok (quotient_of total self.now.denominator))) }
        ensures sides { IfSome result (λ total. ¬ LacksRowSide self.now.leaf.model.now (weights self.now.leaf)) }
    {
        let Some(start) = short_over(&self.leaf.constant(), self.denominator) else {
            return None;
        };
        whole_total(i128::from(start), &RowNumbers { whole: *self })
    }

    /// The total with the terms of the cuts, as `rows_total`.
    fn cuts_total(&self, start: i128) -> Option<i128>
        requires whole { IsWholeLeaf self.now }
        requires start { HasMargin start }
        ensures room { IfSome result (λ total. HasMargin total) }
        ensures total { IfSome result (λ total. IsCutsTotal self.now.leaf.cuts.now (cut_weights self.now.leaf) (quotient_of start self.now.denominator) (Ok (quotient_of total self.now.denominator))) }
        ensures sides { IfSome result (λ total. ¬ LacksCutSide self.now.leaf.cuts.now (cut_weights self.now.leaf)) }
    {
        whole_total(start, &CutNumbers { whole: *self })
    }

    /// The next cut from a place on that has a weight, and how many there are where none has.
    pub(crate) fn next_weighed(&self, place: usize) -> usize
        requires whole { IsWholeLeaf self.now }
        requires place { place ≤ length self.now.leaf.cuts.now }
        ensures from { place ≤ result }
        ensures within { result ≤ length self.now.leaf.cuts.now }
        ensures free { (k : ℕ) → place ≤ k → k < result → cut_weights self.now.leaf k ≡ int (pos 0) }
    {
        let next = next_at(self.next, self.known, place);
        next.min(self.leaf.cuts.len())
    }

    /// The term of what a cut takes of a column's cost, where it can be had in whole numbers. A cut without a weight is not
    /// looked through.
    fn cut_term(&self, cut: usize, col: usize) -> Option<WholeTerm>
        requires whole { IsWholeLeaf self.now }
        requires within { cut < length self.now.leaf.cuts.now }
        ensures { IfSome result (λ t. IsWholeTerm self.now.denominator (neg_ℚ (cut_weights self.now.leaf cut)) (cut_coefficient self.now.leaf.cuts.now cut col) t.factor t.number) }
    {
        let Some(weight) = weight_at(self.cuts, cut) else {
            return None;
        };
        if weight == 0 {
            return Some(WholeTerm {
                factor: 0,
                number: 0,
            });
        }
        taken_term(weight, &cut_coefficient(self.leaf.cuts, cut, col))
    }

    /// The total with what a cut takes of a column's cost, over the denominator, where it can be had in whole numbers. None says
    /// nothing.
    fn with_cut(&self, total: i128, cut: usize, col: usize) -> Option<i128>
        requires whole { IsWholeLeaf self.now }
        requires total { HasMargin total }
        requires within { cut < length self.now.leaf.cuts.now }
        ensures room { IfSome result (λ next. HasMargin next) }
        ensures fits { IfSome result (λ next. StepFits (quotient_of total self.now.denominator) (neg_ℚ (cut_weights self.now.leaf cut)) (cut_coefficient self.now.leaf.cuts.now cut col)) }
        ensures value { IfSome result (λ next. quotient_of next self.now.denominator ≡ quotient_of total self.now.denominator +ℚ neg_ℚ (cut_weights self.now.leaf cut) *ℚ cut_coefficient self.now.leaf.cuts.now cut col) }
    {
        let Some(term) = self.cut_term(cut, col) else {
            return None;
        };
        with_product(total, term.factor, term.number)
    }

    /// What the cuts leave of a column's cost, from what the rows leave, as `whole_total`: a cut without a weight makes no step,
    /// and is passed over.
    fn after_cuts(&self, start: i128, col: usize) -> Option<i128>
        requires whole { IsWholeLeaf self.now }
        requires start { HasMargin start }
        ensures room { IfSome result (λ total. HasMargin total) }
        ensures fits { IfSome result (λ total. AllFit (quotient_of start self.now.denominator) (λ k. neg_ℚ (cut_weights self.now.leaf k)) (λ k. cut_coefficient self.now.leaf.cuts.now k col) (length self.now.leaf.cuts.now)) }
        ensures value { IfSome result (λ total. quotient_of total self.now.denominator ≡ partial (quotient_of start self.now.denominator) (λ k. neg_ℚ (cut_weights self.now.leaf k)) (λ k. cut_coefficient self.now.leaf.cuts.now k col) (length self.now.leaf.cuts.now)) }
    {
        let count = self.leaf.cuts.len();
        let mut total = start;
        let mut place = self.next_weighed(0);
        while place < count {
            match self.with_cut(total, place, col) {
                None => return None,
                Some(next) => {
                    total = next;
                    place = self.next_weighed(place + 1);
                }
            }
        }
        Some(total)
    }

    /// What the rows leave of a column's cost, over the denominator, where it can be had in whole numbers. None says nothing.
    pub(crate) fn after_rows(&self, col: usize) -> Option<i128>
        requires whole { IsWholeLeaf self.now }
        requires within { col < length self.now.leaf.model.now.cols }
        ensures room { IfSome result (λ total. HasMargin total) }
        ensures left { IfSome result (λ total. IsReducedCost self.now.leaf.model.now (weights self.now.leaf) (costs self.now.leaf) col (Ok (quotient_of total self.now.denominator))) }
    {
        let entries = self.leaf.model.cols()[col].rows.as_slice();
        let Some(start) = short_over(&self.leaf.cost(col), self.denominator) else {
            return None;
        };
        whole_total(
            i128::from(start),
            &EntryNumbers {
                whole: *self,
                entries,
            },
        )
    }

    /// What is left of a column's cost, over the denominator, where it is known or can be had in whole numbers. None says nothing.
    pub(crate) fn cost_left(&self, col: usize) -> Option<i64>
        requires whole { IsWholeLeaf self.now }
        requires within { col < length self.now.leaf.model.now.cols }
        ensures short { IfSome result (λ n. IsShort n) }
        ensures left { IfSome result (λ n. IsCostAnswer self.now.leaf.model.now self.now.leaf.cuts.now (weights self.now.leaf) (cut_weights self.now.leaf) (costs self.now.leaf) col (Ok (quotient_of n self.now.denominator))) }
    {
        if col < self.costs_known {
            return weight_at(self.costs_left, col);
        }
        let Some(by_rows) = self.after_rows(col) else {
            return None;
        };
        let Some(by_cuts) = self.after_cuts(by_rows, col) else {
            return None;
        };
        short_number(by_cuts)
    }

    /// The changes that a column's bounds are taken of: none where it is known that the region names no such column.
    #[inline]
    fn changes_of(&self, col: usize) -> &[BoundChange]
        requires whole { IsWholeLeaf self.now }
        requires narrow { AreNarrow self.now.leaf.region.now }
        ensures narrow { AreNarrow result.now }
        ensures low { (b : Option ℚ) → low_along result.now col b ≡ low_along self.now.leaf.region.now col b }
        ensures high { (b : Option ℚ) → high_along result.now col b ≡ high_along self.now.leaf.region.now col b }
    {
        if is_unmarked(self.named, col) {
            &[]
        } else {
            self.leaf.region
        }
    }

    /// The bound of a column that what is left of its cost takes. One bound alone is asked of the region, and none where nothing
    /// is left.
    pub(crate) fn column_side(&self, reduced: i64, col: usize) -> Bound
        requires whole { IsWholeLeaf self.now }
        requires within { col < length self.now.leaf.model.now.cols }
        requires narrow { AreNarrow self.now.leaf.region.now }
        ensures { (d : ℤ) → pos 0 <ℤ d → result ≡ needed_side (quotient_of reduced d) (region_low self.now.leaf.model.now self.now.leaf.region.now col) (region_high self.now.leaf.model.now self.now.leaf.region.now col) }
    {
        let changes = self.changes_of(col);
        if reduced > 0 {
            return self.leaf.model.region_low(changes, col);
        }
        if reduced < 0 {
            return self.leaf.model.region_high(changes, col);
        }
        Some(Frac::whole(0))
    }

    /// The total with a column's term, over the denominator, where that can be had in whole numbers and the column's bound is
    /// there. None says nothing.
    fn with_column(&self, total: i128, col: usize) -> Option<i128>
        requires whole { IsWholeLeaf self.now }
        requires total { HasMargin total }
        requires within { col < length self.now.leaf.model.now.cols }
        requires narrow { AreNarrow self.now.leaf.region.now }
        ensures room { IfSome result (λ next. HasMargin next) }
        ensures column { IfSome result (λ next. IsColumnAnswer self.now.leaf.model.now self.now.leaf.cuts.now self.now.leaf.region.now (weights self.now.leaf) (cut_weights self.now.leaf) (costs self.now.leaf) (quotient_of total self.now.denominator) col (Ok (quotient_of next self.now.denominator))) }
        ensures side { IfSome result (λ next. column_side (leaf_formulation self.now.leaf) self.now.leaf.region.now (weights self.now.leaf) (cut_weights self.now.leaf) (costs self.now.leaf) col ≢ None) }
    {
        let Some(reduced) = self.cost_left(col) else {
            return None;
        };
        let side = self.column_side(reduced, col);
        let Some(term) = side_term(reduced, &side) else {
            return None;
        };
        with_product(total, term.factor, term.number)
    }

    /// The total with the terms of all columns, as `with_column`.
    fn columns_total(&self, start: i128) -> Option<i128>
        requires whole { IsWholeLeaf self.now }
        requires start { HasMargin start }
        requires narrow { AreNarrow self.now.leaf.region.now }
        ensures room { IfSome result (λ total. HasMargin total) }
        ensures total { IfSome result (λ total. IsColumnsTotal self.now.leaf.model.now self.now.leaf.cuts.now self.now.leaf.region.now (weights self.now.leaf) (cut_weights self.now.leaf) (costs self.now.leaf) (quotient_of start self.now.denominator) (Ok (quotient_of total self.now.denominator))) }
        ensures sides { IfSome result (λ total. (j : ℕ) → j < length self.now.leaf.model.now.cols → column_side (leaf_formulation self.now.leaf) self.now.leaf.region.now (weights self.now.leaf) (cut_weights self.now.leaf) (costs self.now.leaf) j ≢ None) }
    {
        let mut total = start;
        for col in 0..self.leaf.model.cols().len() {
            match self.with_column(total, col) {
                None => return None,
                Some(next) => total = next,
            }
        }
        Some(total)
    }

    /// The leaf's number, where it can be had in whole numbers. Then each step has room. None says nothing.
    pub fn number(&self) -> Option<Frac>
        requires whole { IsWholeLeaf self.now }
        requires narrow { AreNarrow self.now.leaf.region.now }
        ensures { IfSome result (λ v. IsDualAnswer (leaf_formulation self.now.leaf) self.now.leaf.region.now (weights self.now.leaf) (cut_weights self.now.leaf) (leaf_constant self.now.leaf) (costs self.now.leaf) (Ok (Num v))) }
    {
        let Some(rows) = self.rows_total() else {
            return None;
        };
        let Some(cuts) = self.cuts_total(rows) else {
            return None;
        };
        let Some(total) = self.columns_total(cuts) else {
            return None;
        };
        Some(quotient(total, self.denominator))
    }
}
