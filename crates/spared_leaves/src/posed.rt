// One column of a model with its cuts: what a list of multipliers leaves of its cost, and whether its term makes a step.
ghost use Rattle.std.specs.Prelude.{◌≡◌, ◌↔◌, ◌<◌, ◌≤◌, ℕ, length, if◌then◌else◌, pos, IsTrue, Some, IfSome, OkIff};
ghost use Rattle.frac128.specs.Rational.{ℚ, int, neg_ℚ, ◌+ℚ◌, ◌*ℚ◌};
ghost use Rattle.checked_sum.specs.Steps.{StepFits};
ghost use Rattle.lp_model.specs.Program.{coefficient};
ghost use Rattle.lp_model.specs.Cuts.{is_live};
ghost use Rattle.lp_model.specs.CutTerms.{term_of};
ghost use Rattle.lp_model.specs.Regions.{AreNarrow, region_low, region_high, IsCrossed};
ghost use Rattle.lp_model.specs.Formulations.{formulation, cut_coefficient};
ghost use Rattle.leaf_dual.specs.Dual.{is_row_variable, multiplier, is_cut, cut_weight, column_reduced_cost, needed_side};
ghost use Rattle.leaf_dual.specs.Answers.{EntriesFit};
ghost use Rattle.leaf_dual.specs.Parts.{cost_of};
ghost use Rattle.spared_leaves.specs.Questions.{IsQuietColumn};
ghost use Rattle.spared_leaves.specs.Spared.{IsCrossedIn};
ghost use Rattle.spared_leaves.specs.private.Sums.{is_at, IsLeftOf};

use frac128::{Frac, Wide};
use lp_model::{Bound, BoundChange, ColId, CutRow, Model, Var, is_crossed, needed_side};

/// A model with its cuts.
#[derive(Clone, Copy, Drop)]
pub struct Posed<'a> {
    pub model: &'a Model,
    pub cuts: &'a [CutRow],
}

/// The total less a weight times a number, if that step has room.
fn less_product(total: &Frac, weight: &Frac, number: &Frac) -> Result<Frac, Wide>
    ensures { OkIff result (StepFits total.now (neg_ℚ weight.now) number.now) (total.now +ℚ neg_ℚ weight.now *ℚ number.now) }
{
    if number.is_zero() {
        return Ok(*total);
    }
    let factor = weight.neg();
    if factor.is_zero() {
        return Ok(*total);
    }
    total.add_product(&factor, number)
}

/// The row that the variable is the activity of, if it is that of one.
fn named_row(of: &Var) -> Option<u32>
    ensures { (i : ℕ) → is_row_variable of.now i ≡ is_at result i }
{
    match of {
        Var::Row(row) => Some(row.0),
        _ => None,
    }
}

/// The cut that the variable is the activity of, if it is that of one.
fn named_cut(of: &Var) -> Option<u32>
    ensures { (k : ℕ) → is_cut of.now k ≡ is_at result k }
{
    match of {
        Var::Cut(cut) => Some(cut.0),
        _ => None,
    }
}

/// The number that a cut's terms give to a column, 0 where they do not name it.
fn term_of(terms: &[(ColId, Frac)], col: usize) -> Frac
    ensures { result ≡ term_of col terms.now }
{
    for (name, number) in terms {
        if name.0 as usize == col {
            return *number;
        }
    }
    Frac::whole(0)
}

/// Whether there is a bound and it is 0.
fn is_none(bound: &Bound) -> bool
    ensures { IsTrue result → bound.now ≡ Some (int (pos 0)) }
{
    match bound {
        None => false,
        Some(number) => number.is_zero(),
    }
}

impl Posed<'_> {
    /// The cost of a column in least form, or 0.
    fn cost(&self, costed: bool, col: usize) -> Frac
        requires { col < length self.now.model.now.cols }
        ensures { result ≡ cost_of costed self.now.model.now col }
    {
        if costed {
            self.model.sense().least_form(self.model.cost(1, col))
        } else {
            Frac::whole(0)
        }
    }

    /// The total less what a row takes of a column's cost by this weight, if that step has room.
    fn less_row(&self, total: &Frac, weight: &Frac, row: u32, col: usize) -> Result<Frac, Wide>
        requires { col < length self.now.model.now.cols }
        ensures { OkIff result (StepFits total.now (neg_ℚ weight.now) (coefficient self.now.model.now row col)) (total.now +ℚ neg_ℚ weight.now *ℚ coefficient self.now.model.now row col) }
    {
        less_product(total, weight, &self.model.coefficient(row, col))
    }

    /// What the rows that a list names leave of a start. None where a step has no room, and where the list does not name the rows
    /// in order.
    fn after_rows(&self, mult: &[(Var, Frac)], start: &Frac, col: usize) -> Option<Frac>
        requires { col < length self.now.model.now.cols }
        ensures { IfSome result (λ v. IsLeftOf start.now (multiplier mult.now) (λ i. coefficient self.now.model.now i col) (length self.now.model.now.rows) v) }
    {
        let rows = self.model.rows().len();
        let mut total = *start;
        let mut next = 0_usize;
        for (of, weight) in mult {
            let Some(row) = named_row(of) else {
                continue;
            };
            let place = row as usize;
            if place < next || place >= rows {
                return None;
            }
            match self.less_row(&total, weight, row, col) {
                Ok(left) => total = left,
                Err(_) => return None,
            }
            next = place + 1;
        }
        Some(total)
    }

    /// The total less what a cut takes of a column's cost by this multiplier, if that step has room. A cut that does not count takes
    /// nothing.
    fn less_cut(&self, total: &Frac, weight: &Frac, cut: usize, col: usize) -> Result<Frac, Wide>
        requires { cut < length self.now.cuts.now }
        ensures { (w : ℚ) → w ≡ (if is_live self.now.cuts.now cut then weight.now else int (pos 0)) → OkIff result (StepFits total.now (neg_ℚ w) (cut_coefficient self.now.cuts.now cut col)) (total.now +ℚ neg_ℚ w *ℚ cut_coefficient self.now.cuts.now cut col) }
    {
        let row = &self.cuts[cut];
        if row.live {
            less_product(total, weight, &term_of(row.terms.as_slice(), col))
        } else {
            Ok(*total)
        }
    }

    /// What the cuts that a list names leave of a start, as `after_rows`.
    fn after_cuts(&self, mult: &[(Var, Frac)], start: &Frac, col: usize) -> Option<Frac>
        ensures { IfSome result (λ v. IsLeftOf start.now (cut_weight self.now.cuts.now mult.now) (λ k. cut_coefficient self.now.cuts.now k col) (length self.now.cuts.now) v) }
    {
        let cuts = self.cuts.len();
        let mut total = *start;
        let mut next = 0_usize;
        for (of, weight) in mult {
            let Some(cut) = named_cut(of) else {
                continue;
            };
            let place = cut as usize;
            if place < next || place >= cuts {
                return None;
            }
            match self.less_cut(&total, weight, place, col) {
                Ok(left) => total = left,
                Err(_) => return None,
            }
            next = place + 1;
        }
        Some(total)
    }

    /// What is left of a column's cost, where each step has room. None says nothing.
    fn cost_left(&self, mult: &[(Var, Frac)], costed: bool, col: usize) -> Option<Frac>
        requires { col < length self.now.model.now.cols }
        ensures fits { IfSome result (λ left. EntriesFit (formulation self.now.model.now self.now.cuts.now) (multiplier mult.now) (cut_weight self.now.cuts.now mult.now) (cost_of costed self.now.model.now) col) }
        ensures value { IfSome result (λ left. left ≡ column_reduced_cost (formulation self.now.model.now self.now.cuts.now) (multiplier mult.now) (cut_weight self.now.cuts.now mult.now) (cost_of costed self.now.model.now) col) }
    {
        match self.after_rows(mult, &self.cost(costed, col), col) {
            None => None,
            Some(left) => self.after_cuts(mult, &left, col),
        }
    }

    /// The bound of a column in a region that what is left of its cost takes.
    fn bound(&self, region: &[BoundChange], left: &Frac, col: usize) -> Bound
        requires within { col < length self.now.model.now.cols }
        requires narrow { AreNarrow region.now }
        ensures { result ≡ needed_side left.now (region_low self.now.model.now region.now col) (region_high self.now.model.now region.now col) }
    {
        let low = self.model.region_low(region, col);
        let high = self.model.region_high(region, col);
        needed_side(left, &low, &high)
    }

    /// Whether a column that is there is seen to make no step: its entries have room, and what is left of its cost, or the
    /// bound that this takes, is 0.
    pub(crate) fn is_quiet(
        &self,
        region: &[BoundChange],
        mult: &[(Var, Frac)],
        costed: bool,
        col: usize,
    ) -> bool
        requires { AreNarrow region.now }
        ensures absent { length self.now.model.now.cols ≤ col → IsTrue result }
        ensures quiet { IsTrue result → col < length self.now.model.now.cols → IsQuietColumn (formulation self.now.model.now self.now.cuts.now) region.now (multiplier mult.now) (cut_weight self.now.cuts.now mult.now) (cost_of costed self.now.model.now) col }
    {
        if col >= self.model.cols().len() {
            return true;
        }
        match self.cost_left(mult, costed, col) {
            None => false,
            Some(left) => is_none(&self.bound(region, &left, col)),
        }
    }

    /// Whether there is the column and it has no number in a region.
    pub(crate) fn crosses(&self, region: &[BoundChange], col: usize) -> bool
        requires { AreNarrow region.now }
        ensures { IsTrue result ↔ IsCrossedIn region.now self.now.model.now col }
    {
        if col >= self.model.cols().len() {
            return false;
        }
        let low = self.model.region_low(region, col);
        let high = self.model.region_high(region, col);
        is_crossed(&low, &high)
    }
}
