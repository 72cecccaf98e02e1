// Totals of a number where the side of one row becomes another one.
ghost use Rattle.std.specs.Prelude.{◌≡◌, ◌≢◌, ◌+◌, ◌≤◌, ℕ, IsTrue, length, None, Ok, IfSome};
ghost use Rattle.frac128.specs.Rational.{◌-ℚ◌, ◌*ℚ◌};
ghost use Rattle.whole_sums.specs.Wholes.{IsDenominator};
ghost use Rattle.kept_totals.specs.Short.{IsShortFraction};
ghost use Rattle.leaf_dual.specs.declared.dual.LagValue.TheVariants.{Num};
ghost use Rattle.leaf_dual.specs.Dual.{row_side};
ghost use Rattle.leaf_dual.specs.ShortTerms.{AreFewTerms};
ghost use Rattle.leaf_totals.specs.Keeping.{Question, AnswersQuestion, AreTrueTotals, AreComplete};
ghost use Rattle.leaf_totals.specs.Moving.{IsMovedSide, ShortMovedLaw, MovedLaw};

use crate::keeping::LeafTotals;
use frac128::Frac;
use kept_totals::{Steps, Term};
use lp_model::Bound;
use std::sync::ledger::Ledger;
use whole_sums::{SHORT_LIMIT, product, short_number, short_over, whole_number};

/// Whether a number is above 0 and short.
fn is_denominator(number: i64) -> bool
    ensures { IsTrue result → IsDenominator number }
{
    0 < number && number < SHORT_LIMIT
}

/// A term whose product is by how much that of a weight and a side grows, where the side becomes another one, and the product with that
/// is seen to be a short number over a denominator.
fn growth_term(over: i64, weight: &Frac, before: &Frac, after: &Frac) -> Option<Term>
    requires { IsDenominator over }
    ensures growth { IfSome result (λ t. t.factor *ℚ t.number ≡ weight.now *ℚ after.now -ℚ weight.now *ℚ before.now) }
    ensures short { IfSome result (λ t. IsShortFraction over (weight.now *ℚ after.now)) }
{
    let Some(factor) = short_over(weight, over) else {
        return None;
    };
    let Some(side) = whole_number(after) else {
        return None;
    };
    let Some(_product) = short_number(product(factor, side)) else {
        return None;
    };
    let Ok(grown) = after.sub(before) else {
        return None;
    };
    let Some(number) = whole_number(&grown) else {
        return None;
    };
    Some(Term::over(factor, number, over))
}

impl LeafTotals {
    /// The number where the side of a row becomes another one, and all else stays: all that is kept grows by as much as the row's term grew,
    /// with a step for each total that is kept and one more. `None` where that isn't seen to have room, after no step: then nothing is known of what is kept.
    pub fn move_side<L: Ledger>(
        &mut self,
        weight: &Frac,
        before: &Bound,
        after: &Bound,
        steps: &mut Steps<L>,
    ) -> Option<Frac>
        ensures moved { IfSome result (λ v. (i : ℕ) (q r : Question) → IsMovedSide i q r → q.row_weights i ≡ weight.now → r.row_weights i ≡ weight.now → row_side q.form.model q.row_weights i ≡ before.now → row_side r.form.model r.row_weights i ≡ after.now → AreFewTerms r.form → AreTrueTotals q self.old → AreTrueTotals r self.new × (AreComplete r self.new × AnswersQuestion r (Ok (Num v)))) }
        ensures there { IfSome result (λ v. after.now ≢ None) }
        ensures room { self.new.totals.room ≡ self.old.totals.room }
        ensures rises { steps.old ≤ steps.new }
        ensures none { result ≡ None → steps.new ≡ steps.old }
        ensures steps { steps.new ≤ steps.old + (length self.old.totals.kept + 1) }
    {
        let Some(over) = self.over else {
            return None;
        };
        if !is_denominator(over) {
            return None;
        }
        let Some(old) = before else {
            return None;
        };
        let Some(new) = after else {
            return None;
        };
        let Some(term) = growth_term(over, weight, old, new) else {
            return None;
        };
        if !self.totals.move_by(&term, steps) {
            return None;
        }
        Some(self.totals.value())
    }
}

/// Terms that are short stay so where that of the row is.
pub fn short_moved_law()
    ensures { ShortMovedLaw }
{}

/// All totals behind the row grow by as much as its term: what was kept of the one number, moved, is kept of the other one.
pub fn moved_law()
    ensures { MovedLaw }
{}
