// A sum that is gone on with from a kept total.
ghost use Rattle.std.specs.Prelude.{◌≡◌, ◌+◌, ◌-◌, ◌*◌, ◌/◌, ◌<◌, ◌≤◌, ℕ, length, IsTrue, IfErr, OnOk, MatchOption};
ghost use Rattle.frac128.specs.Rational.{ℚ};
ghost use Rattle.whole_sums.specs.Wholes.{IsDenominator};
ghost use Rattle.kept_totals.specs.Short.{AreShortProducts};
ghost use Rattle.kept_totals.specs.Walk.{IsTotalAt, KeepsMore, IsSumStop, stop_place};

use crate::steps::Steps;
use crate::term::Term;
use crate::totals::Totals;
use std::sync::ledger::Ledger;

/// The terms of a sum, by place from 0, some of which may be missing.
pub trait PartialTerms {
    ghost count: { Self → ℕ };

    ghost factor: { Self → ℕ → ℚ };

    ghost number: { Self → ℕ → ℚ };

    ghost is_there: { Self → ℕ → Type 0 };

    /// What the terms are read from.
    ghost is_lawful: { Self → Type 0 };

    /// How many terms there are.
    fn count(&self) -> usize
        ensures { result ≡ count self.now };

    /// A term, if it is there.
    fn term(&self, index: usize) -> Option<Term>
        requires index { index < count self.now }
        requires lawful { is_lawful self.now }
        ensures { MatchOption result (¬ is_there self.now index) (λ t. is_there self.now index × (t ≡ record { factor = factor self.now index; number = number self.now index })) };
}

/// Whether each term is there, and its product is seen at once to be a short number over a denominator.
pub fn are_short<T: PartialTerms>(terms: &T, denominator: i64) -> bool
    requires lawful { T.is_lawful terms.now }
    requires denominator { IsDenominator denominator }
    ensures there { IsTrue result → (k : ℕ) → k < T.count terms.now → T.is_there terms.now k }
    ensures short { IsTrue result → AreShortProducts denominator (T.factor terms.now) (T.number terms.now) (T.count terms.now) }
{
    let count = terms.count();
    for index in 0..count {
        let Some(term) = terms.term(index) else {
            return false;
        };
        if !term.is_short_over(denominator) {
            return false;
        }
    }
    true
}

/// Why a sum isn't gone on with at a place.
#[derive(Clone, Copy, Drop)]
pub enum Stop {
    /// The term is missing.
    Missing(usize),
    /// Its step has no room.
    Wide(usize),
}

/// Adds the terms from a place on that stand before another one, or answers the first that is missing or whose step has no room.
pub fn add_terms<T: PartialTerms, L: Ledger>(
    totals: &mut Totals,
    terms: &T,
    from: usize,
    to: usize,
    steps: &mut Steps<L>,
) -> Result<(), Stop>
    requires order { from ≤ to }
    requires within { to ≤ T.count terms.now }
    requires lawful { T.is_lawful terms.now }
    ensures total { OnOk result ((start : ℚ) → IsTotalAt start (T.factor terms.now) (T.number terms.now) (T.is_there terms.now) from totals.old.total → IsTotalAt start (T.factor terms.now) (T.number terms.now) (T.is_there terms.now) to totals.new.total) }
    ensures stop { IfErr result (λ s. (start : ℚ) → IsTotalAt start (T.factor terms.now) (T.number terms.now) (T.is_there terms.now) from totals.old.total → IsSumStop start (T.factor terms.now) (T.number terms.now) (T.is_there terms.now) to s) }
    ensures from { IfErr result (λ s. from ≤ stop_place s) }
    ensures place { IfErr result (λ s. stop_place s < to) }
    ensures kept { totals.new.kept ≡ totals.old.kept }
    ensures room { totals.new.room ≡ totals.old.room }
    ensures rises { steps.old ≤ steps.new }
    ensures steps { steps.new ≤ steps.old + (to - from) }
{
    for index in from..to {
        let Some(term) = terms.term(index) else {
            return Err(Stop::Missing(index));
        };
        match totals.add_term(&term, steps) {
            Ok(()) => {}
            Err(_) => return Err(Stop::Wide(index)),
        }
    }
    Ok(())
}

/// How many terms lie between two totals that are kept.
const BLOCK: usize = 64;

/// Goes on from the last kept total, before which stand this many blocks of 64 terms, to the last term, and keeps the total
/// after each 64th, behind those that are kept of other sums. Answers the first term that is missing or whose step has no room.
pub fn add_blocks<T: PartialTerms, L: Ledger>(
    totals: &mut Totals,
    terms: &T,
    blocks: usize,
    steps: &mut Steps<L>,
) -> Result<(), Stop>
    requires within { 64 * blocks ≤ T.count terms.now }
    requires lawful { T.is_lawful terms.now }
    requires room { length totals.old.kept + (T.count terms.now / 64 - blocks) ≤ totals.old.room }
    ensures total { OnOk result ((start : ℚ) → IsTotalAt start (T.factor terms.now) (T.number terms.now) (T.is_there terms.now) (64 * blocks) totals.old.total → IsTotalAt start (T.factor terms.now) (T.number terms.now) (T.is_there terms.now) (T.count terms.now) totals.new.total) }
    ensures stop { IfErr result (λ s. (start : ℚ) → IsTotalAt start (T.factor terms.now) (T.number terms.now) (T.is_there terms.now) (64 * blocks) totals.old.total → IsSumStop start (T.factor terms.now) (T.number terms.now) (T.is_there terms.now) (T.count terms.now) s) }
    ensures from { IfErr result (λ s. 64 * blocks ≤ stop_place s) }
    ensures place { IfErr result (λ s. stop_place s < T.count terms.now) }
    ensures count { IfErr result (λ s. length totals.new.kept ≡ length totals.old.kept + (stop_place s / 64 - blocks)) }
    ensures kept { (start : ℚ) → IsTotalAt start (T.factor terms.now) (T.number terms.now) (T.is_there terms.now) (64 * blocks) totals.old.total → KeepsMore start (T.factor terms.now) (T.number terms.now) (T.is_there terms.now) (blocks + 1) totals.old.kept totals.new.kept }
    ensures all_kept { OnOk result (length totals.new.kept ≡ length totals.old.kept + (T.count terms.now / 64 - blocks)) }
    ensures room { totals.new.room ≡ totals.old.room }
    ensures rises { steps.old ≤ steps.new }
    ensures steps { steps.new ≤ steps.old + (T.count terms.now - 64 * blocks) }
{
    let count = terms.count();
    let whole = count / BLOCK;
    for block in blocks..whole {
        match add_terms(totals, terms, BLOCK * block, BLOCK * (block + 1), steps) {
            Ok(()) => totals.keep(),
            Err(stop) => return Err(stop),
        }
    }
    add_terms(totals, terms, BLOCK * whole, count, steps)
}
