// Totals that run and are kept.
ghost use Rattle.std.specs.Prelude.{◌≡◌, ◌+◌, ◌<◌, ◌≤◌, [], length, map, pos, false, IsTrue, IfOk, OnOk, OnErr};
ghost use Rattle.frac128.specs.Rational.{int, ◌+ℚ◌, ◌*ℚ◌};
ghost use Rattle.checked_sum.specs.Steps.{StepFits};
ghost use Rattle.kept_totals.specs.Kept.{with_total, with_kept, moved_by, IsBackAt, LikeTermsLaw};
ghost use Rattle.kept_totals.specs.Short.{ShortSumLaw};

use crate::steps::Steps;
use crate::term::Term;
use crate::total::Total;
use frac128::{Frac, Wide};
use std::alloc::{AllocError, Global};
use std::marker::Model;
use std::sync::ledger::Ledger;

/// A running total, and totals that were kept on the way. The memory for those is taken ahead (`new`, `copy`), so that
/// going on takes none. Contracts see `RunningTotals`.
#[derive(Drop)]
pub struct Totals {
    total: Total,
    kept: Vec<Total>,
    room: usize,
}

impl Model for Totals {
    ghost use Rattle.std.specs.Prelude.{◌≤◌, length};
    ghost use Rattle.std.specs.Vec.{vec_len, vec_capacity};
    ghost use Rattle.kept_totals.specs.Kept.{RunningTotals, totals_code};

    ghost Value = { RunningTotals };

    ghost coded = { totals_code };

    ghost view = { λ t. record { total = t.total; kept = t.kept.items; room = t.room } };

    ghost invariant = { λ t. (vec_len t.kept ≤ t.room) × (t.room ≤ vec_capacity t.kept) };
}

/// Adds a term to each total of a list. False where one has no room: then it was added to those before that one.
fn move_all(kept: &mut [Total], term: &Term) -> bool
    ensures { IsTrue result → kept.new ≡ map (λ v. v +ℚ term.now.factor *ℚ term.now.number) kept.old }
{
    for place in 0..kept.len() {
        match kept[place].plus(term) {
            Ok(next) => kept[place] = next,
            Err(_) => return false,
        }
    }
    true
}

impl Totals {
    /// The total 0, with room to keep so many.
    pub fn new(alloc: Global, room: usize) -> Result<Totals, AllocError>
        ensures { IfOk result (λ t. t ≡ record { total = int (pos 0); kept = []; room = room }) }
    {
        let kept = Vec::with_capacity(alloc, room)?;
        Ok(Totals {
            total: Total::exact(&Frac::whole(0)),
            kept,
            room,
        })
    }

    /// The total so far.
    pub fn value(&self) -> Frac
        ensures { result ≡ self.now.total }
    {
        self.total.value()
    }

    /// How many totals are kept.
    pub fn count(&self) -> usize
        ensures { result ≡ length self.now.kept }
    {
        self.kept.len()
    }

    /// Begins anew from a start, and keeps none.
    pub fn begin(&mut self, start: &Frac)
        ensures { self.new ≡ record { total = start.now; kept = []; room = self.old.room } }
    {
        self.kept.clear();
        self.total = Total::exact(start);
    }

    /// Adds a term, and ticks. Where its step has no room the total stays.
    pub fn add_term<L: Ledger>(&mut self, term: &Term, steps: &mut Steps<L>) -> Result<(), Wide>
        ensures fits { OnOk result (StepFits self.old.total term.now.factor term.now.number) }
        ensures wide { OnErr result (¬ StepFits self.old.total term.now.factor term.now.number) }
        ensures added { OnOk result (self.new ≡ with_total self.old (self.old.total +ℚ term.now.factor *ℚ term.now.number)) }
        ensures kept { OnErr result (self.new ≡ self.old) }
        ensures ticks { steps.new ≡ steps.old + 1 }
    {
        steps.tick();
        match self.total.plus(term) {
            Ok(next) => {
                self.total = next;
                Ok(())
            }
            Err(wide) => Err(wide),
        }
    }

    /// Keeps the total.
    pub fn keep(&mut self)
        requires { length self.old.kept < self.old.room }
        ensures { self.new ≡ with_kept self.old }
    {
        self.kept.push_reserved(self.total.same());
    }

    /// Goes back to a total that is kept, which takes no step.
    pub fn back_to(&mut self, place: usize)
        requires { place < length self.old.kept }
        ensures { IsBackAt self.old place self.new }
    {
        self.total = self.kept[place].same();
        self.kept.truncate(place + 1);
    }

    /// Adds a term to the total and to each that is kept, and ticks for each: where a term of the sum becomes another one, and all
    /// that is kept stands behind it, the term is how much its product grew. False where one has no room: then no total is known, and
    /// nothing ticks.
    pub fn move_by<L: Ledger>(&mut self, term: &Term, steps: &mut Steps<L>) -> bool
        ensures moved { IsTrue result → self.new ≡ moved_by self.old (term.now.factor *ℚ term.now.number) }
        ensures count { length self.new.kept ≡ length self.old.kept }
        ensures room { self.new.room ≡ self.old.room }
        ensures ticks { IsTrue result → steps.new ≡ steps.old + (length self.old.kept + 1) }
        ensures none { result ≡ false → steps.new ≡ steps.old }
    {
        let moves = self.kept.len() + 1;
        if !move_all(self.kept.as_mut_slice(), term) {
            return false;
        }
        match self.total.plus(term) {
            Ok(grown) => {
                self.total = grown;
                steps.rise(moves);
                true
            }
            Err(_) => false,
        }
    }

    /// The same totals once more, with the same room.
    pub fn copy(&self, alloc: Global) -> Result<Totals, AllocError>
        ensures { IfOk result (λ t. t ≡ self.now) }
    {
        let mut kept = Vec::with_capacity(alloc, self.room)?;
        for place in 0..self.kept.len() {
            kept.push_reserved(self.kept[place].same());
        }
        Ok(Totals {
            total: self.total.same(),
            kept,
            room: self.room,
        })
    }
}

/// Sums whose terms are alike as far as a place have the same total there.
pub fn like_terms_law()
    ensures { LikeTermsLaw }
{}

/// A sum of short numbers over one denominator has room step by step, where the start and they are at most 2^64 times as large together.
pub fn short_sum_law()
    ensures { ShortSumLaw }
{}
