// A leaf's number with the totals that are kept of its two lists.
ghost use Rattle.std.specs.Prelude.{◌≡◌, ◌≢◌, ◌↔◌, ◌∷◌, ◌+◌, ◌-◌, ◌*◌, ◌/◌, ◌<◌, ◌≤◌, true, false, length, IsTrue, IfOk, MatchBool, List};
ghost use Rattle.frac128.specs.Rational.{ℚ};
ghost use Rattle.lp_model.specs.Regions.{Path, AreNarrow};
ghost use Rattle.lp_model.specs.Formulations.{formulation};
ghost use Rattle.lp_model.specs.declared.types.CutRow.{CutRow};
ghost use Rattle.lp_model.specs.declared.types.Var.{Var};
ghost use Rattle.leaf_dual.specs.Dual.{Multipliers, multiplier, row_side};
ghost use Rattle.leaf_totals.specs.declared.keeping.LeafTotals.{LeafTotals};
ghost use Rattle.leaf_totals.specs.Keeping.{list_question, AreComplete, kept_most, steps_left};
ghost use Rattle.leaf_totals.specs.Likeness.{IsBackBefore, IsBack};
ghost use Rattle.leaf_judging.specs.declared.closing.LeafNumber.TheVariants.{Empty};
ghost use Rattle.leaf_judging.specs.Closing.{IsRefuted};
ghost use Rattle.leaf_judging.specs.Totals.{AreListTotals, AreFarkasTotals, IsEntryOf, terms_of};
ghost use Rattle.leaf_judging.specs.private.Entries.{CanRefute, HasRefuted, IsLagNumber, GoesOnFrom, MovesSide};

use crate::closing::LeafNumber;
use crate::optional::{OptionalTotals, list_number};
use cover_cuts::CutPool;
use leaf_dual::{LagValue, Leaf, Steps, multiplier};
use leaf_totals::LeafTotals;
use lp_model::{Bound, BoundChange, Model, Mult, WideStep};
use std::alloc::{AllocError, Global};
use std::marker::Brand;
use std::sync::ledger::{Blank, Ledger};

/// A leaf's number, and the totals of its multipliers and of its Farkas multipliers. Of a list without any none are kept: most
/// leaves have no Farkas multipliers.
#[derive(Drop)]
pub struct LeafEntry {
    pub number: LeafNumber,
    pub lag: LeafTotals,
    pub farkas: OptionalTotals,
}

/// How many totals are kept of a list at most.
pub(crate) fn totals_room(model: &Model) -> usize
    ensures { result ≡ length model.now.cols / 64 + 2 }
{
    model.cols().len() / 64 + 2
}

/// Whether there are Farkas multipliers, and their number is above 0, gone on with from what is kept.
fn refutes<L: Ledger>(
    totals: &mut OptionalTotals,
    model: &Model,
    pool: &CutPool,
    region: &[BoundChange],
    farkas: &Mult,
    steps: &mut Steps<L>,
) -> bool
    requires narrow { AreNarrow region.now }
    requires totals { CanRefute (formulation model.now pool.now) region.now farkas.now totals.old }
    ensures refuted { IsTrue result ↔ IsRefuted (formulation model.now pool.now) region.now farkas.now }
    ensures totals { HasRefuted (formulation model.now pool.now) region.now farkas.now totals.new }
    ensures rises { steps.old ≤ steps.new }
    ensures steps { steps.new ≤ steps.old + terms_of (formulation model.now pool.now) }
{
    if farkas.as_slice().is_empty() {
        return false;
    }
    let leaf = Leaf {
        model,
        cuts: pool.rows(),
        region,
        mult: farkas.as_slice(),
        costed: false,
    };
    match totals.number(&leaf, steps) {
        Ok(value) => value.is_positive(),
        Err(_) => false,
    }
}

/// The number of the multipliers, gone on with from what is kept.
fn lag_number<L: Ledger>(
    totals: &mut LeafTotals,
    model: &Model,
    pool: &CutPool,
    region: &[BoundChange],
    mult: &Mult,
    seeks_short: bool,
    steps: &mut Steps<L>,
) -> LeafNumber
    requires narrow { AreNarrow region.now }
    requires totals { AreListTotals (formulation model.now pool.now) region.now mult.now true totals.old }
    ensures number { IsLagNumber (formulation model.now pool.now) region.now mult.now result }
    ensures totals { AreListTotals (formulation model.now pool.now) region.now mult.now true totals.new }
    ensures complete { AreComplete (list_question (formulation model.now pool.now) region.now mult.now true) totals.new }
    ensures rises { steps.old ≤ steps.new }
    ensures steps { steps.new ≤ steps.old + steps_left (list_question (formulation model.now pool.now) region.now mult.now true) totals.old }
{
    let leaf = Leaf {
        model,
        cuts: pool.rows(),
        region,
        mult: mult.as_slice(),
        costed: true,
    };
    match list_number(totals, &leaf, seeks_short, steps) {
        Ok(value) => LeafNumber::Lag(value),
        Err(step) => LeafNumber::Wide(step),
    }
}

/// How many totals of Farkas multipliers there is to be room for: none where there are no such multipliers.
fn farkas_room(model: &Model, farkas: &Mult) -> usize
    ensures { (m : Var × ℚ) (ms : Multipliers) → farkas.now ≡ m ∷ ms → result ≡ length model.now.cols / 64 + 2 }
{
    if farkas.as_slice().is_empty() {
        0
    } else {
        totals_room(model)
    }
}

/// Whether the region has no feasible point.
fn is_empty(number: &LeafNumber) -> bool
    ensures { MatchBool result (number.now ≡ Empty) (number.now ≢ Empty) }
{
    match number {
        LeafNumber::Empty => true,
        _ => false,
    }
}

impl LeafEntry {
    /// Nothing known, with room for all totals.
    fn new(alloc: Global, model: &Model, farkas: &Mult) -> Result<LeafEntry, AllocError>
        ensures lag { IfOk result (λ e. (cuts : List CutRow) (path : Path) (mult : Multipliers) → AreListTotals (formulation model.now cuts) path mult true e.lag) }
        ensures farkas { IfOk result (λ e. (cuts : List CutRow) (path : Path) → CanRefute (formulation model.now cuts) path farkas.now e.farkas) }
    {
        let Ok(lag) = LeafTotals::new(alloc, totals_room(model)) else {
            return Err(AllocError);
        };
        match OptionalTotals::new(alloc, farkas_room(model, farkas)) {
            Ok(farkas) => Ok(LeafEntry {
                number: LeafNumber::Lag(LagValue::Minus),
                lag,
                farkas,
            }),
            Err(error) => {
                drop(lag);
                Err(error)
            }
        }
    }

    /// The same once more.
    pub(crate) fn copy(&self, alloc: Global) -> Result<LeafEntry, AllocError>
        ensures { IfOk result (λ e. e ≡ self.now) }
    {
        let Ok(lag) = self.lag.copy(alloc) else {
            return Err(AllocError);
        };
        match self.farkas.copy(alloc) {
            Ok(farkas) => Ok(LeafEntry {
                number: self.number,
                lag,
                farkas,
            }),
            Err(error) => {
                drop(lag);
                Err(error)
            }
        }
    }

    /// The number by both lists, gone on with from what is kept of them: by the Farkas multipliers first.
    fn renumber<L: Ledger>(
        &mut self,
        model: &Model,
        pool: &CutPool,
        region: &[BoundChange],
        mult: &Mult,
        farkas: &Mult,
        seeks_short: bool,
        steps: &mut Steps<L>,
    )
        requires narrow { AreNarrow region.now }
        requires lag { AreListTotals (formulation model.now pool.now) region.now mult.now true self.old.lag }
        requires farkas { CanRefute (formulation model.now pool.now) region.now farkas.now self.old.farkas }
        ensures entry { IsEntryOf (formulation model.now pool.now) region.now mult.now farkas.now self.new }
        ensures rises { steps.old ≤ steps.new }
        ensures steps { steps.new ≤ steps.old + 2 * terms_of (formulation model.now pool.now) }
    {
        if model.is_empty_region(region) {
            self.number = LeafNumber::Empty;
            return;
        }
        if refutes(&mut self.farkas, model, pool, region, farkas, steps) {
            self.number = LeafNumber::Empty;
            return;
        }
        self.number = lag_number(&mut self.lag, model, pool, region, mult, seeks_short, steps);
    }

    /// The number after another cost of a column, gone on with from the last total before it. An empty region stays one.
    pub(crate) fn go_on_from<L: Ledger>(
        &mut self,
        col: usize,
        model: &Model,
        pool: &CutPool,
        region: &[BoundChange],
        mult: &Mult,
        steps: &mut Steps<L>,
    )
        requires narrow { AreNarrow region.now }
        requires back { self.old.number ≢ Empty → (t : LeafTotals) → IsBackBefore col self.old.lag t → IsBack col (list_question (formulation model.now pool.now) region.now mult.now true) t }
        requires room { kept_most (list_question (formulation model.now pool.now) region.now mult.now true) ≤ self.old.lag.totals.room }
        ensures went { GoesOnFrom (formulation model.now pool.now) region.now mult.now self.old self.new }
        ensures rises { steps.old ≤ steps.new }
        ensures steps { steps.new ≤ steps.old + (length model.now.cols - col + 63) }
    {
        if is_empty(&self.number) {
            self.lag.back_to(0);
            return;
        }
        self.lag.back_before(col);
        self.number = lag_number(&mut self.lag, model, pool, region, mult, false, steps);
    }
}

/// The side of a row that a list takes.
fn list_side(model: &Model, mult: &Mult, row: usize) -> Bound
    requires { row < length model.now.rows }
    ensures { result ≡ row_side model.now (multiplier mult.now) row }
{
    let leaf = Leaf {
        model,
        cuts: &[],
        region: &[],
        mult: mult.as_slice(),
        costed: true,
    };
    leaf.row_side(row)
}

impl LeafEntry {
    /// The number after another side of a row, where all that is kept of the multipliers' totals grows by as much as the row's term grew. An
    /// empty region stays one. False where that isn't seen, after no step: then nothing is known of the entry.
    pub(crate) fn move_side<L: Ledger>(
        &mut self,
        row: usize,
        before: &Model,
        model: &Model,
        mult: &Mult,
        steps: &mut Steps<L>,
    ) -> bool
        requires within { row < length before.now.rows }
        requires there { row < length model.now.rows }
        ensures moved { IsTrue result → MovesSide row before.now model.now mult.now self.old self.new }
        ensures rises { steps.old ≤ steps.new }
        ensures none { result ≡ false → steps.new ≡ steps.old }
        ensures steps { steps.new ≤ steps.old + (length self.old.lag.totals.kept + 1) }
    {
        if is_empty(&self.number) {
            self.lag.back_to(0);
            return true;
        }
        let weight = multiplier(mult.as_slice(), row);
        let old = list_side(before, mult, row);
        let new = list_side(model, mult, row);
        match self.lag.move_side(&weight, &old, &new, steps) {
            None => false,
            Some(number) => {
                self.number = LeafNumber::Lag(LagValue::Num(number));
                true
            }
        }
    }
}

/// The entry of a region under two lists, computed from nothing.
pub(crate) fn entry_by<L: Ledger>(
    alloc: Global,
    model: &Model,
    pool: &CutPool,
    region: &[BoundChange],
    mult: &Mult,
    farkas: &Mult,
    seeks_short: bool,
    steps: &mut Steps<L>,
) -> Result<LeafEntry, AllocError>
    requires narrow { AreNarrow region.now }
    ensures entry { IfOk result (λ e. IsEntryOf (formulation model.now pool.now) region.now mult.now farkas.now e) }
    ensures rises { steps.old ≤ steps.new }
    ensures steps { steps.new ≤ steps.old + 2 * terms_of (formulation model.now pool.now) }
{
    match LeafEntry::new(alloc, model, farkas) {
        Ok(mut entry) => {
            entry.renumber(model, pool, region, mult, farkas, seeks_short, steps);
            Ok(entry)
        }
        Err(error) => Err(error),
    }
}

/// `entry_by` with the counter of a ledger that is opened here.
fn entry_with<L: Ledger>(
    alloc: Global,
    model: &Model,
    pool: &CutPool,
    region: &[BoundChange],
    mult: &Mult,
    farkas: &Mult,
    blank: Blank,
) -> Result<LeafEntry, AllocError>
    requires narrow { AreNarrow region.now }
    requires name { blank.name ≡ L.name }
    requires parts { blank.parts ≡ L.parts }
    requires some { 0 < L.parts }
    ensures { IfOk result (λ e. IsEntryOf (formulation model.now pool.now) region.now mult.now farkas.now e) }
{
    let mut steps: Steps<L> = Steps::new(blank);
    entry_by(alloc, model, pool, region, mult, farkas, false, &mut steps)
}

/// What a leaf of a region with these multipliers and Farkas multipliers of rows and cuts keeps: its number (that of `number_of`), and
/// the totals of both lists.
///
/// # Errors
///
/// Only for want of memory.
pub fn entry_of(
    alloc: Global,
    model: &Model,
    pool: &CutPool,
    path: &[BoundChange],
    mult: &Mult,
    farkas: &Mult,
) -> Result<LeafEntry, AllocError>
    requires { AreNarrow path.now }
    ensures { IfOk result (λ e. IsEntryOf (formulation model.now pool.now) path.now mult.now farkas.now e) }
{
    entry_with::<Brand>(alloc, model, pool, path, mult, farkas, Blank::new(1))
}
