// The totals of a leaf's number that are kept on the way, so that a number of which a term changes is gone on with from there.
ghost use Rattle.std.specs.Prelude.{◌≡◌, ◌≢◌, ◌+◌, ◌<◌, ◌≤◌, [], length, take, None, MatchOption, IfSome, IfOk};
ghost use Rattle.whole_sums.specs.Wholes.{IsDenominator};
ghost use Rattle.lp_model.specs.Regions.{AreNarrow};
ghost use Rattle.leaf_dual.specs.Dual.{HavePlaces};
ghost use Rattle.leaf_totals.specs.Keeping.{question_of, AnswersQuestion, AreKeptTotals, AreTrueTotals, AreComplete, AreCutTo, AreShortFor, AreAllAdded, IsEndedBy, IsTermsEnd, IsFirstWideFor, kept_most, terms_behind, steps_left};

use crate::end::End;
use crate::walk::walk;
use frac128::Frac;
use kept_totals::{Steps, Totals};
use leaf_dual::{
    COLUMN_PLACES, CUT_PLACES, LagValue, Leaf, ROW_PLACES, WholeLeaf, common_denominator,
    mark_named, write_cuts, write_nexts, write_rows,
};
use lp_model::WideStep;
use std::alloc::{AllocError, Global};
use std::marker::Brand;
use std::sync::ledger::{Blank, Ledger};

/// The totals of a leaf's number after the rows, after the cuts and after each 64th column, as far as they go, what the walk
/// ended in before the last column, if it is known to end in something, and the denominator over which all terms are short numbers,
/// if they were all added and that was seen: then the running total is the number.
#[derive(Drop)]
pub struct LeafTotals {
    pub totals: Totals,
    pub ending: Option<End>,
    pub over: Option<i64>,
}

/// Keeps the first so many totals.
fn keep_first(totals: &mut Totals, count: usize)
    ensures kept { totals.new.kept ≡ take count totals.old.kept }
    ensures room { totals.new.room ≡ totals.old.room }
{
    if count == 0 {
        totals.begin(&Frac::whole(0));
        return;
    }
    if count < totals.count() {
        totals.back_to(count - 1);
    }
}

/// `walk` of the leaf with no number over a denominator, so that each term is had in fractions.
fn walk_in_fractions<L: Ledger>(
    totals: &mut Totals,
    leaf: &Leaf<'_>,
    steps: &mut Steps<L>,
) -> Option<End>
    requires narrow { AreNarrow leaf.now.region.now }
    requires places { HavePlaces leaf.now.cuts.now }
    requires few { length totals.old.kept ≤ kept_most (question_of leaf.now) }
    requires kept { AreKeptTotals (question_of leaf.now) totals.old.kept }
    requires room { kept_most (question_of leaf.now) ≤ totals.old.room }
    ensures walk { MatchOption result (AreAllAdded (question_of leaf.now) totals.new) (λ e. IsEndedBy (question_of leaf.now) totals.new e) }
    ensures kept { AreKeptTotals (question_of leaf.now) totals.new.kept }
    ensures room { totals.new.room ≡ totals.old.room }
    ensures rises { steps.old ≤ steps.new }
    ensures steps { steps.new ≤ steps.old + terms_behind (question_of leaf.now) (length totals.old.kept) }
{
    let whole = WholeLeaf {
        leaf: *leaf,
        denominator: 1,
        rows: &[],
        cuts: &[],
        next: &[],
        known: 0,
        costs_left: &[],
        costs_known: 0,
        named: &[],
    };
    walk(totals, &whole, steps)
}

/// `walk` of the leaf, in whole numbers over a denominator of the multipliers where those can be had. Tells the denominator where that
/// is sought, the walk ends behind the last column, and all terms are seen to be short numbers over it.
fn walk_leaf<L: Ledger>(
    totals: &mut Totals,
    leaf: &Leaf<'_>,
    seeks_short: bool,
    over: &mut Option<i64>,
    steps: &mut Steps<L>,
) -> Option<End>
    requires narrow { AreNarrow leaf.now.region.now }
    requires places { HavePlaces leaf.now.cuts.now }
    requires few { length totals.old.kept ≤ kept_most (question_of leaf.now) }
    requires kept { AreKeptTotals (question_of leaf.now) totals.old.kept }
    requires room { kept_most (question_of leaf.now) ≤ totals.old.room }
    ensures walk { MatchOption result (AreAllAdded (question_of leaf.now) totals.new) (λ e. IsEndedBy (question_of leaf.now) totals.new e) }
    ensures kept { AreKeptTotals (question_of leaf.now) totals.new.kept }
    ensures over { IfSome over.new (λ d. (result ≡ None) × (IsDenominator d × AreShortFor d (question_of leaf.now))) }
    ensures room { totals.new.room ≡ totals.old.room }
    ensures rises { steps.old ≤ steps.new }
    ensures steps { steps.new ≤ steps.old + terms_behind (question_of leaf.now) (length totals.old.kept) }
{
    *over = None;
    let denominator = common_denominator(leaf.mult);
    let mut row_places = [0_i64; ROW_PLACES];
    let rows = &mut row_places[..leaf.model.rows().len().min(ROW_PLACES)];
    if !write_rows(leaf.mult, denominator, rows) {
        return walk_in_fractions(totals, leaf, steps);
    }
    let known = leaf.cuts.len().min(CUT_PLACES);
    let mut cut_places = [0_i64; CUT_PLACES];
    let cuts = &mut cut_places[..known];
    if !write_cuts(leaf.cuts, leaf.mult, denominator, cuts) {
        return walk_in_fractions(totals, leaf, steps);
    }
    let mut next = [0_usize; CUT_PLACES];
    write_nexts(cuts, known, &mut next);
    let plain = WholeLeaf {
        leaf: *leaf,
        denominator,
        rows,
        cuts,
        next: &next,
        known,
        costs_left: &[],
        costs_known: 0,
        named: &[],
    };
    let most = if totals.count() < 3 { COLUMN_PLACES } else { 0 };
    let mut lefts = [0_i64; COLUMN_PLACES];
    let costs_known = plain.write_costs_left(most, &mut lefts);
    let mut named = [false; COLUMN_PLACES];
    mark_named(leaf.region, &mut named);
    let whole = WholeLeaf {
        leaf: *leaf,
        denominator,
        rows,
        cuts,
        next: &next,
        known,
        costs_left: &lefts,
        costs_known,
        named: &named,
    };
    match walk(totals, &whole, steps) {
        Some(end) => Some(end),
        None => {
            if seeks_short {
                if whole.has_short_terms() {
                    *over = Some(denominator);
                    return None;
                }
            }
            None
        }
    }
}

/// The answer where a step is the first without room: `Minus` where a side or a bound is missing.
fn answer_of_wide(leaf: &Leaf<'_>, step: &WideStep) -> Result<LagValue, WideStep>
    requires narrow { AreNarrow leaf.now.region.now }
    requires places { HavePlaces leaf.now.cuts.now }
    requires step { IsFirstWideFor (question_of leaf.now) step.now }
    ensures { AnswersQuestion (question_of leaf.now) result }
{
    if leaf.lacks_side() {
        return Ok(LagValue::Minus);
    }
    Err(*step)
}

/// The answer of a walk that ends before the last column: `Minus` where a side or a bound is missing, at the end or behind it, and
/// else the step without room.
fn answer_of_end(leaf: &Leaf<'_>, end: &End) -> Result<LagValue, WideStep>
    requires narrow { AreNarrow leaf.now.region.now }
    requires places { HavePlaces leaf.now.cuts.now }
    requires end { IsTermsEnd (question_of leaf.now) end.now }
    ensures { AnswersQuestion (question_of leaf.now) result }
{
    match end {
        End::Missing(_) => Ok(LagValue::Minus),
        End::Wide(of) => answer_of_wide(leaf, &WideStep::LagTerm { of: *of }),
        End::WideEntry { col, by } => {
            answer_of_wide(leaf, &WideStep::LagEntry { col: *col, by: *by })
        }
    }
}

impl LeafTotals {
    /// No total yet, with room to keep so many.
    pub fn new(alloc: Global, room: usize) -> Result<LeafTotals, AllocError>
        ensures kept { IfOk result (λ t. t.totals.kept ≡ []) }
        ensures room { IfOk result (λ t. t.totals.room ≡ room) }
        ensures ending { IfOk result (λ t. t.ending ≡ None) }
        ensures over { IfOk result (λ t. t.over ≡ None) }
    {
        let totals = Totals::new(alloc, room)?;
        Ok(LeafTotals {
            totals,
            ending: None,
            over: None,
        })
    }

    /// The same totals once more, with the same room.
    pub fn copy(&self, alloc: Global) -> Result<LeafTotals, AllocError>
        ensures { IfOk result (λ t. t ≡ self.now) }
    {
        let totals = self.totals.copy(alloc)?;
        Ok(LeafTotals {
            totals,
            ending: self.ending,
            over: self.over,
        })
    }

    /// Adds the terms behind the last total that is kept, and looks whether they are short where that is sought.
    fn add<L: Ledger>(
        &mut self,
        leaf: &Leaf<'_>,
        seeks_short: bool,
        steps: &mut Steps<L>,
    ) -> Result<LagValue, WideStep>
        requires narrow { AreNarrow leaf.now.region.now }
        requires places { HavePlaces leaf.now.cuts.now }
        requires true_of { AreTrueTotals (question_of leaf.now) self.old }
        requires room { kept_most (question_of leaf.now) ≤ self.old.totals.room }
        ensures answer { AnswersQuestion (question_of leaf.now) result }
        ensures true_of { AreTrueTotals (question_of leaf.now) self.new }
        ensures complete { AreComplete (question_of leaf.now) self.new }
        ensures room { self.new.totals.room ≡ self.old.totals.room }
        ensures rises { steps.old ≤ steps.new }
        ensures steps { steps.new ≤ steps.old + terms_behind (question_of leaf.now) (length self.old.totals.kept) }
    {
        match walk_leaf(&mut self.totals, leaf, seeks_short, &mut self.over, steps) {
            None => {
                self.ending = None;
                Ok(LagValue::Num(self.totals.value()))
            }
            Some(end) => {
                self.ending = Some(end);
                answer_of_end(leaf, &end)
            }
        }
    }

    /// Goes on from the last total that is kept to the last term, to the first whose side or bound is missing, or to the first
    /// step without room, and answers the leaf's number. Where it is known what the walk ends in, no step is made. Whether all terms are
    /// short numbers is looked at where that is sought: nothing rests on it but how dear an edit of a row's side is.
    pub fn go_on<L: Ledger>(
        &mut self,
        leaf: &Leaf<'_>,
        seeks_short: bool,
        steps: &mut Steps<L>,
    ) -> Result<LagValue, WideStep>
        requires narrow { AreNarrow leaf.now.region.now }
        requires places { HavePlaces leaf.now.cuts.now }
        requires true_of { AreTrueTotals (question_of leaf.now) self.old }
        requires ended { self.old.ending ≢ None → AreComplete (question_of leaf.now) self.old }
        requires room { kept_most (question_of leaf.now) ≤ self.old.totals.room }
        ensures answer { AnswersQuestion (question_of leaf.now) result }
        ensures true_of { AreTrueTotals (question_of leaf.now) self.new }
        ensures complete { AreComplete (question_of leaf.now) self.new }
        ensures room { self.new.totals.room ≡ self.old.totals.room }
        ensures rises { steps.old ≤ steps.new }
        ensures steps { steps.new ≤ steps.old + steps_left (question_of leaf.now) self.old }
    {
        match &self.ending {
            None => self.add(leaf, seeks_short, steps),
            Some(end) => answer_of_end(leaf, end),
        }
    }

    /// `go_on` with the counter of a ledger that is opened here.
    fn go_on_with<L: Ledger>(&mut self, leaf: &Leaf<'_>, blank: Blank) -> Result<LagValue, WideStep>
        requires narrow { AreNarrow leaf.now.region.now }
        requires places { HavePlaces leaf.now.cuts.now }
        requires true_of { AreTrueTotals (question_of leaf.now) self.old }
        requires ended { self.old.ending ≢ None → AreComplete (question_of leaf.now) self.old }
        requires room { kept_most (question_of leaf.now) ≤ self.old.totals.room }
        requires name { blank.name ≡ L.name }
        requires parts { blank.parts ≡ L.parts }
        requires some { 0 < L.parts }
        ensures answer { AnswersQuestion (question_of leaf.now) result }
        ensures true_of { AreTrueTotals (question_of leaf.now) self.new }
        ensures complete { AreComplete (question_of leaf.now) self.new }
        ensures room { self.new.totals.room ≡ self.old.totals.room }
    {
        let mut steps: Steps<L> = Steps::new(blank);
        self.go_on(leaf, false, &mut steps)
    }

    /// `go_on` with a counter that nobody looks at.
    pub fn go_on_unseen(&mut self, leaf: &Leaf<'_>) -> Result<LagValue, WideStep>
        requires narrow { AreNarrow leaf.now.region.now }
        requires places { HavePlaces leaf.now.cuts.now }
        requires true_of { AreTrueTotals (question_of leaf.now) self.old }
        requires ended { self.old.ending ≢ None → AreComplete (question_of leaf.now) self.old }
        requires room { kept_most (question_of leaf.now) ≤ self.old.totals.room }
        ensures answer { AnswersQuestion (question_of leaf.now) result }
        ensures true_of { AreTrueTotals (question_of leaf.now) self.new }
        ensures complete { AreComplete (question_of leaf.now) self.new }
        ensures room { self.new.totals.room ≡ self.old.totals.room }
    {
        self.go_on_with::<Brand>(leaf, Blank::new(1))
    }

    /// Keeps the first so many totals, for no step.
    pub fn back_to(&mut self, count: usize)
        ensures { AreCutTo count self.old self.new }
    {
        keep_first(&mut self.totals, count);
        self.ending = None;
        self.over = None;
    }
}
