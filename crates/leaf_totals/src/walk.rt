// A walk over a leaf's terms from the last total that is kept: rows, cuts, columns.
ghost use Rattle.std.specs.Prelude.{◌≡◌, ◌+◌, ◌-◌, ◌*◌, ◌<◌, ◌≤◌, ◌^◌, [], ◌∷◌, ◌++◌, length, MatchOption};
ghost use Rattle.kept_totals.specs.Walk.{stop_place};
ghost use Rattle.kept_totals.specs.declared.walk.Stop.TheVariants.{Missing};
ghost use Rattle.lp_model.specs.Regions.{AreNarrow};
ghost use Rattle.leaf_dual.specs.Dual.{HavePlaces};
ghost use Rattle.leaf_dual.specs.WholeParts.{IsWholeLeaf};
ghost use Rattle.leaf_totals.specs.Keeping.{question_of, question_by, row_end, cut_end, kept_at, kept_most, terms_behind, IsBeforeRow, IsBeforeColumn, AreRowsReached, AreCutsReached, AreKeptTotals, IsColumnEnd, IsTermsEnd, AreAllAdded, IsEndedBy};

use crate::end::End;
use kept_totals::{PartialTerms, Steps, Stop, Totals, add_blocks, add_terms};
use leaf_dual::{ColumnParts, CutParts, Leaf, RowParts, WholeLeaf};
use lp_model::{ColId, CutId, RowId, Var};
use std::sync::ledger::Ledger;

/// What a walk ends in at a row.
fn row_end(stop: &Stop) -> End
    requires { stop_place stop.now < 2 ^ 32 }
    ensures { result ≡ row_end stop.now }
{
    match stop {
        Stop::Missing(row) => End::Missing(Var::Row(RowId(*row as u32))),
        Stop::Wide(row) => End::Wide(Var::Row(RowId(*row as u32))),
    }
}

/// What a walk ends in at a cut.
fn cut_end(stop: &Stop) -> End
    requires { stop_place stop.now < 2 ^ 32 }
    ensures { result ≡ cut_end stop.now }
{
    match stop {
        Stop::Missing(cut) => End::Missing(Var::Cut(CutId(*cut as u32))),
        Stop::Wide(cut) => End::Wide(Var::Cut(CutId(*cut as u32))),
    }
}

/// What a walk ends in at a column whose term is missing: its bound is, or a step of its reduced cost has no room.
fn missing_end(leaf: &Leaf<'_>, col: usize) -> End
    requires within { col < length leaf.now.model.now.cols }
    requires small { col < 2 ^ 32 }
    requires places { HavePlaces leaf.now.cuts.now }
    ensures { IsColumnEnd (question_of leaf.now) (Missing col) result }
{
    match leaf.wide_entry(col) {
        None => End::Missing(Var::Col(ColId(col as u32))),
        Some(by) => End::WideEntry {
            col: ColId(col as u32),
            by,
        },
    }
}

/// What a walk ends in at a column.
fn column_end(leaf: &Leaf<'_>, stop: &Stop) -> End
    requires within { stop_place stop.now < length leaf.now.model.now.cols }
    requires small { stop_place stop.now < 2 ^ 32 }
    requires places { HavePlaces leaf.now.cuts.now }
    ensures { IsColumnEnd (question_of leaf.now) stop.now result }
{
    match stop {
        Stop::Missing(col) => missing_end(leaf, *col),
        Stop::Wide(col) => End::Wide(Var::Col(ColId(*col as u32))),
    }
}

/// Adds the terms of the rows to the constant, and keeps their total. Answers what that ends in, if not in the last row.
fn add_rows<L: Ledger>(
    totals: &mut Totals,
    whole: &WholeLeaf<'_>,
    steps: &mut Steps<L>,
) -> Option<End>
    requires whole { IsWholeLeaf whole.now }
    requires room { 1 ≤ totals.old.room }
    ensures walk { MatchOption result (IsBeforeRow (question_by whole.now) (length whole.now.leaf.model.now.rows) totals.new.total × (totals.new.kept ≡ totals.new.total ∷ [])) (λ e. IsTermsEnd (question_by whole.now) e × ((kept_at e ≡ 0) × (totals.new.kept ≡ []))) }
    ensures room { totals.new.room ≡ totals.old.room }
    ensures rises { steps.old ≤ steps.new }
    ensures steps { steps.new ≤ steps.old + length whole.now.leaf.model.now.rows }
{
    let _lawful = whole.leaf.model.rows();
    totals.begin(&whole.leaf.constant());
    let parts = RowParts { whole: *whole };
    match add_terms(totals, &parts, 0, parts.count(), steps) {
        Ok(()) => {
            totals.keep();
            None
        }
        Err(stop) => Some(row_end(&stop)),
    }
}

/// Adds the terms of the cuts to the rows' total, and keeps the total, as `add_rows`.
fn add_cuts<L: Ledger>(
    totals: &mut Totals,
    whole: &WholeLeaf<'_>,
    steps: &mut Steps<L>,
) -> Option<End>
    requires whole { IsWholeLeaf whole.now }
    requires places { HavePlaces whole.now.leaf.cuts.now }
    requires before { IsBeforeRow (question_by whole.now) (length whole.now.leaf.model.now.rows) totals.old.total }
    requires room { length totals.old.kept < totals.old.room }
    ensures walk { MatchOption result (AreCutsReached (question_by whole.now) × (IsBeforeColumn (question_by whole.now) 0 totals.new.total × (totals.new.kept ≡ totals.old.kept ++ totals.new.total ∷ []))) (λ e. IsTermsEnd (question_by whole.now) e × ((kept_at e ≡ 1) × (totals.new.kept ≡ totals.old.kept))) }
    ensures room { totals.new.room ≡ totals.old.room }
    ensures rises { steps.old ≤ steps.new }
    ensures steps { steps.new ≤ steps.old + length whole.now.leaf.cuts.now }
{
    let parts = CutParts { whole: *whole };
    match add_terms(totals, &parts, 0, parts.count(), steps) {
        Ok(()) => {
            totals.keep();
            None
        }
        Err(stop) => Some(cut_end(&stop)),
    }
}

/// Adds the terms of the columns from the last total that is kept, and keeps the total after each 64th, as `add_rows`.
fn add_columns<L: Ledger>(
    totals: &mut Totals,
    whole: &WholeLeaf<'_>,
    steps: &mut Steps<L>,
) -> Option<End>
    requires whole { IsWholeLeaf whole.now }
    requires narrow { AreNarrow whole.now.leaf.region.now }
    requires places { HavePlaces whole.now.leaf.cuts.now }
    requires rows { AreRowsReached (question_by whole.now) }
    requires cuts { AreCutsReached (question_by whole.now) }
    requires some { 2 ≤ length totals.old.kept }
    requires few { length totals.old.kept ≤ kept_most (question_by whole.now) }
    requires kept { AreKeptTotals (question_by whole.now) totals.old.kept }
    requires before { IsBeforeColumn (question_by whole.now) (64 * (length totals.old.kept - 2)) totals.old.total }
    requires room { kept_most (question_by whole.now) ≤ totals.old.room }
    ensures walk { MatchOption result (AreAllAdded (question_by whole.now) totals.new) (λ e. IsEndedBy (question_by whole.now) totals.new e) }
    ensures kept { AreKeptTotals (question_by whole.now) totals.new.kept }
    ensures room { totals.new.room ≡ totals.old.room }
    ensures rises { steps.old ≤ steps.new }
    ensures steps { steps.new ≤ steps.old + (length whole.now.leaf.model.now.cols - 64 * (length totals.old.kept - 2)) }
{
    let _lawful = whole.leaf.model.cols();
    let blocks = totals.count() - 2;
    let parts = ColumnParts { whole: *whole };
    match add_blocks(totals, &parts, blocks, steps) {
        Ok(()) => None,
        Err(stop) => Some(column_end(&whole.leaf, &stop)),
    }
}

/// Goes on from the rows' total.
fn from_cuts<L: Ledger>(
    totals: &mut Totals,
    whole: &WholeLeaf<'_>,
    steps: &mut Steps<L>,
) -> Option<End>
    requires whole { IsWholeLeaf whole.now }
    requires narrow { AreNarrow whole.now.leaf.region.now }
    requires places { HavePlaces whole.now.leaf.cuts.now }
    requires before { IsBeforeRow (question_by whole.now) (length whole.now.leaf.model.now.rows) totals.old.total }
    requires kept { totals.old.kept ≡ totals.old.total ∷ [] }
    requires room { kept_most (question_by whole.now) ≤ totals.old.room }
    ensures walk { MatchOption result (AreAllAdded (question_by whole.now) totals.new) (λ e. IsEndedBy (question_by whole.now) totals.new e) }
    ensures kept { AreKeptTotals (question_by whole.now) totals.new.kept }
    ensures room { totals.new.room ≡ totals.old.room }
    ensures rises { steps.old ≤ steps.new }
    ensures steps { steps.new ≤ steps.old + terms_behind (question_by whole.now) 1 }
{
    match add_cuts(totals, whole, steps) {
        None => add_columns(totals, whole, steps),
        Some(end) => Some(end),
    }
}

/// Begins with the constant.
fn from_rows<L: Ledger>(
    totals: &mut Totals,
    whole: &WholeLeaf<'_>,
    steps: &mut Steps<L>,
) -> Option<End>
    requires whole { IsWholeLeaf whole.now }
    requires narrow { AreNarrow whole.now.leaf.region.now }
    requires places { HavePlaces whole.now.leaf.cuts.now }
    requires room { kept_most (question_by whole.now) ≤ totals.old.room }
    ensures walk { MatchOption result (AreAllAdded (question_by whole.now) totals.new) (λ e. IsEndedBy (question_by whole.now) totals.new e) }
    ensures kept { AreKeptTotals (question_by whole.now) totals.new.kept }
    ensures room { totals.new.room ≡ totals.old.room }
    ensures rises { steps.old ≤ steps.new }
    ensures steps { steps.new ≤ steps.old + terms_behind (question_by whole.now) 0 }
{
    match add_rows(totals, whole, steps) {
        None => from_cuts(totals, whole, steps),
        Some(end) => Some(end),
    }
}

/// Goes on from the last total that is kept, or begins where none is. Answers what the walk ends in, if not in the last column.
pub(crate) fn walk<L: Ledger>(
    totals: &mut Totals,
    whole: &WholeLeaf<'_>,
    steps: &mut Steps<L>,
) -> Option<End>
    requires whole { IsWholeLeaf whole.now }
    requires narrow { AreNarrow whole.now.leaf.region.now }
    requires places { HavePlaces whole.now.leaf.cuts.now }
    requires few { length totals.old.kept ≤ kept_most (question_by whole.now) }
    requires kept { AreKeptTotals (question_by whole.now) totals.old.kept }
    requires room { kept_most (question_by whole.now) ≤ totals.old.room }
    ensures walk { MatchOption result (AreAllAdded (question_by whole.now) totals.new) (λ e. IsEndedBy (question_by whole.now) totals.new e) }
    ensures kept { AreKeptTotals (question_by whole.now) totals.new.kept }
    ensures room { totals.new.room ≡ totals.old.room }
    ensures rises { steps.old ≤ steps.new }
    ensures steps { steps.new ≤ steps.old + terms_behind (question_by whole.now) (length totals.old.kept) }
{
    let count = totals.count();
    if count == 0 {
        return from_rows(totals, whole, steps);
    }
    totals.back_to(count - 1);
    if count == 1 {
        return from_cuts(totals, whole, steps);
    }
    add_columns(totals, whole, steps)
}
