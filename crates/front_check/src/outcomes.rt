// The outcomes of a certificate, one after the other: the point of each, its values, and its place behind the one before it.
ghost use Rattle.std.specs.Prelude.{◌≡◌, ◌↔◌, IsTrue, IfOk};
ghost use Rattle.frontier.specs.Covers.{IsAhead};
ghost use Rattle.inner_models.specs.Inner.{bare_model};
ghost use Rattle.front_check.specs.Accepted.{outcome_of, without_constants};
ghost use Rattle.front_check.specs.Verdict.{HasWholeObjectives};
ghost use Rattle.front_check.specs.private.Found.{IsNarrowOutcome, AreValuesFound, IsOutcomeFound, AreLaterFound, AreOutcomesFound};

use crate::values::{FoundValue, judge_stated};
use cert_check::{Judgement, judge_feasible, point};
use front_text::FrontOutcome;
use frontier::Outcome;
use lp_model::{Model, Point};
use std::alloc::{AllocError, Global};

/// What an outcome is found to be.
#[derive(Clone, Copy, Drop)]
pub(crate) enum FoundOutcome {
    /// It is its point's, and this is it without the constants.
    Is(Outcome),
    /// It does not pass.
    Fails(Judgement),
}

/// Outcomes without the constants, at least one.
#[derive(Drop)]
pub(crate) struct BareOutcomes {
    pub(crate) first: Outcome,
    pub(crate) rest: Vec<Outcome>,
    pub(crate) last: Outcome,
}

/// What outcomes are found to be.
#[derive(Drop)]
pub(crate) enum FoundOutcomes {
    /// They are their points', each behind the one before it, and these are they without the constants.
    Stand(BareOutcomes),
    /// The judgement of the first that does not pass.
    Fail(Judgement),
}

/// What both stated values are found to be.
fn judge_values(model: &Model, bare: &Model, point: &Point, outcome: &FrontOutcome) -> FoundOutcome
    requires whole { HasWholeObjectives model.now }
    requires bare { bare.now ≡ bare_model model.now }
    ensures { AreValuesFound model.now point.now outcome.now result }
{
    match judge_stated(model, bare, 1, point, &outcome.v1) {
        FoundValue::Fails(judgement) => FoundOutcome::Fails(judgement),
        FoundValue::Is(f1) => match judge_stated(model, bare, 2, point, &outcome.v2) {
            FoundValue::Fails(judgement) => FoundOutcome::Fails(judgement),
            FoundValue::Is(f2) => FoundOutcome::Is(Outcome { f1, f2 }),
        },
    }
}

/// What an outcome is found to be: its point, then its values.
fn judge_outcome(
    alloc: Global,
    model: &Model,
    bare: &Model,
    outcome: &FrontOutcome,
) -> Result<FoundOutcome, AllocError>
    requires whole { HasWholeObjectives model.now }
    requires bare { bare.now ≡ bare_model model.now }
    ensures { IfOk result (IsOutcomeFound model.now outcome.now) }
{
    match point(alloc, model, outcome.point.as_slice()) {
        Err(error) => Err(error),
        Ok(None) => Ok(FoundOutcome::Fails(Judgement::Breaks(1))),
        Ok(Some(point)) => match judge_feasible(model, &point) {
            Judgement::Passes => Ok(judge_values(model, bare, &point, outcome)),
            Judgement::Breaks(why) => Ok(FoundOutcome::Fails(Judgement::Breaks(why))),
            Judgement::NoRoom(step) => Ok(FoundOutcome::Fails(Judgement::NoRoom(step))),
        },
    }
}

/// Whether an outcome stands before another.
fn is_ahead(first: &Outcome, second: &Outcome) -> bool
    ensures { IsTrue result ↔ IsAhead first.now second.now }
{
    first.f1 < second.f1 && second.f2 < first.f2
}

/// What the outcomes behind one are found to be, which without the constants is this.
fn judge_later(
    alloc: Global,
    model: &Model,
    bare: &Model,
    before: &FrontOutcome,
    first: &Outcome,
    later: &[FrontOutcome],
) -> Result<FoundOutcomes, AllocError>
    requires whole { HasWholeObjectives model.now }
    requires bare { bare.now ≡ bare_model model.now }
    requires first { first.now ≡ without_constants model.now (outcome_of before.now) }
    requires narrow { IsNarrowOutcome first.now }
    ensures { IfOk result (AreLaterFound model.now before.now later.now) }
{
    let mut rest = Vec::new(alloc);
    let mut last = *first;
    for outcome in later {
        let next = match judge_outcome(alloc, model, bare, outcome) {
            Err(error) => {
                drop(rest);
                return Err(error);
            }
            Ok(FoundOutcome::Fails(judgement)) => {
                drop(rest);
                return Ok(FoundOutcomes::Fail(judgement));
            }
            Ok(FoundOutcome::Is(next)) => next,
        };
        if !is_ahead(&last, &next) {
            drop(rest);
            return Ok(FoundOutcomes::Fail(Judgement::Breaks(8)));
        }
        rest.push(next)?;
        last = next;
    }
    Ok(FoundOutcomes::Stand(BareOutcomes {
        first: *first,
        rest,
        last,
    }))
}

/// What the outcomes of a certificate are found to be.
pub(crate) fn judge_outcomes(
    alloc: Global,
    model: &Model,
    bare: &Model,
    outcomes: &[FrontOutcome],
) -> Result<FoundOutcomes, AllocError>
    requires whole { HasWholeObjectives model.now }
    requires bare { bare.now ≡ bare_model model.now }
    ensures { IfOk result (AreOutcomesFound model.now outcomes.now) }
{
    match outcomes.split_first() {
        None => Ok(FoundOutcomes::Fail(Judgement::Breaks(8))),
        Some((before, later)) => match judge_outcome(alloc, model, bare, before) {
            Err(error) => Err(error),
            Ok(FoundOutcome::Fails(judgement)) => Ok(FoundOutcomes::Fail(judgement)),
            Ok(FoundOutcome::Is(first)) => {
                judge_later(alloc, model, bare, before, &first, later)
            }
        },
    }
}
