// The trees of a certificate: their names, the gaps, and the inner models that they are of.
ghost use Rattle.std.specs.Prelude.{◌≡◌, ◌↔◌, ◌<◌, ◌+◌, ◌∷◌, length, map, get_or, true, IsTrue, IfOk};
ghost use Rattle.inner_models.specs.Inner as inner;
ghost use Rattle.inner_models.specs.Room.{HasInnerRoom};
ghost use Rattle.front_check.specs.Accepted.{TargetedModel, gap_parts, tree_names};
ghost use Rattle.front_check.specs.Verdict.{FitGaps};
ghost use Rattle.front_check.specs.private.Found.{AreRoomy};
ghost use Rattle.front_check.specs.private.Parts.{tree_name_at, parts_by_outcomes, DoGapsFit, IsPart};

use crate::outcomes::BareOutcomes;
use cert_text::Claim;
use frac128::Frac;
use front_text::{FrontTree, TreeOf};
use frontier::Outcome;
use gap_models::{Gap, gap_model, least2_model};
use lp_model::Model;
use std::alloc::{AllocError, Global};

/// An inner model, and the claim that its tree has to prove.
#[derive(Drop)]
pub(crate) struct Part {
    pub(crate) model: Model,
    pub(crate) claim: Claim,
}

/// Whether the tree at a place from 0 has the name that is due there.
fn is_due(of: &TreeOf, place: usize) -> bool
    ensures { IsTrue result ↔ (of.now ≡ tree_name_at place) }
{
    match of {
        TreeOf::Least1 => place == 0,
        TreeOf::Least2 => place == 1,
        TreeOf::Gap(number) => place > 1 && *number == place as u64 - 1,
    }
}

/// Whether the trees are those of the least values and of the gaps, in order.
pub(crate) fn are_named(trees: &[FrontTree], outcomes: &BareOutcomes) -> bool
    ensures { IsTrue result ↔ (map (λ t. t.of) trees.now ≡ tree_names outcomes.now.rest.items) }
{
    if trees.len() != outcomes.rest.len() + 2 {
        return false;
    }
    for (index, tree) in trees.iter().enumerate() {
        if !is_due(&tree.of, index) {
            return false;
        }
    }
    true
}

/// Whether the numbers of each gap have room.
pub(crate) fn fit_gaps(bare: &Model, outcomes: &BareOutcomes) -> bool
    requires { AreRoomy outcomes.now }
    ensures { IsTrue result ↔ FitGaps bare.now outcomes.now.first.f1 outcomes.now.last.f2 outcomes.now.first outcomes.now.rest.items }
{
    let mut before = outcomes.first;
    for outcome in outcomes.rest.as_slice() {
        match Gap::between(bare, &before, outcome, outcomes.first.f1, outcomes.last.f2) {
            Ok(_) => before = *outcome,
            Err(_) => return false,
        }
    }
    true
}

/// The outcome before a gap, by the gap's place from 0.
fn before_gap(outcomes: &BareOutcomes, place: usize) -> Outcome
    requires { place < length outcomes.now.rest.items }
    ensures { (o : Outcome) → result ≡ get_or (outcomes.now.first ∷ outcomes.now.rest.items) place o }
{
    if place == 0 {
        outcomes.first
    } else {
        outcomes.rest[place - 1]
    }
}

/// The inner model of a gap, by its place from 0.
fn gap_part(
    alloc: Global,
    bare: &Model,
    outcomes: &BareOutcomes,
    place: usize,
) -> Result<Part, AllocError>
    requires room { (bare.now.wide ≡ true) × HasInnerRoom bare.now }
    requires roomy { AreRoomy outcomes.now }
    requires fits { DoGapsFit bare.now outcomes.now }
    requires place { place < length outcomes.now.rest.items }
    ensures { IfOk result (λ part. (t : TargetedModel) → IsPart (get_or (gap_parts bare.now outcomes.now.first.f1 outcomes.now.last.f2 outcomes.now.first outcomes.now.rest.items) place t) part) }
{
    let before = before_gap(outcomes, place);
    let outcome = outcomes.rest[place];
    match Gap::between(bare, &before, &outcome, outcomes.first.f1, outcomes.last.f2) {
        Err(_) => unreachable!(),
        Ok(gap) => match gap_model(alloc, bare, &gap) {
            Err(error) => Err(error),
            Ok(model) => Ok(Part {
                model,
                claim: Claim::Optimal(gap.width),
            }),
        },
    }
}

/// The inner model of the least first value.
fn least1_part(bare: &Model, outcomes: &BareOutcomes) -> Result<Part, AllocError>
    requires { AreRoomy outcomes.now }
    ensures { IfOk result (IsPart (record { model = bare.now; target = outcomes.now.first.f1 })) }
{
    let target = Frac::of_whole(outcomes.first.f1);
    match bare.copy() {
        Err(error) => Err(error),
        Ok(model) => Ok(Part {
            model,
            claim: Claim::Optimal(target),
        }),
    }
}

/// The inner model of the least second value.
fn least2_part(alloc: Global, bare: &Model, outcomes: &BareOutcomes) -> Result<Part, AllocError>
    requires { AreRoomy outcomes.now }
    ensures { IfOk result (IsPart (record { model = inner.least2_model bare.now; target = outcomes.now.last.f2 })) }
{
    let target = Frac::of_whole(outcomes.last.f2);
    match least2_model(alloc, bare) {
        Err(error) => Err(error),
        Ok(model) => Ok(Part {
            model,
            claim: Claim::Optimal(target),
        }),
    }
}

/// The inner model of a tree by its place from 0.
pub(crate) fn part_at(
    alloc: Global,
    bare: &Model,
    outcomes: &BareOutcomes,
    place: usize,
) -> Result<Part, AllocError>
    requires room { (bare.now.wide ≡ true) × HasInnerRoom bare.now }
    requires roomy { AreRoomy outcomes.now }
    requires fits { DoGapsFit bare.now outcomes.now }
    requires place { place < length outcomes.now.rest.items + 2 }
    ensures { IfOk result (λ part. (t : TargetedModel) → IsPart (get_or (parts_by_outcomes bare.now outcomes.now) place t) part) }
{
    match place {
        0 => least1_part(bare, outcomes),
        1 => least2_part(alloc, bare, outcomes),
        _ => gap_part(alloc, bare, outcomes, place - 2),
    }
}
