// The judging of a certificate of a front.
ghost use Rattle.std.specs.Prelude.{◌≡◌, ◌+◌, ◌<◌, length, get_or, map, true, false, All, IfOk};
ghost use Rattle.inner_models.specs.Inner.{bare_model};
ghost use Rattle.inner_models.specs.Room.{HasInnerRoom};
ghost use Rattle.cert_check.specs.declared.verdict.Judgement.TheVariants.{Passes};
ghost use Rattle.cert_check.specs.Cuts.{formulation_by, AreCutsJudged};
ghost use Rattle.cert_check.specs.Trees.{IsTreeVerdict};
ghost use Rattle.front_text.specs.Whole.{IsWholeTree, IsFrontCertificate};
ghost use Rattle.front_check.specs.Accepted.{TargetedModel, tree_names};
ghost use Rattle.front_check.specs.declared.verdict.FrontVerdict.TheVariants.{Rejected, Wide};
ghost use Rattle.front_check.specs.declared.trees.Part.{Part as APart};
ghost use Rattle.front_check.specs.Verdict.{HasWholeObjectives, AreObjectivesJudged, AreTreesJudged, AreAllCutsJudged, IsFrontVerdict};
ghost use Rattle.front_check.specs.private.Found.{AreRoomy};
ghost use Rattle.front_check.specs.private.Parts.{parts_by_outcomes, DoGapsFit, IsPart, AreCutsJudgedAt, IsTreeJudgedAt, AreHeadsOf, IsNodesOutcome, IsTreesOutcome};

use crate::outcomes::{BareOutcomes, FoundOutcomes, judge_outcomes};
use crate::trees::{Part, are_named, fit_gaps, part_at};
use crate::verdict::FrontVerdict;
use cert_check::{Judgement, Verdict, check_tree, cut_rows, cuts_judgement, standing_rows};
use cert_text::NamedCut;
use front_text::{FrontCert, FrontTree};
use gap_models::bare_model;
use inner_models::bare_room_law;
use lp_model::{Model, WideStep, show_model};
use model_points::has_whole_objective;
use std::alloc::{AllocError, Global};

/// The most cuts of a tree: the place of a cut has 32 bits.
const MOST_CUTS: usize = 4_294_967_296;

/// Whether both objectives are whole.
fn judge_objectives(model: &Model) -> Judgement
    ensures { AreObjectivesJudged model.now result }
{
    if has_whole_objective(model, 1) && has_whole_objective(model, 2) {
        Judgement::Passes
    } else {
        Judgement::Breaks(9)
    }
}

/// Whether the trees are those that have to be there, and the inner models have room.
fn judge_names(bare: &Model, outcomes: &BareOutcomes, trees: &[FrontTree]) -> Judgement
    requires { AreRoomy outcomes.now }
    ensures { AreTreesJudged bare.now outcomes.now.first outcomes.now.rest.items trees.now result }
{
    if are_named(trees, outcomes) && fit_gaps(bare, outcomes) {
        Judgement::Passes
    } else {
        Judgement::Breaks(10)
    }
}

/// The judgement of the cuts of a tree.
fn judge_tree_cuts(alloc: Global, model: &Model, cuts: &[NamedCut]) -> Result<Judgement, AllocError>
    ensures { IfOk result (AreCutsJudged model.now cuts.now) }
{
    match cut_rows(alloc, model, cuts) {
        Err(error) => Err(error),
        Ok(found) => Ok(cuts_judgement(&found)),
    }
}

/// The judgement of the cuts of the tree at a place from 0.
fn judge_cuts_at(
    alloc: Global,
    bare: &Model,
    outcomes: &BareOutcomes,
    place: usize,
    tree: &FrontTree,
) -> Result<Judgement, AllocError>
    requires room { (bare.now.wide ≡ true) × HasInnerRoom bare.now }
    requires roomy { AreRoomy outcomes.now }
    requires fits { DoGapsFit bare.now outcomes.now }
    requires place { place < length outcomes.now.rest.items + 2 }
    ensures { IfOk result (AreCutsJudgedAt bare.now outcomes.now place tree.now) }
{
    let Ok(part) = part_at(alloc, bare, outcomes, place) else {
        return Err(AllocError);
    };
    let judged = judge_tree_cuts(alloc, &part.model, tree.cuts.as_slice());
    drop(part);
    judged
}

/// The judgement of the cuts of all trees.
fn judge_all_cuts(
    alloc: Global,
    bare: &Model,
    outcomes: &BareOutcomes,
    trees: &[FrontTree],
) -> Result<Judgement, AllocError>
    requires room { (bare.now.wide ≡ true) × HasInnerRoom bare.now }
    requires roomy { AreRoomy outcomes.now }
    requires fits { DoGapsFit bare.now outcomes.now }
    requires named { map (λ t. t.of) trees.now ≡ tree_names outcomes.now.rest.items }
    ensures { IfOk result (AreAllCutsJudged (parts_by_outcomes bare.now outcomes.now) trees.now) }
{
    for (index, tree) in trees.iter().enumerate() {
        let Ok(judged) = judge_cuts_at(alloc, bare, outcomes, index, tree) else {
            return Err(AllocError);
        };
        match judged {
            Judgement::Passes => {}
            Judgement::Breaks(why) => return Ok(Judgement::Breaks(why)),
            Judgement::NoRoom(step) => return Ok(Judgement::NoRoom(step)),
        }
    }
    Ok(Judgement::Passes)
}

/// The judgement of the trees and of their cuts.
fn judge_tree_heads(
    alloc: Global,
    bare: &Model,
    outcomes: &BareOutcomes,
    trees: &[FrontTree],
) -> Result<Judgement, AllocError>
    requires room { (bare.now.wide ≡ true) × HasInnerRoom bare.now }
    requires roomy { AreRoomy outcomes.now }
    ensures { IfOk result (AreHeadsOf bare.now outcomes.now trees.now) }
{
    match judge_names(bare, outcomes, trees) {
        Judgement::Passes => judge_all_cuts(alloc, bare, outcomes, trees),
        Judgement::Breaks(why) => Ok(Judgement::Breaks(why)),
        Judgement::NoRoom(step) => Ok(Judgement::NoRoom(step)),
    }
}

/// The verdict on the nodes of a tree whose cuts pass.
fn judge_tree(alloc: Global, part: &Part, tree: &FrontTree) -> Result<Verdict, AllocError>
    requires cuts { AreCutsJudged part.now.model tree.now.cuts Passes }
    requires tree { IsWholeTree tree.now }
    ensures { IfOk result (IsTreeVerdict (formulation_by part.now.model tree.now.cuts) part.now.claim tree.now.nodes) }
{
    let cuts = tree.cuts.as_slice();
    // so many rows would take more memory than a machine has
    if cuts.len() > MOST_CUTS {
        return Err(AllocError);
    }
    match cut_rows(alloc, &part.model, cuts) {
        Err(error) => Err(error),
        Ok(found) => {
            let rows = standing_rows(&found);
            check_tree(alloc, &part.model, rows, &part.claim, tree.nodes.as_slice())
        }
    }
}

/// The number of a node through all trees. So many nodes as have none would take more memory than a machine has.
fn numbered(before: u64, node: u64) -> Result<u64, AllocError>
    ensures { IfOk result (λ number. number ≡ before + node) }
{
    match before.checked_add(node) {
        Some(number) => Ok(number),
        None => Err(AllocError),
    }
}

/// The verdict on the nodes of the tree at a place from 0, whose cuts pass.
fn judge_nodes_at(
    alloc: Global,
    bare: &Model,
    outcomes: &BareOutcomes,
    place: usize,
    tree: &FrontTree,
) -> Result<Verdict, AllocError>
    requires room { (bare.now.wide ≡ true) × HasInnerRoom bare.now }
    requires roomy { AreRoomy outcomes.now }
    requires fits { DoGapsFit bare.now outcomes.now }
    requires place { place < length outcomes.now.rest.items + 2 }
    requires cuts { (part : APart) → ((t : TargetedModel) → IsPart (get_or (parts_by_outcomes bare.now outcomes.now) place t) part) → AreCutsJudged part.model tree.now.cuts Passes }
    requires tree { IsWholeTree tree.now }
    ensures { IfOk result (IsTreeJudgedAt bare.now outcomes.now place tree.now) }
{
    let Ok(part) = part_at(alloc, bare, outcomes, place) else {
        return Err(AllocError);
    };
    let verdict = judge_tree(alloc, &part, tree);
    drop(part);
    verdict
}

/// A node of a tree is rejected, behind so many nodes.
fn rejected(before: u64, node: u64, why: u8) -> Result<FrontVerdict, AllocError>
    ensures { IfOk result (λ v. v ≡ Rejected (before + node) why) }
{
    match numbered(before, node) {
        Ok(node) => Ok(FrontVerdict::Rejected { node, why }),
        Err(error) => Err(error),
    }
}

/// A step of a node of a tree has no room, behind so many nodes.
fn wide(before: u64, node: u64, step: WideStep) -> Result<FrontVerdict, AllocError>
    ensures { IfOk result (λ v. v ≡ Wide (before + node) step) }
{
    match numbered(before, node) {
        Ok(node) => Ok(FrontVerdict::Wide { node, step }),
        Err(error) => Err(error),
    }
}

/// The verdict on the nodes of all trees, whose cuts pass.
fn judge_nodes(
    alloc: Global,
    bare: &Model,
    outcomes: &BareOutcomes,
    trees: &[FrontTree],
) -> Result<FrontVerdict, AllocError>
    requires room { (bare.now.wide ≡ true) × HasInnerRoom bare.now }
    requires roomy { AreRoomy outcomes.now }
    requires fits { DoGapsFit bare.now outcomes.now }
    requires named { map (λ t. t.of) trees.now ≡ tree_names outcomes.now.rest.items }
    requires cuts { AreAllCutsJudged (parts_by_outcomes bare.now outcomes.now) trees.now Passes }
    requires trees { All IsWholeTree trees.now }
    ensures { IfOk result (IsNodesOutcome bare.now outcomes.now trees.now) }
{
    let mut before: u64 = 0;
    for (index, tree) in trees.iter().enumerate() {
        let Ok(verdict) = judge_nodes_at(alloc, bare, outcomes, index, tree) else {
            return Err(AllocError);
        };
        match verdict {
            Verdict::Accepted(_) => {}
            Verdict::Rejected { node, why } => return rejected(before, node, why),
            Verdict::Wide { node, step } => return wide(before, node, step),
        }
        let Ok(after) = numbered(before, tree.nodes.as_slice().len() as u64) else {
            return Err(AllocError);
        };
        before = after;
    }
    Ok(FrontVerdict::Accepted {
        outcomes: outcomes.rest.len() as u64 + 1,
    })
}

/// The verdict on trees of outcomes that pass.
fn judge_trees(
    alloc: Global,
    bare: &Model,
    outcomes: &BareOutcomes,
    trees: &[FrontTree],
) -> Result<FrontVerdict, AllocError>
    requires room { (bare.now.wide ≡ true) × HasInnerRoom bare.now }
    requires roomy { AreRoomy outcomes.now }
    requires trees { All IsWholeTree trees.now }
    ensures { IfOk result (IsTreesOutcome bare.now outcomes.now trees.now) }
{
    match judge_tree_heads(alloc, bare, outcomes, trees)? {
        Judgement::Passes => judge_nodes(alloc, bare, outcomes, trees),
        Judgement::Breaks(why) => Ok(FrontVerdict::Rejected { node: 0, why }),
        Judgement::NoRoom(step) => Ok(FrontVerdict::Wide { node: 0, step }),
    }
}

/// The verdict on outcomes and trees, where both objectives are whole.
fn check_beside(
    alloc: Global,
    model: &Model,
    bare: &Model,
    cert: &FrontCert,
) -> Result<FrontVerdict, AllocError>
    requires certificate { IsFrontCertificate cert.now }
    requires whole { HasWholeObjectives model.now }
    requires bare { bare.now ≡ bare_model model.now }
    requires room { (bare.now.wide ≡ true) × HasInnerRoom bare.now }
    ensures { IfOk result (IsFrontVerdict model.now cert.now) }
{
    let Ok(found) = judge_outcomes(alloc, model, bare, cert.outcomes.as_slice()) else {
        return Err(AllocError);
    };
    match found {
        FoundOutcomes::Stand(found) => {
            let verdict = judge_trees(alloc, bare, &found, cert.trees.as_slice());
            drop(found);
            verdict
        }
        FoundOutcomes::Fail(Judgement::Breaks(why)) => Ok(FrontVerdict::Rejected { node: 0, why }),
        FoundOutcomes::Fail(Judgement::NoRoom(step)) => Ok(FrontVerdict::Wide { node: 0, step }),
        // what fails is no pass
        FoundOutcomes::Fail(Judgement::Passes) => unreachable!(),
    }
}

/// Whether the certificate is accepted for the model: its outcomes are the front of the model. Else the first of its parts that does
/// not hold, or has a step of arithmetic without room, in this order: the objectives, the outcomes, which trees there are, the cuts of
/// all trees, and the nodes of all trees. Memory is linear in the model and the certificate.
pub fn check_front(
    alloc: Global,
    model: &Model,
    cert: &FrontCert,
) -> Result<FrontVerdict, AllocError>
    requires certificate { IsFrontCertificate cert.now }
    requires narrow { model.now.wide ≡ false }
    ensures { IfOk result (IsFrontVerdict model.now cert.now) }
{
    match judge_objectives(model) {
        Judgement::Passes => {}
        Judgement::Breaks(why) => return Ok(FrontVerdict::Rejected { node: 0, why }),
        Judgement::NoRoom(step) => return Ok(FrontVerdict::Wide { node: 0, step }),
    }
    show_model(model);
    bare_room_law();
    let Ok(bare) = bare_model(alloc, model) else {
        return Err(AllocError);
    };
    let verdict = check_beside(alloc, model, &bare, cert);
    drop(bare);
    verdict
}
