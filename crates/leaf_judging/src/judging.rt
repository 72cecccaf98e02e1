// Leaves judged, all of a tree: each leaf's number once, and its state by that number as often as the target changes.
ghost use Rattle.std.specs.Prelude.{IfOk, OnOk, OnErr, ◌≡◌, ◌≤◌, ◌+◌, ◌<◌, [], List, length};
ghost use Rattle.lp_model.specs.Formulations.{formulation};
ghost use Rattle.lp_model.specs.Regions.{Path};
ghost use Rattle.lp_model.specs.declared.types.CutRow.{CutRow};
ghost use Rattle.branch_tree.specs.declared.node.LeafData.{LeafData};
ghost use Rattle.branch_tree.specs.Tree.{HasNarrowSplits};
ghost use Rattle.branch_tree.specs.Leaves.{leaf_count, with_states, region_leaves};
ghost use Rattle.leaf_judging.specs.Judged.{AreStates, JudgesAll};
ghost use Rattle.leaf_judging.specs.Queued.{IsQueueOf};
ghost use Rattle.leaf_judging.specs.Numbers.{AreNumbersOf};
ghost use Rattle.leaf_judging.specs.Former.{AreFormer, former_steps};

use crate::choosing::{Candidate, as_candidate, finite_number};
use crate::closing::state_by;
use crate::former::Former;
use crate::numbering::numbers_of;
use crate::numbers::LeafNumbers;
use crate::queue::LeafQueue;
use branch_tree::{LeafData, LeafState, LeafVisitor, Tree};
use cover_cuts::CutPool;
use frac128::Frac;
use leaf_dual::Steps;
use lp_model::{BoundChange, Model};
use std::alloc::{AllocError, Global};
use std::marker::Brand;
use std::sync::ledger::{Blank, Ledger};

/// What leaves are marked by: a model, the least value of the known points, if there are any, and the leaves' numbers.
#[derive(Clone, Copy, Drop)]
pub(crate) struct Against<'a> {
    pub(crate) model: &'a Model,
    pub(crate) target: &'a Option<Frac>,
    pub(crate) numbers: &'a LeafNumbers,
}

/// What a leaf is by its number: its state, and the leaf as a candidate, if it is open.
#[derive(Clone, Copy, Drop)]
pub(crate) struct Mark {
    pub(crate) state: LeafState,
    pub(crate) candidate: Option<Candidate>,
}

impl Against<'_> {
    ghost use Rattle.leaf_judging.specs.private.Numbers.{IsLeafMark};

    /// What the leaf with the id is by its number.
    fn mark_of(&self, id: u64) -> Mark
        ensures { IsLeafMark self.now id result }
    {
        let number = self.numbers.number_or_minus(id);
        let state = state_by(self.model, self.target, &number);
        let candidate = as_candidate(&state, finite_number(&number), id);
        Mark { state, candidate }
    }
}

/// States of leaves, one by one, and the queue of those that are open.
#[derive(Drop)]
pub(crate) struct Marking<'a> {
    pub(crate) against: Against<'a>,
    pub(crate) states: Vec<LeafState>,
    pub(crate) queue: LeafQueue,
}

impl Marking<'_> {
    ghost use Rattle.leaf_judging.specs.Numbers.{MarksLeaf};

    /// Marks the leaf with the id by its number. Its region and what it keeps count by the number alone.
    fn mark_leaf(&mut self, id: u64) -> Result<(), AllocError>
        ensures { OnOk result ((path : Path) (kept : LeafData) → MarksLeaf self.old (record { id = id; region = path; kept = kept }) self.new) }
    {
        let mark = self.against.mark_of(id);
        self.queue.add(&mark.candidate)?;
        self.states.push(mark.state)?;
        Ok(())
    }
}

impl LeafVisitor for Marking<'_> {
    ghost use Rattle.leaf_judging.specs.Numbers.{MarksLeaf};

    ghost step = { MarksLeaf };

    fn visit(
        &mut self,
        id: u64,
        _region: &[BoundChange],
        _kept: &LeafData,
    ) -> Result<(), AllocError> {
        self.mark_leaf(id)
    }
}

/// What a tree's leaves are by their numbers: their states, from left to right, and the queue of those that are open.
#[derive(Drop)]
pub struct Marks {
    pub states: Vec<LeafState>,
    pub queue: LeafQueue,
}

/// The leaves of a tree, judged by the numbers that are kept of them against a target: numbers are compared, and none is
/// computed, so the answer is with the cuts that the numbers are with.
pub fn judge_again(
    alloc: Global,
    model: &Model,
    target: &Option<Frac>,
    tree: &Tree,
    numbers: &LeafNumbers,
) -> Result<Marks, AllocError>
    requires narrow { HasNarrowSplits tree.now.root }
    ensures count { IfOk result (λ m. length m.states.items ≡ leaf_count tree.now.root) }
    ensures states { IfOk result (λ m. (cuts : List CutRow) → AreNumbersOf (formulation model.now cuts) tree.now.root numbers.now → AreStates (formulation model.now cuts) target.now tree.now.root m.states.items) }
    ensures queue { IfOk result (λ m. (cuts : List CutRow) → AreNumbersOf (formulation model.now cuts) tree.now.root numbers.now → IsQueueOf (formulation model.now cuts) (with_states m.states.items tree.now.root) m.queue) }
{
    let mut marking = Marking {
        against: Against {
            model,
            target,
            numbers,
        },
        states: Vec::new(alloc),
        queue: LeafQueue::new(alloc),
    };
    match tree.visit_leaves(&mut marking) {
        Ok(()) => Ok(Marks {
            states: marking.states,
            queue: marking.queue,
        }),
        Err(error) => {
            drop(marking);
            Err(error)
        }
    }
}

/// What is kept of a tree's leaves beside it: their numbers, and the queue of those that are open.
#[derive(Drop)]
pub struct LeafIndex {
    pub numbers: LeafNumbers,
    pub queue: LeafQueue,
}

/// The leaves of a tree judged: their states, from left to right, and what is kept of them.
#[derive(Drop)]
pub struct Judged {
    pub states: Vec<LeafState>,
    pub index: LeafIndex,
}

/// The leaves of any tree that is handed in, judged against a target. What a leaf had before an edit is gone on with, and each term
/// that is added to a total is counted.
pub fn judge_tree<L: Ledger>(
    alloc: Global,
    model: &Model,
    pool: &CutPool,
    target: &Option<Frac>,
    former: &Option<Former<'_>>,
    tree: &Tree,
    steps: &mut Steps<L>,
) -> Result<Judged, AllocError>
    requires narrow { HasNarrowSplits tree.now.root }
    requires former { AreFormer former.now (formulation model.now pool.now) tree.now.root }
    ensures count { IfOk result (λ j. length j.states.items ≡ leaf_count tree.now.root) }
    ensures states { IfOk result (λ j. AreStates (formulation model.now pool.now) target.now tree.now.root j.states.items) }
    ensures numbers { IfOk result (λ j. AreNumbersOf (formulation model.now pool.now) tree.now.root j.index.numbers) }
    ensures queue { IfOk result (λ j. IsQueueOf (formulation model.now pool.now) (with_states j.states.items tree.now.root) j.index.queue) }
    ensures rises { OnOk result (steps.old ≤ steps.new) }
    ensures steps { OnOk result (steps.new ≤ steps.old + former_steps former.now (formulation model.now pool.now) (region_leaves [] tree.now.root)) }
{
    let Ok(numbers) = numbers_of(alloc, model, pool, former, tree, steps) else {
        return Err(AllocError);
    };
    match judge_again(alloc, model, target, tree, &numbers) {
        Ok(marks) => Ok(Judged {
            states: marks.states,
            index: LeafIndex {
                numbers,
                queue: marks.queue,
            },
        }),
        Err(error) => {
            drop(numbers);
            Err(error)
        }
    }
}

/// Judges each leaf of a tree of which nothing is known, and answers what is kept of them. Where there is no memory the tree stays
/// as it was.
pub fn judge_all<L: Ledger>(
    alloc: Global,
    model: &Model,
    pool: &CutPool,
    target: &Option<Frac>,
    tree: &mut Tree,
    steps: &mut Steps<L>,
) -> Result<LeafIndex, AllocError>
    requires { HasNarrowSplits tree.old.root }
    ensures judged { OnOk result (JudgesAll (formulation model.now pool.now) target.now tree.old tree.new) }
    ensures numbers { IfOk result (λ index. AreNumbersOf (formulation model.now pool.now) tree.new.root index.numbers) }
    ensures queue { IfOk result (λ index. IsQueueOf (formulation model.now pool.now) tree.new.root index.queue) }
    ensures kept { OnErr result (tree.new ≡ tree.old) }
    ensures rises { OnOk result (steps.old ≤ steps.new) }
{
    let judged = judge_tree(alloc, model, pool, target, &None, tree, steps)?;
    tree.set_states(&judged.states);
    Ok(judged.index)
}

/// `judge_all` with the counter of a ledger that is opened here.
fn judge_all_with<L: Ledger>(
    alloc: Global,
    model: &Model,
    pool: &CutPool,
    target: &Option<Frac>,
    tree: &mut Tree,
    blank: Blank,
) -> Result<LeafIndex, AllocError>
    requires narrow { HasNarrowSplits tree.old.root }
    requires name { blank.name ≡ L.name }
    requires parts { blank.parts ≡ L.parts }
    requires some { 0 < L.parts }
    ensures judged { OnOk result (JudgesAll (formulation model.now pool.now) target.now tree.old tree.new) }
    ensures numbers { IfOk result (λ index. AreNumbersOf (formulation model.now pool.now) tree.new.root index.numbers) }
    ensures queue { IfOk result (λ index. IsQueueOf (formulation model.now pool.now) tree.new.root index.queue) }
    ensures kept { OnErr result (tree.new ≡ tree.old) }
{
    let mut steps: Steps<L> = Steps::new(blank);
    judge_all(alloc, model, pool, target, tree, &mut steps)
}

/// `judge_all` with a counter that nobody looks at.
pub fn judge_all_unseen(
    alloc: Global,
    model: &Model,
    pool: &CutPool,
    target: &Option<Frac>,
    tree: &mut Tree,
) -> Result<LeafIndex, AllocError>
    requires { HasNarrowSplits tree.old.root }
    ensures judged { OnOk result (JudgesAll (formulation model.now pool.now) target.now tree.old tree.new) }
    ensures numbers { IfOk result (λ index. AreNumbersOf (formulation model.now pool.now) tree.new.root index.numbers) }
    ensures queue { IfOk result (λ index. IsQueueOf (formulation model.now pool.now) tree.new.root index.queue) }
    ensures kept { OnErr result (tree.new ≡ tree.old) }
{
    judge_all_with::<Brand>(alloc, model, pool, target, tree, Blank::new(1))
}
