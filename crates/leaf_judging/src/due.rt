// Leaves that are due after another cost of a column: what is kept of them is gone on with from the last total before that column.
ghost use Rattle.std.specs.Prelude.{◌≡◌, ◌≤◌, ◌<◌, ◌+◌, ◌-◌, ◌∷◌, [], length, Some, OnOk, MatchOption};
ghost use Rattle.lp_model.specs.Formulations.{formulation};
ghost use Rattle.branch_tree.specs.Tree.{EachLeaf};
ghost use Rattle.spared_leaves.specs.declared.touched.Touched.TheVariants.{OneCost};
ghost use Rattle.leaf_judging.specs.Numbers.{AreNumbersOf};
ghost use Rattle.leaf_judging.specs.Former.{AreFormer};
ghost use Rattle.leaf_judging.specs.private.Walked.{IsDueAt, due_steps, dues, AreBut, IsNoCost, IsFinishedLeaf};

use crate::former::Former;
use crate::numbers::LeafNumbers;
use branch_tree::Tree;
use cover_cuts::CutPool;
use leaf_dual::Steps;
use lp_model::{Model, Region};
use spared_leaves::Touched;
use std::alloc::{AllocError, Global};
use std::sync::ledger::Ledger;

/// A leaf that is due: its id, and its region as the walk lent it, by its tightest bound changes. So no leaf's path is gone up to the root,
/// which would take as long as the tree is deep.
#[derive(Drop)]
pub(crate) struct DueLeaf {
    pub(crate) id: u64,
    pub(crate) region: Region,
}

/// The place of the column whose cost was touched, if no more was.
fn cost_place(touched: &Option<Touched>) -> Option<usize>
    ensures { MatchOption result (IsNoCost touched.now) (λ p. touched.now ≡ Some (OneCost (record { 0 = p }))) }
{
    match touched {
        None => None,
        Some(touched) => match touched {
            Touched::Nothing => None,
            Touched::OneRow(_) => None,
            Touched::RowSides(_) => None,
            Touched::OneCost(col) => Some(col.0 as usize),
            Touched::OneColumn(_) => None,
        },
    }
}

/// Goes on with what was kept of a leaf that is due, if the tree has it, and keeps that.
fn finish_leaf<L: Ledger>(
    alloc: Global,
    model: &Model,
    pool: &CutPool,
    former: &Former<'_>,
    col: usize,
    tree: &Tree,
    leaf: &DueLeaf,
    numbers: &mut LeafNumbers,
    steps: &mut Steps<L>,
) -> Result<(), AllocError>
    requires former { AreFormer (Some former.now) (formulation model.now pool.now) tree.now.root }
    requires touched { former.now.touched ≡ Some (OneCost (record { 0 = col })) }
    requires due { EachLeaf (IsDueAt (Some former.now) (formulation model.now pool.now) leaf.now) [] tree.now.root }
    ensures finishes { OnOk result (IsFinishedLeaf (Some former.now) (formulation model.now pool.now) tree.now.root leaf.now numbers.old numbers.new) }
    ensures rises { steps.old ≤ steps.new }
    ensures steps { steps.new ≤ steps.old + due_steps (Some former.now) (formulation model.now pool.now) }
{
    let Some(kept) = tree.leaf(leaf.id) else {
        return Ok(());
    };
    let Some(before) = former.numbers.entry(leaf.id) else {
        unreachable!()
    };
    match before.copy(alloc) {
        Ok(mut entry) => {
            entry.go_on_from(col, model, pool, leaf.region.as_slice(), &kept.mult, steps);
            numbers.put(leaf.id, entry)
        }
        Err(error) => Err(error),
    }
}

/// Goes on with what was kept of each leaf that is due.
pub(crate) fn finish<L: Ledger>(
    alloc: Global,
    model: &Model,
    pool: &CutPool,
    former: &Option<Former<'_>>,
    tree: &Tree,
    due: &[DueLeaf],
    numbers: &mut LeafNumbers,
    steps: &mut Steps<L>,
) -> Result<(), AllocError>
    requires former { AreFormer former.now (formulation model.now pool.now) tree.now.root }
    requires but { AreBut former.now (formulation model.now pool.now) numbers.old due.now tree.now.root }
    ensures numbers { OnOk result (AreNumbersOf (formulation model.now pool.now) tree.now.root numbers.new) }
    ensures rises { steps.old ≤ steps.new }
    ensures steps { OnOk result (steps.new ≤ steps.old + dues (due_steps former.now (formulation model.now pool.now)) due.now) }
{
    let Some(before) = former else { return Ok(()) };
    let Some(col) = cost_place(&before.touched) else {
        return Ok(());
    };
    for leaf in due {
        finish_leaf(alloc, model, pool, before, col, tree, leaf, numbers, steps)?;
    }
    Ok(())
}
