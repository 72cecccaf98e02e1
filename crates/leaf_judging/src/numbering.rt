// Entries of a tree's leaves, put down one by one. After an edit, what a leaf had before is copied, moved, or gone on with.
ghost use Rattle.std.specs.Prelude.{◌≡◌, ◌≤◌, ◌+◌, [], Some, None, IfOk, OnOk, IfSome};
ghost use Rattle.std.specs.Option.{option_copied};
ghost use Rattle.lp_model.specs.Regions.{Path, AreNarrow};
ghost use Rattle.lp_model.specs.Formulations.{formulation};
ghost use Rattle.tight_regions.specs.SameBounds.{SameBounds};
ghost use Rattle.branch_tree.specs.Tree.{HasNarrowSplits};
ghost use Rattle.branch_tree.specs.Leaves.{region_leaves};
ghost use Rattle.leaf_judging.specs.Numbers.{AreNumbersOf};
ghost use Rattle.leaf_judging.specs.Totals.{IsLeafEntry};
ghost use Rattle.leaf_judging.specs.Former.{HoldsFormer, AreFormer, former_leaf_steps, former_steps};
ghost use Rattle.leaf_judging.specs.declared.former.Way.TheVariants.{FromSide};
ghost use Rattle.leaf_judging.specs.private.Ways.{IsWayAfter};
ghost use Rattle.leaf_judging.specs.private.Walked.{former_kept, IsWayAt, IsDue, due_steps, dues, AreBut};

use crate::due::{DueLeaf, finish};
use crate::entry::{LeafEntry, entry_by};
use crate::former::{Former, Way};
use crate::numbers::LeafNumbers;
use branch_tree::{LeafData, LeafVisitor, Tree};
use cover_cuts::CutPool;
use leaf_dual::Steps;
use lp_model::{BoundChange, List, Model};
use std::alloc::{AllocError, Global};
use std::sync::ledger::Ledger;

/// Entries of leaves, and those leaves that are due: what they had is gone on with after the walk, since a walk does not know of
/// a leaf that the tree has it.
#[derive(Drop)]
pub(crate) struct Numbered {
    pub(crate) numbers: LeafNumbers,
    pub(crate) due: Vec<DueLeaf>,
}

/// Entries of the leaves of a model with its cuts, put down one by one, with those from before an edit, if there are any. It owns no
/// memory, so that what it leaves behind its references is known.
#[derive(Drop)]
pub(crate) struct Numbering<'a, L: Ledger> {
    pub(crate) alloc: Global,
    pub(crate) model: &'a Model,
    pub(crate) pool: &'a CutPool,
    pub(crate) former: &'a Option<Former<'a>>,
    pub(crate) out: &'a mut Numbered,
    pub(crate) steps: &'a mut Steps<L>,
}

/// What of a leaf's entry stands, if there are entries from before.
fn way_of(
    former: &Option<Former<'_>>,
    model: &Model,
    pool: &CutPool,
    region: &[BoundChange],
    kept: &LeafData,
) -> Way
    requires { AreNarrow region.now }
    ensures { IsWayAt former.now (formulation model.now pool.now) region.now kept.now result }
{
    match former {
        None => Way::Anew,
        Some(former) => former.way(model, pool, region, kept),
    }
}

/// What was kept of the leaf with the id, if there are entries from before.
fn former_entry<'a>(former: &'a Option<Former<'a>>, id: u64) -> Option<&'a LeafEntry>
    ensures { option_copied result ≡ former_kept former.now id }
{
    match former {
        None => None,
        Some(former) => former.numbers.entry(id),
    }
}

/// The entry of a leaf after another side of a row: what was kept of it is moved, where that is seen to have room, and else it is computed
/// from nothing.
fn moved_entry<L: Ledger>(
    alloc: Global,
    former: &Former<'_>,
    model: &Model,
    pool: &CutPool,
    row: usize,
    id: u64,
    region: &[BoundChange],
    kept: &LeafData,
    steps: &mut Steps<L>,
) -> Result<LeafEntry, AllocError>
    requires narrow { AreNarrow region.now }
    requires way { IsWayAfter former.now (formulation model.now pool.now) region.now kept.now (FromSide row) }
    ensures entry { IfOk result (λ e. (path : Path) → SameBounds region.now path → HoldsFormer (Some former.now) (formulation model.now pool.now) path (record { id = id; kept = kept.now }) → IsLeafEntry (formulation model.now pool.now) path kept.now e × (steps.new ≤ steps.old + former_leaf_steps (Some former.now) (formulation model.now pool.now) kept.now)) }
    ensures rises { steps.old ≤ steps.new }
{
    let _lawful = model.rows();
    let _few = pool.rows();
    if let Some(before) = former.numbers.entry(id) {
        let Ok(mut entry) = before.copy(alloc) else {
            return Err(AllocError);
        };
        if entry.move_side(row, former.model, model, &kept.mult, steps) {
            return Ok(entry);
        }
    }
    entry_by(
        alloc,
        model,
        pool,
        region,
        &kept.mult,
        &kept.farkas,
        true,
        steps,
    )
}

/// The entry of a leaf, copied or moved from before or computed from nothing; `None` where it is due.
fn entry_at<L: Ledger>(
    alloc: Global,
    former: &Option<Former<'_>>,
    model: &Model,
    pool: &CutPool,
    id: u64,
    region: &[BoundChange],
    kept: &LeafData,
    steps: &mut Steps<L>,
) -> Result<Option<LeafEntry>, AllocError>
    requires { AreNarrow region.now }
    ensures due { IfOk result (λ o. o ≡ None → IsDue former.now (formulation model.now pool.now) kept.now × (steps.new ≡ steps.old)) }
    ensures entry { IfOk result (λ o. IfSome o (λ e. (path : Path) → SameBounds region.now path → HoldsFormer former.now (formulation model.now pool.now) path (record { id = id; kept = kept.now }) → IsLeafEntry (formulation model.now pool.now) path kept.now e × (steps.new ≤ steps.old + former_leaf_steps former.now (formulation model.now pool.now) kept.now))) }
    ensures rises { steps.old ≤ steps.new }
{
    match way_of(former, model, pool, region, kept) {
        Way::FromCost(_) => Ok(None),
        Way::Anew => match entry_by(
            alloc,
            model,
            pool,
            region,
            &kept.mult,
            &kept.farkas,
            false,
            steps,
        ) {
            Ok(entry) => Ok(Some(entry)),
            Err(error) => Err(error),
        },
        Way::Spared => match former_entry(former, id) {
            Some(entry) => match entry.copy(alloc) {
                Ok(entry) => Ok(Some(entry)),
                Err(error) => Err(error),
            },
            None => match entry_by(
                alloc,
                model,
                pool,
                region,
                &kept.mult,
                &kept.farkas,
                false,
                steps,
            ) {
                Ok(entry) => Ok(Some(entry)),
                Err(error) => Err(error),
            },
        },
        Way::FromSide(row) => match former {
            None => unreachable!(),
            Some(before) => {
                match moved_entry(alloc, before, model, pool, row, id, region, kept, steps) {
                    Ok(entry) => Ok(Some(entry)),
                    Err(error) => Err(error),
                }
            }
        },
    }
}

impl<L: Ledger> Numbering<'_, L> {
    ghost use Rattle.leaf_judging.specs.private.Walked.{NumbersLeaf};

    /// Puts down a leaf's entry, or its id and region where that is due.
    fn number_leaf(
        &mut self,
        id: u64,
        region: &[BoundChange],
        kept: &LeafData,
    ) -> Result<(), AllocError>
        requires { AreNarrow region.now }
        ensures { OnOk result ((path : Path) → SameBounds region.now path → NumbersLeaf self.old (record { id = id; region = path; kept = kept.now }) self.new) }
    {
        match entry_at(
            self.alloc,
            self.former,
            self.model,
            self.pool,
            id,
            region,
            kept,
            self.steps,
        ) {
            Ok(Some(entry)) => self.out.numbers.put(id, entry),
            Ok(None) => {
                let Ok(region) = List::from_slice(self.alloc, region) else {
                    return Err(AllocError);
                };
                self.out.due.push(DueLeaf { id, region })?;
                Ok(())
            }
            Err(error) => Err(error),
        }
    }
}

impl<L: Ledger> LeafVisitor for Numbering<'_, L> {
    ghost use Rattle.leaf_judging.specs.private.Walked.{NumbersLeaf};

    ghost step = { NumbersLeaf };

    fn visit(
        &mut self,
        id: u64,
        region: &[BoundChange],
        kept: &LeafData,
    ) -> Result<(), AllocError> {
        self.number_leaf(id, region, kept)
    }
}

/// Puts down the entry of each leaf of a tree that isn't due, and the ids and regions of those that are.
fn walk_tree<L: Ledger>(
    alloc: Global,
    model: &Model,
    pool: &CutPool,
    former: &Option<Former<'_>>,
    tree: &Tree,
    out: &mut Numbered,
    steps: &mut Steps<L>,
) -> Result<(), AllocError>
    requires narrow { HasNarrowSplits tree.now.root }
    requires former { AreFormer former.now (formulation model.now pool.now) tree.now.root }
    requires none { out.old.due.items ≡ [] }
    ensures but { OnOk result (AreBut former.now (formulation model.now pool.now) out.new.numbers out.new.due.items tree.now.root) }
    ensures rises { OnOk result (steps.old ≤ steps.new) }
    ensures steps { OnOk result (steps.new + dues (due_steps former.now (formulation model.now pool.now)) out.new.due.items ≤ steps.old + former_steps former.now (formulation model.now pool.now) (region_leaves [] tree.now.root)) }
{
    let mut numbering = Numbering {
        alloc,
        model,
        pool,
        former,
        out,
        steps,
    };
    tree.visit_leaves(&mut numbering)
}

/// The entry of each leaf of a tree. What an edit spares stands as it was, what stands before another cost is gone on with, and what other sides
/// of a row move is moved.
pub(crate) fn numbers_of<L: Ledger>(
    alloc: Global,
    model: &Model,
    pool: &CutPool,
    former: &Option<Former<'_>>,
    tree: &Tree,
    steps: &mut Steps<L>,
) -> Result<LeafNumbers, AllocError>
    requires narrow { HasNarrowSplits tree.now.root }
    requires former { AreFormer former.now (formulation model.now pool.now) tree.now.root }
    ensures numbers { IfOk result (λ numbers. AreNumbersOf (formulation model.now pool.now) tree.now.root numbers) }
    ensures rises { OnOk result (steps.old ≤ steps.new) }
    ensures steps { OnOk result (steps.new ≤ steps.old + former_steps former.now (formulation model.now pool.now) (region_leaves [] tree.now.root)) }
{
    let mut out = Numbered {
        numbers: LeafNumbers::new(alloc),
        due: Vec::new(alloc),
    };
    match walk_tree(alloc, model, pool, former, tree, &mut out, steps) {
        Ok(()) => {
            let Numbered { numbers, due } = out;
            let mut numbers = numbers;
            match finish(alloc, model, pool, former, tree, &due, &mut numbers, steps) {
                Ok(()) => {
                    drop(due);
                    Ok(numbers)
                }
                Err(error) => {
                    drop(due);
                    drop(numbers);
                    Err(error)
                }
            }
        }
        Err(error) => {
            drop(out);
            Err(error)
        }
    }
}
