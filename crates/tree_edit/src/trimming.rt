// A search whose tree is cut down. All that takes memory comes before the first change.
ghost use Rattle.std.specs.Prelude.{◌≡◌, IfOk, OnOk, OnErr};
ghost use Rattle.lp_model.specs.Formulations.{formulation};
ghost use Rattle.branch_tree.specs.Tree.{HasNarrowSplits};
ghost use Rattle.branch_tree.specs.Changes.{after_trim};
ghost use Rattle.leaf_judging.specs.Judged.{JudgesAll};
ghost use Rattle.leaf_judging.specs.Numbers.{AreNumbersOf};
ghost use Rattle.leaf_judging.specs.Queued.{IsQueueOf};
ghost use Rattle.sound_searches.specs.Trimmed.{Trims};

use crate::search::{Search, put_tree};
use branch_tree::Tree;
use cover_cuts::CutPool;
use frac128::Frac;
use leaf_judging::{LeafIndex, judge_all_unseen};
use lp_model::Model;
use std::alloc::{AllocError, Global};

/// A copy of a tree, cut down at a depth, each leaf of which is judged, and what is kept of its leaves.
fn trimmed_tree(
    alloc: Global,
    model: &Model,
    pool: &CutPool,
    target: &Option<Frac>,
    old: &Tree,
    depth: u64,
) -> Result<(Tree, LeafIndex), AllocError>
    requires { HasNarrowSplits old.now.root }
    ensures judged { IfOk result (λ both. JudgesAll (formulation model.now pool.now) target.now (after_trim old.now depth) both.0) }
    ensures numbers { IfOk result (λ both. AreNumbersOf (formulation model.now pool.now) both.0.root both.1.numbers) }
    ensures queue { IfOk result (λ both. IsQueueOf (formulation model.now pool.now) both.0.root both.1.queue) }
{
    let Ok(mut tree) = old.copy() else {
        return Err(AllocError);
    };
    tree.trim_depth(depth);
    match judge_all_unseen(alloc, model, pool, target, &mut tree) {
        Ok(index) => Ok((tree, index)),
        Err(error) => {
            drop(tree);
            Err(error)
        }
    }
}

impl Search {
    /// Makes each split at a depth (the root is at 0), with all that is below it, one leaf with the split's multipliers and basis,
    /// which is judged. Model, cuts and points stay. Where there is no memory nothing has changed.
    pub fn trim(&mut self, depth: u64) -> Result<(), AllocError>
        ensures trims { OnOk result (Trims self.old depth self.new) }
        ensures kept { OnErr result (self.new ≡ self.old) }
    {
        let target = self.target();
        match trimmed_tree(
            self.alloc,
            &self.model,
            &self.pool,
            &target,
            &self.tree,
            depth,
        ) {
            Ok((tree, index)) => {
                put_tree(
                    &mut self.tree,
                    &mut self.numbers,
                    &mut self.queue,
                    tree,
                    index,
                );
                Ok(())
            }
            Err(error) => Err(error),
        }
    }
}
