// A search after an edit of its model that leaves the nodes of the tree: none is copied. All that takes memory comes before the
// first change.
ghost use Rattle.std.specs.Prelude.{◌≡◌, ◌+◌, ◌-◌, ◌≤◌, [], true, ℕ, IsTrue, length, map, IfOk, OnOk, OnErr};
ghost use Rattle.lp_model.specs.Edits.{edited, EditFits};
ghost use Rattle.lp_model.specs.Cuts.{is_live};
ghost use Rattle.lp_model.specs.Formulations.{formulation};
ghost use Rattle.spared_leaves.specs.Touched.{touched_by};
ghost use Rattle.branch_tree.specs.Leaves.{leaf_count, region_leaves};
ghost use Rattle.branch_tree.specs.Changes.{with_leaf_states};
ghost use Rattle.cover_cuts.specs.Cuts.{IsPoolOf};
ghost use Rattle.kept_cuts.specs.Kept.{IsPoolAfter};
ghost use Rattle.search_parts.specs.Points.{target};
ghost use Rattle.search_parts.specs.EditedPoints.{point_after, AreKeepable};
ghost use Rattle.leaf_judging.specs.Totals.{leaves_steps};
ghost use Rattle.sound_searches.specs.Edited.{HasParts, Follows};
ghost use Rattle.tree_edit.specs.private.Staying.{leaves_nodes, TouchesNoList, IsStayCounted, IsStayed};

use crate::search::Search;
use branch_tree::Tree;
use cover_cuts::CutPool;
use frac128::Frac;
use kept_cuts::pool_after;
use leaf_dual::Steps;
use leaf_judging::{Former, Judged, LeafNumbers, LeafQueue, judge_tree};
use lp_model::{CutRow, Edit, Model, Point};
use search_parts::{KeptPoints, is_same_value, kept_points, least_of};
use spared_leaves::{Touched, touched_by};
use std::alloc::AllocError;
use std::sync::ledger::Ledger;

/// What stands beside a tree whose nodes stay: cuts, points, and the leaves judged; `None` where each leaf's number, its state and the
/// queue stay as they are.
#[derive(Drop)]
pub(crate) struct Stayed {
    pub(crate) pool: CutPool,
    pub(crate) kept: KeptPoints,
    pub(crate) judged: Option<Judged>,
}

/// Whether as many cuts stand in both lists, and those of each place count in both or in neither.
fn count_alike(before: &[CutRow], after: &[CutRow]) -> bool
    ensures { IsTrue result → (k : ℕ) → is_live before.now k ≡ is_live after.now k }
{
    if before.len() != after.len() {
        return false;
    }
    for place in 0..before.len() {
        if before[place].live != after[place].live {
            return false;
        }
    }
    true
}

/// Whether no list of multipliers that fits a model can name what is touched: nothing is, or a row that the model does not have.
fn touches_no_list(touched: &Option<Touched>, model: &Model) -> bool
    ensures { IsTrue result → TouchesNoList model.now touched.now }
{
    match touched {
        None => false,
        Some(touched) => match touched {
            Touched::Nothing => true,
            Touched::OneRow(row) => row.0 as usize >= model.rows().len(),
            Touched::RowSides(_) => false,
            Touched::OneCost(_) => false,
            Touched::OneColumn(_) => false,
        },
    }
}

/// Whether each node stays as it is after an edit, and no cut goes with it.
fn leaves_nodes(edit: &Edit) -> bool
    ensures { result ≡ leaves_nodes edit.now }
{
    match edit {
        Edit::SetKind { int, .. } => *int,
        Edit::DelCol { .. } => false,
        Edit::DelRow { .. } => false,
        _ => true,
    }
}

/// Gives the leaves of a tree the states that they were judged to have, and puts what is kept of them in the place of that before.
fn put_judged(tree: &mut Tree, numbers: &mut LeafNumbers, queue: &mut LeafQueue, judged: Judged)
    requires { leaf_count tree.old.root ≤ length judged.states.items }
    ensures tree { tree.new ≡ with_leaf_states tree.old judged.states.items }
    ensures numbers { numbers.new ≡ judged.index.numbers }
    ensures queue { queue.new ≡ judged.index.queue }
{
    tree.set_states(&judged.states);
    *numbers = judged.index.numbers;
    *queue = judged.index.queue;
}

/// Puts cuts and points, with their values, in the place of others.
fn put_kept(
    pool: &mut CutPool,
    points: &mut Vec<Point>,
    values: &mut Vec<Frac>,
    new_pool: CutPool,
    kept: KeptPoints,
)
    ensures pool { pool.new ≡ new_pool }
    ensures points { points.new ≡ kept.points }
    ensures values { values.new ≡ kept.values }
{
    *pool = new_pool;
    *points = kept.points;
    *values = kept.values;
}

impl Search {
    /// Whether an edit that touched so much, with the cuts as they derive after it and the best value of then, is seen to leave
    /// each leaf's number and its state.
    fn is_quiet(&self, touched: &Option<Touched>, pool: &CutPool, best: &Option<Frac>) -> bool
        ensures lists { IsTrue result → TouchesNoList self.now.model touched.now }
        ensures cuts { IsTrue result → (k : ℕ) → is_live self.now.cuts k ≡ is_live pool.now k }
        ensures target { IsTrue result → best.now ≡ target self.now.model self.now.points }
    {
        let before = self.pool.rows();
        let after = pool.rows();
        if touches_no_list(touched, &self.model) {
            if count_alike(before, after) {
                return is_same_value(best, &self.target());
            }
        }
        false
    }

    /// What stands beside the tree after an edit that leaves its nodes. A leaf whose number the edit can't change keeps it, and
    /// of another one what is kept before the first term that is changed.
    fn stayed<L: Ledger>(
        &self,
        model: &Model,
        edit: &Edit,
        steps: &mut Steps<L>,
    ) -> Result<Stayed, AllocError>
        requires fits { EditFits self.now.model edit.now }
        requires edited { model.now ≡ edited self.now.model edit.now }
        requires leaves { leaves_nodes edit.now ≡ true }
        ensures stayed { IfOk result (IsStayed self.now model.now) }
        ensures pool { IfOk result (λ s. IsPoolAfter self.now.model edit.now self.now.cuts model.now s.pool) }
        ensures points { IfOk result (λ s. AreKeepable model.now (map (point_after self.now.model edit.now) self.now.points) s.kept.points.items) }
        ensures cuts { IfOk result (λ s. IsPoolOf self.now.model self.now.cuts) }
        ensures rises { OnOk result (steps.old ≤ steps.new) }
        ensures steps { IfOk result (λ s. steps.new ≤ steps.old + leaves_steps (touched_by self.now.model edit.now) self.now.cuts (formulation model.now s.pool) (region_leaves [] self.now.tree.root)) }
    {
        let touched = touched_by(&self.model, edit);
        let former = Some(Former {
            touched,
            model: &self.model,
            pool: &self.pool,
            numbers: &self.numbers,
        });
        let pool = pool_after(self.alloc, &self.model, edit, model, &self.pool)?;
        match kept_points(self.alloc, &self.model, edit, model, &self.points) {
            Ok(kept) => {
                let target = least_of(&kept.values);
                let _few = pool.rows();
                if self.is_quiet(&touched, &pool, &target) {
                    return Ok(Stayed {
                        pool,
                        kept,
                        judged: None,
                    });
                }
                match judge_tree(
                    self.alloc, model, &pool, &target, &former, &self.tree, steps,
                ) {
                    Ok(judged) => Ok(Stayed {
                        pool,
                        kept,
                        judged: Some(judged),
                    }),
                    Err(error) => {
                        drop(pool);
                        drop(kept);
                        Err(error)
                    }
                }
            }
            Err(error) => {
                drop(pool);
                Err(error)
            }
        }
    }

    /// Goes over to another model with what stands beside the tree there.
    fn put_stayed(&mut self, model: Model, stayed: Stayed)
        requires { IsStayed self.old model stayed }
        ensures { HasParts model stayed.pool self.old.tree stayed.kept.points.items self.new }
    {
        self.model = model;
        put_kept(
            &mut self.pool,
            &mut self.points,
            &mut self.values,
            stayed.pool,
            stayed.kept,
        );
        let mut judged = stayed.judged;
        match judged.take() {
            None => {}
            Some(judged) => put_judged(&mut self.tree, &mut self.numbers, &mut self.queue, judged),
        }
    }

    /// Goes over to the model after an edit that leaves the nodes of the tree.
    fn stay<L: Ledger>(
        &mut self,
        model: Model,
        edit: &Edit,
        steps: &mut Steps<L>,
    ) -> Result<(), AllocError>
        requires fits { EditFits self.old.model edit.now }
        requires edited { model ≡ edited self.old.model edit.now }
        requires leaves { leaves_nodes edit.now ≡ true }
        ensures follows { OnOk result (Follows self.old edit.now self.new) }
        ensures kept { OnErr result (self.new ≡ self.old) }
        ensures rises { OnOk result (steps.old ≤ steps.new) }
        ensures steps { OnOk result (IsStayCounted self.old edit.now self.new (steps.new - steps.old)) }
    {
        match self.stayed(&model, edit, steps) {
            Ok(stayed) => {
                self.put_stayed(model, stayed);
                Ok(())
            }
            Err(error) => {
                drop(model);
                Err(error)
            }
        }
    }

    /// Goes over to the model after an edit.
    pub(crate) fn go_over<L: Ledger>(
        &mut self,
        model: Model,
        edit: &Edit,
        steps: &mut Steps<L>,
    ) -> Result<(), AllocError>
        requires fits { EditFits self.old.model edit.now }
        requires edited { model ≡ edited self.old.model edit.now }
        ensures follows { OnOk result (Follows self.old edit.now self.new) }
        ensures kept { OnErr result (self.new ≡ self.old) }
        ensures rises { OnOk result (steps.old ≤ steps.new) }
        ensures steps { OnOk result (leaves_nodes edit.now ≡ true → IsStayCounted self.old edit.now self.new (steps.new - steps.old)) }
    {
        if leaves_nodes(edit) {
            return self.stay(model, edit, steps);
        }
        let search = self.edited_search(model, edit, steps)?;
        self.replace_with(search);
        Ok(())
    }
}
