// A search made of its parts.
ghost use Rattle.std.specs.Prelude.{◌≡◌, ◌<◌, ◌≤◌, All, length, map, IfOk, OnOk};
ghost use Rattle.lp_model.specs.Limits.{point_limit};
ghost use Rattle.lp_model.specs.Program.{least_value};
ghost use Rattle.lp_model.specs.Formulations.{formulation};
ghost use Rattle.cover_cuts.specs.Cuts.{IsPoolOf};
ghost use Rattle.search_parts.specs.Points.{IsKeepable};
ghost use Rattle.sound_searches.specs.Sound.{IsSoundTree};
ghost use Rattle.sound_searches.specs.Edited.{HasParts};
ghost use Rattle.sound_searches.specs.Parts.{IsOfParts};

use crate::search::Search;
use branch_tree::Tree;
use cover_cuts::CutPool;
use leaf_dual::Steps;
use leaf_judging::judge_all;
use lp_model::{Model, Point};
use search_parts::{KeptPoints, keepable_points, least_of};
use std::alloc::{AllocError, Global};
use std::marker::Brand;
use std::sync::ledger::{Blank, Ledger};

/// A search of these parts, the leaves of which are judged.
pub(crate) fn with_kept<L: Ledger>(
    alloc: Global,
    model: Model,
    pool: CutPool,
    tree: Tree,
    kept: KeptPoints,
    steps: &mut Steps<L>,
) -> Result<Search, AllocError>
    requires pool { IsPoolOf model pool }
    requires tree { IsSoundTree (formulation model pool) tree.root }
    requires points { All (IsKeepable model) kept.points.items }
    requires few { length kept.points.items ≤ point_limit }
    requires values { kept.values.items ≡ map (least_value model 1) kept.points.items }
    ensures parts { IfOk result (λ s. HasParts model pool tree kept.points.items s) }
    ensures rises { OnOk result (steps.old ≤ steps.new) }
{
    let mut tree = tree;
    let target = least_of(&kept.values);
    let _few = pool.rows();
    match judge_all(alloc, &model, &pool, &target, &mut tree, steps) {
        Ok(index) => Ok(Search {
            model,
            pool,
            tree,
            points: kept.points,
            values: kept.values,
            numbers: index.numbers,
            queue: index.queue,
            alloc,
        }),
        Err(error) => {
            drop(model);
            drop(pool);
            drop(tree);
            drop(kept);
            Err(error)
        }
    }
}

/// `with_kept` with the counter of a ledger that is opened here.
fn with_kept_by<L: Ledger>(
    alloc: Global,
    model: Model,
    pool: CutPool,
    tree: Tree,
    kept: KeptPoints,
    blank: Blank,
) -> Result<Search, AllocError>
    requires pool { IsPoolOf model pool }
    requires tree { IsSoundTree (formulation model pool) tree.root }
    requires points { All (IsKeepable model) kept.points.items }
    requires few { length kept.points.items ≤ point_limit }
    requires values { kept.values.items ≡ map (least_value model 1) kept.points.items }
    requires name { blank.name ≡ L.name }
    requires parts { blank.parts ≡ L.parts }
    requires some { 0 < L.parts }
    ensures { IfOk result (λ s. HasParts model pool tree kept.points.items s) }
{
    let mut steps: Steps<L> = Steps::new(blank);
    with_kept(alloc, model, pool, tree, kept, &mut steps)
}

impl Search {
    /// A search of a model with its cuts, a tree whose leaves are judged, and those of the points, at most `POINT_LIMIT`, that may be kept:
    /// they are feasible, and no step of their test or their value lacks room.
    pub fn of_parts(
        alloc: Global,
        model: Model,
        pool: CutPool,
        tree: Tree,
        points: &[Point],
    ) -> Result<Search, AllocError>
        requires pool { IsPoolOf model pool }
        requires tree { IsSoundTree (formulation model pool) tree.root }
        requires few { length points.now ≤ point_limit }
        ensures { IfOk result (λ s. IsOfParts model pool tree points.now s) }
    {
        match keepable_points(alloc, &model, points) {
            Ok(kept) => with_kept_by::<Brand>(alloc, model, pool, tree, kept, Blank::new(1)),
            Err(error) => {
                drop(model);
                drop(pool);
                drop(tree);
                Err(error)
            }
        }
    }
}
