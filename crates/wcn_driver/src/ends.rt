// The ends of a front: the least values, and the first and the last outcome.
ghost use Rattle.std.specs.Prelude.{◌≤◌, pos, true, MatchOption, Ok, IfOk, OnOk, IfErr};
ghost use Rattle.frac128.specs.Range.{IsNarrow};
ghost use Rattle.lp_model.specs.Program.{Point as APoint, IsFeasible};
ghost use Rattle.model_points.specs.Answers.{IsFeasibilityAnswer};
ghost use Rattle.inner_models.specs.Inner.{least2_model};
ghost use Rattle.front_solver.specs.Solved.{IsRecosted};
ghost use Rattle.wcn_driver.specs.declared.answers.Part.TheVariants.{Left, Least2, Right};
ghost use Rattle.wcn_driver.specs.declared.settling.Optimum.{Optimum as AnOptimum};
ghost use Rattle.wcn_driver.specs.Parts.{IsLeastFeasibleValue};
ghost use Rattle.wcn_driver.specs.Answers.{IsWideOutcome};
ghost use Rattle.wcn_driver.specs.private.Tasks.{IsSweepTask};
ghost use Rattle.wcn_driver.specs.private.Settled.{CanSettle, CountsWithin, IsOptimumOf, IsHalt, IsPartOptimum};
ghost use Rattle.wcn_driver.specs.private.Kept.{Stays, UnlessMemory};
ghost use Rattle.wcn_driver.specs.private.Ends.{IsLeftEnd, IsLeastFirst, IsLeastSecond, IsRightEnd, IsFirstEnd, UnlessFirstMemory, IsFoundAtPoint, IsNotFoundAtPoint, IsSettledFound, IsSettledHalt};

use crate::answers::ScalePlace;
use crate::found::{Found, found_at};
use crate::settling::{Halt, Optimum, PartEnd, part_end, settle};
use crate::task::{Task, outcome_at};
use crate::trees::front_tree;
use cert_text::Cert;
use frac128::Frac;
use front_parts::{solve_least1, solve_least2, solve_left, solve_right};
use front_solver::{Solved, Solver};
use front_text::{FrontTree, TreeOf};
use lp_model::Point;
use std::alloc::Global;

/// An outcome that is found at a part, and the results of all parts until then.
#[derive(Drop)]
pub(crate) struct PartFound {
    pub(crate) found: Found,
    pub(crate) results: u64,
}

/// A least value with the tree that proves it, and the results of all parts until then.
#[derive(Drop)]
pub(crate) struct PartLeast {
    pub(crate) least: i128,
    pub(crate) tree: FrontTree,
    pub(crate) results: u64,
}

/// What the first part ends with. `results` counts those of all parts.
#[derive(Drop)]
pub(crate) enum FirstEnd {
    /// The least first value.
    Least(PartLeast),
    /// There is no feasible point.
    Infeasible { cert: Cert, results: u64 },
    /// The sweep ends.
    Halted(Halt),
}

/// The outcome of a point that was judged feasible, or that its numbers have no room, or that there is no memory.
fn found_of(alloc: Global, task: &Task, point: &Point) -> Result<Found, Halt>
    requires task { IsSweepTask task.now }
    requires judged { IsFeasibilityAnswer task.now.base point.now (Ok true) }
    ensures found { IfOk result (IsFoundAtPoint task.now.base task.now.constant1 task.now.constant2 point.now) }
    ensures halt { IfErr result (IsNotFoundAtPoint task.now.base task.now.constant1 task.now.constant2 point.now) }
{
    let Some(outcome) = outcome_at(task, point) else {
        return Err(Halt::Wide(ScalePlace::Value));
    };
    match found_at(alloc, task, &outcome, point) {
        Ok(found) => Ok(found),
        Err(_) => Err(Halt::Memory),
    }
}

/// The outcome of the optimum that is answered, or why there is none.
pub(crate) fn settled_found(
    alloc: Global,
    task: &Task,
    solved: Solved,
    before: u64,
) -> Result<PartFound, Halt>
    requires task { IsSweepTask task.now }
    requires can { CanSettle solved.answer solved.cert }
    requires count { CountsWithin before solved.answer }
    requires judged { (o : AnOptimum) → IsOptimumOf before solved o → IsFeasibilityAnswer task.now.base o.point (Ok true) }
    ensures found { IfOk result (IsSettledFound task.now before solved) }
    ensures halt { IfErr result (IsSettledHalt task.now before solved) }
{
    let optimum = match settle(solved, before) {
        Ok(optimum) => optimum,
        Err(halt) => return Err(halt),
    };
    let results = optimum.results;
    let found = found_of(alloc, task, &optimum.point);
    drop(optimum);
    match found {
        Ok(found) => Ok(PartFound { found, results }),
        Err(halt) => Err(halt),
    }
}

/// The least first value, which an optimum of the first part has, unless a number of its point has no room.
fn first_least(task: &Task, optimum: Optimum) -> Option<PartLeast>
    requires task { IsSweepTask task.now }
    requires optimum { IsPartOptimum task.now.base task.now.nodes optimum }
    ensures { MatchOption result (IsWideOutcome task.now.base task.now.constant1 task.now.constant2 optimum.point) (IsLeastFirst task.now) }
{
    let Some(outcome) = outcome_at(task, &optimum.point) else {
        return None;
    };
    Some(PartLeast {
        least: outcome.f1,
        tree: front_tree(TreeOf::Least1, optimum.cert),
        results: optimum.results,
    })
}

/// The least second value, likewise.
fn second_least(task: &Task, optimum: Optimum) -> Option<PartLeast>
    requires task { IsSweepTask task.now }
    requires optimum { IsPartOptimum (least2_model task.now.base) task.now.nodes optimum }
    ensures { MatchOption result (IsWideOutcome task.now.base task.now.constant1 task.now.constant2 optimum.point) (IsLeastSecond task.now) }
{
    let Some(outcome) = outcome_at(task, &optimum.point) else {
        return None;
    };
    Some(PartLeast {
        least: outcome.f2,
        tree: front_tree(TreeOf::Least2, optimum.cert),
        results: optimum.results,
    })
}

/// The least first value, or that no point is feasible.
pub(crate) fn least_first<S: Solver>(alloc: Global, solver: &mut S, task: &Task) -> FirstEnd
    requires old { IsRecosted task.now.base (S.program solver.old) }
    requires task { IsSweepTask task.now }
    ensures kept { UnlessFirstMemory (Stays task.now.base (S.program solver.new) (S.stops solver.new) (S.stops solver.old)) result }
    ensures end { IsFirstEnd (S.stops solver.old) task.now result }
{
    let Ok(solved) = solve_least1(alloc, solver, &task.base, task.nodes) else {
        return FirstEnd::Halted(Halt::Memory);
    };
    match part_end(solved, 0) {
        PartEnd::Best(optimum) => match first_least(task, optimum) {
            Some(least) => FirstEnd::Least(least),
            None => FirstEnd::Halted(Halt::Wide(ScalePlace::Value)),
        },
        PartEnd::Infeasible { cert, results } => FirstEnd::Infeasible { cert, results },
        PartEnd::Halted(halt) => FirstEnd::Halted(halt),
    }
}

/// The first outcome: the least second value where the first one is least.
pub(crate) fn left_end<S: Solver>(
    alloc: Global,
    solver: &mut S,
    task: &Task,
    least: i128,
    before: u64,
) -> Result<PartFound, Halt>
    requires old { IsRecosted task.now.base (S.program solver.old) }
    requires task { IsSweepTask task.now }
    requires narrow { IsNarrow least }
    requires least { IsLeastFeasibleValue task.now.base 1 least }
    requires before { before ≤ task.now.nodes }
    ensures kept { OnOk result (Stays task.now.base (S.program solver.new) (S.stops solver.new) (S.stops solver.old)) }
    ensures halted { IfErr result (UnlessMemory (Stays task.now.base (S.program solver.new) (S.stops solver.new) (S.stops solver.old))) }
    ensures found { IfOk result (IsLeftEnd task.now least) }
    ensures halt { IfErr result (IsHalt (S.stops solver.old) task.now.base task.now.nodes task.now.constant1 task.now.constant2 least (pos 0) Left) }
{
    let most = Frac::of_whole(least);
    let Ok(solved) = solve_left(alloc, solver, &task.base, &most, task.nodes - before) else {
        return Err(Halt::Memory);
    };
    settled_found(alloc, task, solved, before)
}

/// The last outcome: the least first value where the second one is least.
pub(crate) fn right_end<S: Solver>(
    alloc: Global,
    solver: &mut S,
    task: &Task,
    least: i128,
    before: u64,
) -> Result<PartFound, Halt>
    requires old { IsRecosted task.now.base (S.program solver.old) }
    requires task { IsSweepTask task.now }
    requires narrow { IsNarrow least }
    requires least { IsLeastFeasibleValue task.now.base 2 least }
    requires before { before ≤ task.now.nodes }
    ensures kept { OnOk result (Stays task.now.base (S.program solver.new) (S.stops solver.new) (S.stops solver.old)) }
    ensures halted { IfErr result (UnlessMemory (Stays task.now.base (S.program solver.new) (S.stops solver.new) (S.stops solver.old))) }
    ensures found { IfOk result (IsRightEnd task.now least) }
    ensures halt { IfErr result (IsHalt (S.stops solver.old) task.now.base task.now.nodes task.now.constant1 task.now.constant2 (pos 0) least Right) }
{
    let most = Frac::of_whole(least);
    let Ok(solved) = solve_right(alloc, solver, &task.base, &most, task.nodes - before) else {
        return Err(Halt::Memory);
    };
    settled_found(alloc, task, solved, before)
}

/// The least second value, where there is a feasible point.
pub(crate) fn least_second<S: Solver>(
    alloc: Global,
    solver: &mut S,
    task: &Task,
    before: u64,
) -> Result<PartLeast, Halt>
    requires old { IsRecosted task.now.base (S.program solver.old) }
    requires task { IsSweepTask task.now }
    requires some { (x : APoint) × IsFeasible task.now.base x }
    requires before { before ≤ task.now.nodes }
    ensures kept { OnOk result (Stays task.now.base (S.program solver.new) (S.stops solver.new) (S.stops solver.old)) }
    ensures halted { IfErr result (UnlessMemory (Stays task.now.base (S.program solver.new) (S.stops solver.new) (S.stops solver.old))) }
    ensures found { IfOk result (IsLeastSecond task.now) }
    ensures halt { IfErr result (IsHalt (S.stops solver.old) task.now.base task.now.nodes task.now.constant1 task.now.constant2 (pos 0) (pos 0) Least2) }
{
    let Ok(solved) = solve_least2(alloc, solver, &task.base, task.nodes - before) else {
        return Err(Halt::Memory);
    };
    let optimum = match settle(solved, before) {
        Ok(optimum) => optimum,
        Err(halt) => return Err(halt),
    };
    match second_least(task, optimum) {
        Some(least) => Ok(least),
        None => Err(Halt::Wide(ScalePlace::Value)),
    }
}
