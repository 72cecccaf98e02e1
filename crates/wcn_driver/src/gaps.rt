// A gap looked into, and what is found in it pulled to an outcome that no other dominates.
ghost use Rattle.std.specs.Prelude.{◌≡◌, ◌≤◌, ℤ, ◌-ℤ◌, take, length, IfOk, OnOk, IfErr};
ghost use Rattle.frac128.specs.Rational.{int};
ghost use Rattle.frac128.specs.Range.{IsNarrow};
ghost use Rattle.lp_model.specs.Program.{Point as APoint, IsFeasible};
ghost use Rattle.frontier.specs.Outcomes.{HasOutcome};
ghost use Rattle.gap_models.specs.Gaps.{FitsGap};
ghost use Rattle.front_sweeps.specs.Steps.{gap_between, width_between};
ghost use Rattle.front_solver.specs.Solved.{IsRecosted};
ghost use Rattle.wcn_driver.specs.declared.answers.Part.TheVariants.{Gap as PartGap, Pull};
ghost use Rattle.wcn_driver.specs.private.Tasks.{IsSweepTask};
ghost use Rattle.wcn_driver.specs.Answers.{HasNarrowOutcome, IsFirstWideScale};
ghost use Rattle.wcn_driver.specs.private.Ends.{IsNotFoundAtPoint};
ghost use Rattle.wcn_driver.specs.private.Settled.{IsHalt, IsPartOptimum};
ghost use Rattle.wcn_driver.specs.private.Kept.{Stays, UnlessMemory};
ghost use Rattle.wcn_driver.specs.private.Gaps.{IsPlaceOfGap, IsGapToLookInto, IsGapEnd, IsPulled, IsWideHalt};

use crate::answers::ScalePlace;
use crate::ends::{PartFound, settled_found};
use crate::settling::{Halt, Optimum, settle};
use crate::task::{Task, outcome_at};
use crate::trees::front_tree;
use frac128::Frac;
use front_parts::{SumsFault, solve_gap, solve_pull, sums};
use front_solver::Solver;
use front_text::{FrontTree, TreeOf};
use frontier::Outcome;
use gap_models::{Gap, GapPlace};
use lp_model::{List, Point};
use std::alloc::{AllocError, Global};

/// A gap between two neighbours over the least values, and its number in a certificate.
#[derive(Clone, Copy, Drop)]
pub(crate) struct GapAt {
    pub(crate) p: Outcome,
    pub(crate) q: Outcome,
    pub(crate) least1: i128,
    pub(crate) least2: i128,
    pub(crate) number: u64,
}

/// What a gap is found to be, and the results of all parts until then.
#[derive(Drop)]
pub(crate) enum GapEnd {
    /// It has no feasible point, as the tree proves.
    Empty { tree: FrontTree, results: u64 },
    /// It has a point with this outcome.
    Holds { outcome: Outcome, results: u64 },
}

/// Why a gap's numbers have no room, as a place of its part.
fn place_of(place: GapPlace) -> ScalePlace
    ensures { IsPlaceOfGap place result }
{
    match place {
        GapPlace::Width => ScalePlace::Width,
        GapPlace::Col(col) => ScalePlace::Col(col),
        GapPlace::Side => ScalePlace::Side,
    }
}

/// The numbers of the first columns.
fn first_numbers(alloc: Global, point: &Point, count: usize) -> Result<Point, AllocError>
    requires { count ≤ length point.now }
    ensures { IfOk result (λ front. front ≡ take count point.now) }
{
    List::from_slice(alloc, &point.as_slice()[..count])
}

/// The outcome of the first numbers of a point, or that its numbers have no room, or that there is no memory.
fn held_outcome(alloc: Global, task: &Task, point: &Point) -> Result<Outcome, Halt>
    requires task { IsSweepTask task.now }
    requires long { length task.now.base.cols ≤ length point.now }
    requires feasible { IsFeasible task.now.base (take (length task.now.base.cols) point.now) }
    ensures has { IfOk result (HasNarrowOutcome task.now.base task.now.constant1 task.now.constant2 (take (length task.now.base.cols) point.now)) }
    ensures halt { IfErr result (IsNotFoundAtPoint task.now.base task.now.constant1 task.now.constant2 (take (length task.now.base.cols) point.now)) }
{
    let cols = task.base.cols();
    let Ok(front) = first_numbers(alloc, point, cols.len()) else {
        return Err(Halt::Memory);
    };
    let outcome = outcome_at(task, &front);
    drop(front);
    match outcome {
        Some(outcome) => Ok(outcome),
        None => Err(Halt::Wide(ScalePlace::Value)),
    }
}

/// What an optimum of a gap's model shows: the gap is empty where its value is the width, else it holds a point.
fn judge_gap(
    alloc: Global,
    task: &Task,
    gap: &GapAt,
    width: &Frac,
    optimum: Optimum,
) -> Result<GapEnd, Halt>
    requires task { IsSweepTask task.now }
    requires gap { IsGapToLookInto task.now.base gap.now }
    requires fits { FitsGap task.now.base (gap.now.p.f2 -ℤ gap.now.least2) (gap.now.q.f1 -ℤ gap.now.least1) gap.now.least1 gap.now.least2 }
    requires width { width.now ≡ int (width_between gap.now.least1 gap.now.least2 gap.now.p gap.now.q) }
    requires optimum { IsPartOptimum (gap_between task.now.base gap.now.least1 gap.now.least2 gap.now.p gap.now.q) task.now.nodes optimum }
    ensures found { IfOk result (IsGapEnd task.now gap.now) }
    ensures wide { IfErr result (IsWideHalt (IsFirstWideScale task.now.base task.now.constant1 task.now.constant2 gap.now.least1 gap.now.least2 (PartGap gap.now.p gap.now.q))) }
{
    let Optimum {
        value,
        point,
        cert,
        results,
    } = optimum;
    if !value.is_below(width) {
        drop(point);
        let tree = front_tree(TreeOf::Gap(gap.number), cert);
        return Ok(GapEnd::Empty { tree, results });
    }
    drop(cert);
    let held = held_outcome(alloc, task, &point);
    drop(point);
    match held {
        Ok(outcome) => Ok(GapEnd::Holds { outcome, results }),
        Err(halt) => Err(halt),
    }
}

/// A gap looked into: the least `Z` of its model is its width where it is empty.
pub(crate) fn look_into<S: Solver>(
    alloc: Global,
    solver: &mut S,
    task: &Task,
    gap: &GapAt,
    before: u64,
) -> Result<GapEnd, Halt>
    requires old { IsRecosted task.now.base (S.program solver.old) }
    requires task { IsSweepTask task.now }
    requires gap { IsGapToLookInto task.now.base gap.now }
    requires before { before ≤ task.now.nodes }
    ensures kept { OnOk result (Stays task.now.base (S.program solver.new) (S.stops solver.new) (S.stops solver.old)) }
    ensures halted { IfErr result (UnlessMemory (Stays task.now.base (S.program solver.new) (S.stops solver.new) (S.stops solver.old))) }
    ensures found { IfOk result (IsGapEnd task.now gap.now) }
    ensures halt { IfErr result (IsHalt (S.stops solver.old) task.now.base task.now.nodes task.now.constant1 task.now.constant2 gap.now.least1 gap.now.least2 (PartGap gap.now.p gap.now.q)) }
{
    let numbers = match Gap::between(&task.base, &gap.p, &gap.q, gap.least1, gap.least2) {
        Ok(numbers) => numbers,
        Err(place) => return Err(Halt::Wide(place_of(place))),
    };
    let Ok(solved) = solve_gap(alloc, solver, &task.base, &numbers, task.nodes - before) else {
        return Err(Halt::Memory);
    };
    let optimum = match settle(solved, before) {
        Ok(optimum) => optimum,
        Err(halt) => return Err(halt),
    };
    judge_gap(alloc, task, gap, &numbers.width, optimum)
}

/// The outcome with the least sum of values among those that are no worse than an outcome.
pub(crate) fn pull<S: Solver>(
    alloc: Global,
    solver: &mut S,
    task: &Task,
    outcome: &Outcome,
    before: u64,
) -> Result<PartFound, Halt>
    requires old { IsRecosted task.now.base (S.program solver.old) }
    requires task { IsSweepTask task.now }
    requires some { (x : APoint) × (IsFeasible task.now.base x × HasOutcome task.now.base x outcome.now) }
    requires first { IsNarrow outcome.now.f1 }
    requires second { IsNarrow outcome.now.f2 }
    requires before { before ≤ task.now.nodes }
    ensures kept { OnOk result (Stays task.now.base (S.program solver.new) (S.stops solver.new) (S.stops solver.old)) }
    ensures halted { IfErr result (UnlessMemory (Stays task.now.base (S.program solver.new) (S.stops solver.new) (S.stops solver.old))) }
    ensures found { IfOk result (IsPulled task.now outcome.now) }
    ensures halt { (i1 i2 : ℤ) → IfErr result (IsHalt (S.stops solver.old) task.now.base task.now.nodes task.now.constant1 task.now.constant2 i1 i2 (Pull outcome.now)) }
{
    let sums = match sums(alloc, &task.base) {
        Ok(sums) => sums,
        Err(SumsFault::Wide(col)) => return Err(Halt::Wide(ScalePlace::Col(col))),
        Err(SumsFault::Memory) => return Err(Halt::Memory),
    };
    let most1 = Frac::of_whole(outcome.f1);
    let most2 = Frac::of_whole(outcome.f2);
    let left = task.nodes - before;
    let solved = solve_pull(alloc, solver, &task.base, &sums, &most1, &most2, left);
    drop(sums);
    match solved {
        Ok(solved) => settled_found(alloc, task, solved, before),
        Err(_) => Err(Halt::Memory),
    }
}
