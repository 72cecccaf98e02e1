// The whole sweep of a front: the ends, then the gaps.
ghost use Rattle.std.specs.Prelude.{◌≡◌, ◌≢◌, ◌⊎◌, ◌≤◌, ℕ, List, [], ◌∷◌, map, IsTrue, ◌↔◌, IfOk, OnOk};
ghost use Rattle.frac128.specs.Range.{IsNarrow};
ghost use Rattle.lp_model.specs.Program.{HasWholeObjective};
ghost use Rattle.frontier.specs.declared.outcomes.Outcome.{Outcome as AnOutcome};
ghost use Rattle.inner_models.specs.Inner.{IsBare};
ghost use Rattle.inner_models.specs.Room.{HasInnerRoom};
ghost use Rattle.front_solver.specs.Solved.{IsRecosted};
ghost use Rattle.wcn_driver.specs.declared.answers.Mc.TheVariants.{Memory};
ghost use Rattle.wcn_driver.specs.declared.found.Found.{Found as AFound};
ghost use Rattle.wcn_driver.specs.declared.task.Task.{Task as ATask};
ghost use Rattle.wcn_driver.specs.Answers.{IsMc};
ghost use Rattle.wcn_driver.specs.private.Tasks.{IsSweepTask};
ghost use Rattle.wcn_driver.specs.private.Ends.{IsLeastFirst, IsLeastSecond, IsRightEnd};
ghost use Rattle.wcn_driver.specs.private.State.{IsBetween, HasLeft};
ghost use Rattle.wcn_driver.specs.private.Told.{IsCompleted};

use crate::answers::{Mc, Part};
use crate::driving::{Sweep, sweep_gaps};
use crate::ends::{FirstEnd, PartFound, PartLeast, least_first, least_second, left_end, right_end};
use crate::found::Found;
use crate::task::Task;
use crate::told::{front_of, told, told_without};
use frac128::Frac;
use front_solver::{Solver, set_objective};
use front_text::{FrontCert, FrontOutcome, FrontTree};
use lp_model::{Col, List, Model};
use model_points::whole_objective;
use std::alloc::{AllocError, Global};

// ---- the end of a sweep

/// The outcomes with their points, as a certificate has them.
fn shown_of(alloc: Global, found: Vec<Found>) -> Result<List<FrontOutcome>, AllocError>
    ensures { IfOk result (λ l. l ≡ map (λ f. f.shown) found.items) }
{
    let mut list = List::new(alloc);
    for item in found {
        let Found { outcome: _, shown } = item;
        let Ok(()) = list.push(shown) else {
            drop(list);
            return Err(AllocError);
        };
    }
    Ok(list)
}

/// The whole front with its certificate, where the last gap is closed.
fn completed(alloc: Global, task: &Task, sweep: Sweep) -> Mc
    requires task { IsSweepTask task.now }
    requires between { (before : List AnOutcome) × ((p : AnOutcome) × IsBetween task.now sweep before p []) }
    ensures { IsCompleted task.now result }
{
    let Ok(front) = front_of(alloc, &sweep.found) else {
        drop(sweep);
        return Mc::Memory;
    };
    let Sweep { found, trees, .. } = sweep;
    match shown_of(alloc, found) {
        Ok(outcomes) => Mc::Complete {
            front,
            cert: FrontCert { outcomes, trees },
        },
        Err(_) => {
            drop(front);
            drop(trees);
            Mc::Memory
        }
    }
}

// ---- the ends

/// The last outcome behind the first, where it is another.
fn with_last(found: Vec<Found>, last: Found) -> Result<Vec<Found>, AllocError>
    requires { (left : AFound) × (found.items ≡ left ∷ []) }
    ensures same { (left : AFound) → found.items ≡ left ∷ [] → last.outcome.f1 ≡ left.outcome.f1 → IfOk result (λ list. list.items ≡ left ∷ []) }
    ensures apart { (left : AFound) → found.items ≡ left ∷ [] → last.outcome.f1 ≢ left.outcome.f1 → IfOk result (λ list. list.items ≡ left ∷ last ∷ []) }
{
    let mut found = found;
    if last.outcome.f1 == found[0].outcome.f1 {
        drop(last);
        return Ok(found);
    }
    match found.push(last) {
        Ok(()) => Ok(found),
        Err(_) => {
            drop(found);
            Err(AllocError)
        }
    }
}

/// The trees of the least values.
fn least_trees(
    alloc: Global,
    first: FrontTree,
    second: FrontTree,
) -> Result<List<FrontTree>, AllocError>
    ensures { IfOk result (λ trees. trees ≡ first ∷ second ∷ []) }
{
    let mut trees = List::new(alloc);
    let Ok(()) = trees.push(first) else {
        drop(trees);
        drop(second);
        return Err(AllocError);
    };
    let Ok(()) = trees.push(second) else {
        drop(trees);
        return Err(AllocError);
    };
    Ok(trees)
}

/// A sweep at its first gap.
fn sweep_of(
    alloc: Global,
    first: PartLeast,
    found: Vec<Found>,
    second: PartLeast,
    right: PartFound,
) -> Result<Sweep, AllocError>
    requires { (left : AFound) × (found.items ≡ left ∷ []) }
    ensures { (g : ATask) → IsSweepTask g → IsLeastFirst g first → HasLeft g first.least found.items → IsLeastSecond g second → IsRightEnd g second.least right → IfOk result (λ s. (p : AnOutcome) × ((behind : List AnOutcome) × IsBetween g s [] p behind)) }
{
    let PartFound {
        found: last,
        results,
    } = right;
    let PartLeast {
        least: least1,
        tree: tree1,
        ..
    } = first;
    let PartLeast {
        least: least2,
        tree: tree2,
        ..
    } = second;
    let Ok(found) = with_last(found, last) else {
        drop(tree1);
        drop(tree2);
        return Err(AllocError);
    };
    let Ok(trees) = least_trees(alloc, tree1, tree2) else {
        drop(found);
        return Err(AllocError);
    };
    Ok(Sweep {
        least1,
        least2,
        found,
        trees,
        results,
    })
}

/// The gaps, where both ends are found.
fn swept_by_gaps<S: Solver>(alloc: Global, solver: &mut S, task: &Task, sweep: Sweep) -> Mc
    requires old { IsRecosted task.now.base (S.program solver.old) }
    requires task { IsSweepTask task.now }
    requires between { (p : AnOutcome) × ((behind : List AnOutcome) × IsBetween task.now sweep [] p behind) }
    ensures mc { IsMc (S.stops solver.old) task.now.base task.now.nodes task.now.constant1 task.now.constant2 result }
    ensures kept { (result ≡ Memory) ⊎ IsRecosted task.now.base (S.program solver.new) }
{
    let mut sweep = sweep;
    match sweep_gaps(alloc, solver, task, &mut sweep) {
        Ok(()) => completed(alloc, task, sweep),
        Err(end) => {
            let Sweep { found, trees, .. } = sweep;
            drop(trees);
            told(alloc, found, end.part, end.halt)
        }
    }
}

/// The last outcome and what follows, where the first outcome and the least values are found.
fn swept_from_right<S: Solver>(
    alloc: Global,
    solver: &mut S,
    task: &Task,
    first: PartLeast,
    found: Vec<Found>,
    second: PartLeast,
) -> Mc
    requires old { IsRecosted task.now.base (S.program solver.old) }
    requires task { IsSweepTask task.now }
    requires first { IsLeastFirst task.now first }
    requires left { HasLeft task.now first.least found.items }
    requires second { IsLeastSecond task.now second }
    ensures mc { IsMc (S.stops solver.old) task.now.base task.now.nodes task.now.constant1 task.now.constant2 result }
    ensures kept { (result ≡ Memory) ⊎ IsRecosted task.now.base (S.program solver.new) }
{
    match right_end(alloc, solver, task, second.least, second.results) {
        Err(halt) => {
            drop(first);
            drop(second);
            told(alloc, found, Part::Right, halt)
        }
        Ok(right) => match sweep_of(alloc, first, found, second, right) {
            Ok(sweep) => swept_by_gaps(alloc, solver, task, sweep),
            Err(_) => Mc::Memory,
        },
    }
}

/// The least second value and what follows, where the least first value and the first outcome are found.
fn swept_from_least2<S: Solver>(
    alloc: Global,
    solver: &mut S,
    task: &Task,
    first: PartLeast,
    found: Vec<Found>,
    results: u64,
) -> Mc
    requires old { IsRecosted task.now.base (S.program solver.old) }
    requires task { IsSweepTask task.now }
    requires first { IsLeastFirst task.now first }
    requires left { HasLeft task.now first.least found.items }
    requires results { results ≤ task.now.nodes }
    ensures mc { IsMc (S.stops solver.old) task.now.base task.now.nodes task.now.constant1 task.now.constant2 result }
    ensures kept { (result ≡ Memory) ⊎ IsRecosted task.now.base (S.program solver.new) }
{
    match least_second(alloc, solver, task, results) {
        Err(halt) => {
            drop(first);
            told(alloc, found, Part::Least2, halt)
        }
        Ok(second) => swept_from_right(alloc, solver, task, first, found, second),
    }
}

/// The first outcome and what follows, where the least first value is found.
fn swept_from_left<S: Solver>(alloc: Global, solver: &mut S, task: &Task, first: PartLeast) -> Mc
    requires old { IsRecosted task.now.base (S.program solver.old) }
    requires task { IsSweepTask task.now }
    requires first { IsLeastFirst task.now first }
    ensures mc { IsMc (S.stops solver.old) task.now.base task.now.nodes task.now.constant1 task.now.constant2 result }
    ensures kept { (result ≡ Memory) ⊎ IsRecosted task.now.base (S.program solver.new) }
{
    match left_end(alloc, solver, task, first.least, first.results) {
        Err(halt) => {
            drop(first);
            told_without(alloc, Part::Left, halt)
        }
        Ok(left) => {
            let results = left.results;
            let mut found = Vec::new(alloc);
            let Ok(()) = found.push(left.found) else {
                drop(found);
                drop(first);
                return Mc::Memory;
            };
            swept_from_least2(alloc, solver, task, first, found, results)
        }
    }
}

/// The whole sweep. The solver's model is left with some costs in objective 1.
fn swept<S: Solver>(alloc: Global, solver: &mut S, task: &Task) -> Mc
    requires old { IsRecosted task.now.base (S.program solver.old) }
    requires task { IsSweepTask task.now }
    ensures mc { IsMc (S.stops solver.old) task.now.base task.now.nodes task.now.constant1 task.now.constant2 result }
    ensures kept { (result ≡ Memory) ⊎ IsRecosted task.now.base (S.program solver.new) }
{
    match least_first(alloc, solver, task) {
        FirstEnd::Halted(halt) => told_without(alloc, Part::Least1, halt),
        FirstEnd::Infeasible { cert, results } => Mc::Infeasible { cert, results },
        FirstEnd::Least(first) => swept_from_left(alloc, solver, task, first),
    }
}

// ---- the solver's own costs

/// The costs in objective 1.
fn first_costs(alloc: Global, cols: &[Col]) -> Result<Vec<Frac>, AllocError>
    ensures { IfOk result (λ list. list.items ≡ map (λ c. c.cost) cols.now) }
{
    let mut list = Vec::new(alloc);
    for col in cols {
        let Ok(()) = list.push(col.cost) else {
            drop(list);
            return Err(AllocError);
        };
    }
    Ok(list)
}

/// Whether there was no memory.
fn is_memory(answer: &Mc) -> bool
    ensures { IsTrue result ↔ (answer.now ≡ Memory) }
{
    matches!(answer, Mc::Memory)
}

/// Puts the costs of a model in the place of objective 1 of the solver's.
fn put_back<S: Solver>(alloc: Global, solver: &mut S, base: &Model) -> Result<(), AllocError>
    requires { IsRecosted base.now (S.program solver.old) }
    ensures { OnOk result (S.program solver.new ≡ base.now) }
{
    let Ok(costs) = first_costs(alloc, base.cols()) else {
        return Err(AllocError);
    };
    let put = set_objective(solver, base, &costs);
    drop(costs);
    put
}

/// The answer, where the solver's model has its own costs again.
fn restored<S: Solver>(alloc: Global, solver: &mut S, base: &Model, answer: Mc) -> Mc
    requires { (answer ≡ Memory) ⊎ IsRecosted base.now (S.program solver.old) }
    ensures answer { (result ≡ Memory) ⊎ (result ≡ answer) }
    ensures kept { (result ≡ Memory) ⊎ (S.program solver.new ≡ base.now) }
{
    if is_memory(&answer) {
        return answer;
    }
    match put_back(alloc, solver, base) {
        Ok(()) => answer,
        Err(_) => {
            drop(answer);
            Mc::Memory
        }
    }
}

/// A sweep of the solver's model, whose objectives are whole.
fn swept_whole<S: Solver>(
    alloc: Global,
    solver: &mut S,
    nodes: u64,
    constant1: i128,
    constant2: i128,
) -> Mc
    requires bare { IsBare (S.program solver.old) }
    requires room { HasInnerRoom (S.program solver.old) }
    requires whole1 { HasWholeObjective (S.program solver.old) 1 }
    requires whole2 { HasWholeObjective (S.program solver.old) 2 }
    requires first { IsNarrow constant1 }
    requires second { IsNarrow constant2 }
    ensures mc { IsMc (S.stops solver.old) (S.program solver.old) nodes constant1 constant2 result }
    ensures kept { (result ≡ Memory) ⊎ (S.program solver.new ≡ S.program solver.old) }
{
    let Ok(base) = solver.model().copy() else {
        return Mc::Memory;
    };
    let _cols = base.cols();
    let task = Task {
        base,
        constant1,
        constant2,
        nodes,
    };
    let answer = swept(alloc, solver, &task);
    restored(alloc, solver, &task.base, answer)
}

/// Sweeps the front of the model that a solver has, with its two objectives in least form and without constants. The constants are
/// added to the outcomes that are told. All parts together have at most `nodes` results. Whatever is answered but want of memory, the
/// solver's model is then what it was.
pub fn run_wcn<S: Solver>(
    alloc: Global,
    solver: &mut S,
    nodes: u64,
    constant1: i128,
    constant2: i128,
) -> Mc
    requires bare { IsBare (S.program solver.old) }
    requires room { HasInnerRoom (S.program solver.old) }
    requires first { IsNarrow constant1 }
    requires second { IsNarrow constant2 }
    ensures mc { IsMc (S.stops solver.old) (S.program solver.old) nodes constant1 constant2 result }
    ensures kept { (result ≡ Memory) ⊎ (S.program solver.new ≡ S.program solver.old) }
{
    match whole_objective(solver.model(), 1) {
        Err(fault) => Mc::NotWhole {
            which: 1,
            col: fault.col,
        },
        Ok(()) => match whole_objective(solver.model(), 2) {
            Err(fault) => Mc::NotWhole {
                which: 2,
                col: fault.col,
            },
            Ok(()) => swept_whole(alloc, solver, nodes, constant1, constant2),
        },
    }
}
