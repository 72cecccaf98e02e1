// The gaps of a front, closed from the first to the last.
ghost use Rattle.std.specs.Prelude.{◌≡◌, ◌+◌, ◌≤◌, [], ◌∷◌, List, length, OnOk, IfOk, IfErr};
ghost use Rattle.frontier.specs.declared.outcomes.Outcome.{Outcome as AnOutcome};
ghost use Rattle.front_solver.specs.Solved.{IsRecosted};
ghost use Rattle.wcn_driver.specs.private.Tasks.{IsSweepTask};
ghost use Rattle.wcn_driver.specs.private.Kept.{Stays, UnlessMemory};
ghost use Rattle.wcn_driver.specs.private.Gaps.{IsHeldInGap};
ghost use Rattle.wcn_driver.specs.private.State.{IsBetween, IsGapBetween, IsGapTurned, IsSweepEnd};

use crate::answers::Part;
use crate::found::Found;
use crate::gaps::{GapAt, GapEnd, look_into, pull};
use crate::settling::Halt;
use crate::task::Task;
use front_solver::Solver;
use front_text::FrontTree;
use frontier::Outcome;
use lp_model::List;
use std::alloc::Global;

/// A sweep between two gaps: the least values, the outcomes that are found by rising first value, the trees of the least values and of
/// the gaps that are closed, and the results of all parts until then.
#[derive(Drop)]
pub(crate) struct Sweep {
    pub(crate) least1: i128,
    pub(crate) least2: i128,
    pub(crate) found: Vec<Found>,
    pub(crate) trees: List<FrontTree>,
    pub(crate) results: u64,
}

/// Where a sweep ends, and why.
#[derive(Drop)]
pub(crate) struct End {
    pub(crate) part: Part,
    pub(crate) halt: Halt,
}

/// What a gap holds is pulled, and taken in behind `p`, which has the place.
fn take_in<S: Solver>(
    alloc: Global,
    solver: &mut S,
    task: &Task,
    sweep: &mut Sweep,
    place: usize,
    gap: &GapAt,
    outcome: &Outcome,
) -> Result<(), End>
    requires old { IsRecosted task.now.base (S.program solver.old) }
    requires task { IsSweepTask task.now }
    requires between { (before behind : List AnOutcome) × ((p q : AnOutcome) × IsGapBetween task.now sweep.old before p q behind place gap.now) }
    requires held { IsHeldInGap task.now.base task.now.constant1 task.now.constant2 gap.now outcome.now }
    ensures kept { OnOk result (Stays task.now.base (S.program solver.new) (S.stops solver.new) (S.stops solver.old)) }
    ensures halted { IfErr result (λ e. UnlessMemory (Stays task.now.base (S.program solver.new) (S.stops solver.new) (S.stops solver.old)) e.halt) }
    ensures taken { (before behind : List AnOutcome) (p q : AnOutcome) → IsGapBetween task.now sweep.old before p q behind place gap.now → OnOk result ((o : AnOutcome) × IsBetween task.now sweep.new before p (o ∷ q ∷ behind)) }
    ensures end { IfErr result (λ e. IsSweepEnd (S.stops solver.old) task.now sweep.new.found.items e.part e.halt) }
{
    let part = Part::Pull { r: *outcome };
    match pull(alloc, solver, task, outcome, sweep.results) {
        Err(halt) => Err(End { part, halt }),
        Ok(pulled) => {
            sweep.results = pulled.results;
            let Ok(()) = sweep.found.insert(place + 1, pulled.found) else {
                return Err(End {
                    part,
                    halt: Halt::Memory,
                });
            };
            Ok(())
        }
    }
}

/// The gap behind the outcome at a place, looked into: where it is empty the place of the next gap is answered. Else an outcome of it is
/// found, and the place stays.
fn turn<S: Solver>(
    alloc: Global,
    solver: &mut S,
    task: &Task,
    sweep: &mut Sweep,
    place: usize,
) -> Result<usize, End>
    requires old { IsRecosted task.now.base (S.program solver.old) }
    requires task { IsSweepTask task.now }
    requires between { (before behind : List AnOutcome) × ((p q : AnOutcome) × (IsBetween task.now sweep.old before p (q ∷ behind) × (length before ≡ place))) }
    ensures kept { OnOk result (Stays task.now.base (S.program solver.new) (S.stops solver.new) (S.stops solver.old)) }
    ensures halted { IfErr result (λ e. UnlessMemory (Stays task.now.base (S.program solver.new) (S.stops solver.new) (S.stops solver.old)) e.halt) }
    ensures turned { (before behind : List AnOutcome) (p q : AnOutcome) → IsBetween task.now sweep.old before p (q ∷ behind) → length before ≡ place → IfOk result (IsGapTurned task.now sweep.new before p q behind place) }
    ensures end { IfErr result (λ e. IsSweepEnd (S.stops solver.old) task.now sweep.new.found.items e.part e.halt) }
{
    let gap = GapAt {
        p: sweep.found[place].outcome,
        q: sweep.found[place + 1].outcome,
        least1: sweep.least1,
        least2: sweep.least2,
        number: place as u64 + 1,
    };
    let part = Part::Gap { p: gap.p, q: gap.q };
    match look_into(alloc, solver, task, &gap, sweep.results) {
        Err(halt) => Err(End { part, halt }),
        Ok(GapEnd::Empty { tree, results }) => {
            sweep.results = results;
            let Ok(()) = sweep.trees.push(tree) else {
                return Err(End {
                    part,
                    halt: Halt::Memory,
                });
            };
            Ok(place + 1)
        }
        Ok(GapEnd::Holds { outcome, results }) => {
            sweep.results = results;
            match take_in(alloc, solver, task, sweep, place, &gap, &outcome) {
                Ok(()) => Ok(place),
                Err(end) => Err(end),
            }
        }
    }
}

/// All gaps, the one with the least first value first. With each turn what remains falls: an empty gap is one less, and an outcome that
/// is found parts its gap in two, whose widths in the first value are together the gap's.
pub(crate) fn sweep_gaps<S: Solver>(
    alloc: Global,
    solver: &mut S,
    task: &Task,
    sweep: &mut Sweep,
) -> Result<(), End>
    requires old { IsRecosted task.now.base (S.program solver.old) }
    requires task { IsSweepTask task.now }
    requires between { (p : AnOutcome) × ((behind : List AnOutcome) × IsBetween task.now sweep.old [] p behind) }
    ensures kept { OnOk result (Stays task.now.base (S.program solver.new) (S.stops solver.new) (S.stops solver.old)) }
    ensures halted { IfErr result (λ e. UnlessMemory (Stays task.now.base (S.program solver.new) (S.stops solver.new) (S.stops solver.old)) e.halt) }
    ensures swept { OnOk result ((before : List AnOutcome) × ((p : AnOutcome) × IsBetween task.now sweep.new before p [])) }
    ensures end { IfErr result (λ e. IsSweepEnd (S.stops solver.old) task.now sweep.new.found.items e.part e.halt) }
{
    let mut place = 0;
    while place + 1 < sweep.found.len() {
        place = turn(alloc, solver, task, sweep, place)?;
    }
    Ok(())
}
