// The search: open leaves are worked until none is left, or it stops.
ghost use Rattle.std.specs.Prelude.{◌≡◌, ◌↔◌, ℕ, [], length, replicate, true, IsTrue, IsSome, None, Some, IfOk, OnErr};
ghost use Rattle.frac128.specs.Rational.{ℚ};
ghost use Rattle.lp_model.specs.Program.{HasWholeObjective};
ghost use Rattle.branch_tree.specs.Leaves.{region_leaves};
ghost use Rattle.leaf_judging.specs.Choosing.{IsFirstCandidate};
ghost use Rattle.sound_searches.specs.Sound.{formulation_of};
ghost use Rattle.tree_search.specs.Within.{IsGapLimit, IsGapReached};
ghost use Rattle.tree_search.specs.declared.searching.Ended.TheVariants.{Within};
ghost use Rattle.tree_search.specs.Steps.{IsWayFor, IsFirstFor};
ghost use Rattle.tree_search.specs.Causes.{IsAtEnd, IsEnoughForSearch};
ghost use Rattle.tree_search.specs.Search.{Finds, GivesUp};
ghost use Rattle.tree_search.specs.Solves.{turn_order_of};
ghost use Rattle.tree_search.specs.private.Stepping.{IsReady, Comes};

use crate::done::is_done;
use crate::limits::Limits;
use crate::stepping::{Stepped, Working, show_manager};
use crate::turning::{Turned, take_turn};
use branch_tree::Job;
use frac128::Frac;
use leaf_judging::Candidate;
use lp_model::{Basis, Model, StopWhy};
use model_points::has_whole_objective;
use std::alloc::{AllocError, Global};
use tree_edit::Search;
use tree_manager::{Manager, nobody};
use turn_order::words_of;

/// Whose relaxations are worked.
#[derive(Clone, Copy, Drop)]
pub enum Ways<'a> {
    /// Those of the search's own model.
    Own,
    /// Those of its model without costs, since it has a ray: the first point that is found ends the search.
    Rays(&'a Model),
}

/// How a search came to its end.
#[derive(Drop)]
pub enum Ended {
    /// No leaf is open.
    Finished,
    /// All leaves are within the gap of the best kept point, and a leaf is open.
    Within(Frac),
    /// Beside a ray a point was found: the objective has no end. The point is kept, and its leaf is open.
    Unbounded,
    /// It stopped, and a leaf is open.
    Stopped(StopWhy),
}

/// The end of a search, and how many results it placed.
#[derive(Drop)]
pub struct Searched {
    pub ended: Ended,
    pub results: u64,
}

/// The open leaf that goes first.
fn next_candidate(manager: &Manager) -> Option<Candidate>
    ensures { IsFirstCandidate (formulation_of manager.now.search) (region_leaves [] manager.now.search.tree.root) result }
{
    manager.search().next_candidate()
}

/// Whether the search is done within the gap.
fn is_within(
    manager: &Manager,
    working: &Working<'_>,
    gap: &Option<Frac>,
    whole: bool,
    first: &Candidate,
) -> bool
    requires gap { IsGapLimit gap.now }
    requires whole { IsTrue whole ↔ HasWholeObjective manager.now.search.model 1 }
    requires first { IsFirstCandidate (formulation_of manager.now.search) (region_leaves [] manager.now.search.tree.root) (Some first.now) }
    ensures { IsTrue result ↔ IsGapReached working.now.ways gap.now manager.now.search }
{
    is_done(manager.search(), &working.ways, gap, whole, first)
}

/// The end of a search that is within its gap, if it has one.
fn end_within(gap: Option<Frac>) -> Ended
    requires { IsSome gap }
    ensures { (g : ℚ) → gap ≡ Some g → result ≡ Within g }
{
    match gap {
        Some(gap) => Ended::Within(gap),
        None => unreachable!(),
    }
}

/// The end of a search. The jobs that workers hold are let go.
fn ended_with(jobs: Vec<Option<Job>>, ended: Ended, results: u64) -> Searched
    ensures { result ≡ record { ended = ended; results = results } }
{
    drop(jobs);
    Searched { ended, results }
}

/// Works open leaves, one turn after the other, until none is left, all leaves are within the gap, or the search stops.
fn go_on(
    alloc: Global,
    manager: &mut Manager,
    working: &Working<'_>,
    limits: &Limits,
) -> Result<Searched, AllocError>
    requires ready { IsReady working.now manager.old.search }
    requires idle { manager.old.held ≡ replicate limits.now.workers None }
    requires gap { IsGapLimit limits.now.gap }
    ensures comes { IfOk result (λ searched. Comes working.now (turn_order_of limits.now) limits.now.nodes manager.old.search manager.new.search searched) }
    ensures unfinished { OnErr result (GivesUp working.now.ways working.now.first.now (turn_order_of limits.now) limits.now.nodes working.now.pivots manager.old.search manager.new.search) }
{
    show_manager(manager);
    let mut jobs = match nobody(alloc, manager.held().len()) {
        Ok(jobs) => jobs,
        Err(error) => return Err(error),
    };
    let mut words = words_of(limits.seed);
    let mut results = 0;
    let whole = has_whole_objective(manager.search().model(), 1);
    while let Some(first) = next_candidate(manager) {
        show_manager(manager);
        if is_within(manager, working, &limits.gap, whole, &first) {
            return Ok(ended_with(jobs, end_within(limits.gap), results));
        }
        if results == limits.nodes {
            return Ok(ended_with(jobs, Ended::Stopped(StopWhy::Nodes), results));
        }
        let turned = match take_turn(alloc, manager, &mut jobs, &mut words, working) {
            Ok(turned) => turned,
            Err(error) => {
                drop(jobs);
                return Err(error);
            }
        };
        show_manager(manager);
        match turned {
            Turned::HandedOut => {}
            Turned::HasWorked(Stepped::Placed) => results += 1,
            Turned::HasWorked(Stepped::Found) => {
                return Ok(ended_with(jobs, Ended::Unbounded, results + 1));
            }
            Turned::HasWorked(Stepped::Stopped(why)) => {
                return Ok(ended_with(jobs, Ended::Stopped(why), results));
            }
        }
    }
    show_manager(manager);
    Ok(ended_with(jobs, Ended::Finished, results))
}

/// Works open leaves until none is left, or all leaves are within the gap. The turns of the manager's workers, of which none holds a leaf, are those that the words of
/// the seed say. At most `nodes` results are placed, and each relaxation has at most `pivots` moves. A relaxation whose leaf keeps no
/// lawful basis begins at `first`. The search comes back; what workers held is let go. Where there is no memory the results that were
/// placed stay, and the search can go on.
pub fn search_on(
    alloc: Global,
    mut manager: Manager,
    ways: &Ways<'_>,
    first: &Basis,
    limits: &Limits,
) -> (Search, Result<Searched, AllocError>)
    requires idle { manager.held ≡ replicate limits.now.workers None }
    requires gap { IsGapLimit limits.now.gap }
    requires ways { IsWayFor manager.search ways.now }
    requires first { IsFirstFor ways.now manager.search first.now }
    ensures found { IfOk result.1 (λ searched. Finds ways.now first.now (turn_order_of limits.now) limits.now.nodes limits.now.pivots manager.search result.0 searched) }
    ensures complete { IfOk result.1 (λ searched. IsEnoughForSearch manager.search result.0.cuts ways.now limits.now.nodes limits.now.pivots → IsAtEnd searched.ended) }
    ensures unfinished { OnErr result.1 (GivesUp ways.now first.now (turn_order_of limits.now) limits.now.nodes limits.now.pivots manager.search result.0) }
{
    show_manager(&manager);
    let working = Working {
        ways: *ways,
        first,
        pivots: limits.pivots,
    };
    let searched = go_on(alloc, &mut manager, &working, limits);
    (manager.into_search(), searched)
}
