// One turn of a worker.
ghost use Rattle.std.specs.Prelude.{◌≡◌, ◌⊎◌, ◌<◌, length, IfOk, OnErr};
ghost use Rattle.sound_searches.specs.Laws.{HasNoOpenLeaf};
ghost use Rattle.tree_search.specs.Turns.{IsFreeAnswer};
ghost use Rattle.tree_search.specs.GivingUp.{LeavesTurn};
ghost use Rattle.tree_search.specs.private.Stepping.{IsReady, AreJobsOf, IsTurned};

use crate::crew::{hand_out, keep_jobs, take_job};
use crate::stepping::{Stepped, Working, show_manager, step};
use branch_tree::Job;
use rand_pcg::Lcg64Xsh32;
use std::alloc::{AllocError, Global};
use tree_manager::Manager;
use turn_order::whose_turn;

/// What one turn comes to.
#[derive(Drop)]
pub(crate) enum Turned {
    /// A leaf was handed out.
    HandedOut,
    /// A job was worked, and this came of it.
    HasWorked(Stepped),
}

/// Whether an open leaf is held by nobody.
fn has_free_leaf(manager: &Manager) -> bool
    ensures { IsFreeAnswer manager.now.search manager.now.held result }
{
    match manager.next_free_leaf() {
        None => false,
        Some(_) => true,
    }
}

/// The turn of the worker that the next word says: one that holds nothing gets a job, and one that holds a job works it. The jobs of
/// leaves that are not open any more are let go.
pub(crate) fn take_turn(
    alloc: Global,
    manager: &mut Manager,
    jobs: &mut Vec<Option<Job>>,
    words: &mut Lcg64Xsh32,
    working: &Working<'_>,
) -> Result<Turned, AllocError>
    requires ready { IsReady working.now manager.old.search }
    requires jobs { AreJobsOf manager.old jobs.old.items }
    requires left { ¬ HasNoOpenLeaf manager.old.search }
    ensures turned { IfOk result (λ turned. IsTurned working.now manager.old jobs.old.items words.old turned manager.new jobs.new.items words.new) }
    ensures leaves { OnErr result ((manager.new.search ≡ manager.old.search) ⊎ LeavesTurn working.now.ways working.now.first.now working.now.pivots (record { search = manager.old.search; jobs = jobs.old.items; words = words.old }) manager.old.search manager.new.search) }
{
    show_manager(manager);
    let free = has_free_leaf(manager);
    let worker = whose_turn(words, free, manager.held());
    match take_job(jobs, worker) {
        None => match hand_out(manager, jobs, worker) {
            Ok(()) => Ok(Turned::HandedOut),
            Err(error) => Err(error),
        },
        Some(job) => match step(alloc, manager, worker, working, job) {
            Ok(stepped) => {
                keep_jobs(manager, jobs);
                Ok(Turned::HasWorked(stepped))
            }
            Err(error) => Err(error),
        },
    }
}
