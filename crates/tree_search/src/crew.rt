// The jobs that workers hold.
ghost use Rattle.std.specs.Prelude.{◌≡◌, ◌<◌, ℕ, length, get_or, set, None, Some, OnOk, OnErr};
ghost use Rattle.sound_searches.specs.Free.{IsNextFree};
ghost use Rattle.tree_search.specs.Turns.{kept_job, jobs_on};
ghost use Rattle.tree_search.specs.private.Stepping.{Hands};

use branch_tree::Job;
use std::alloc::AllocError;
use std::mem;
use tree_manager::Manager;

/// The job that the worker holds, which is taken out.
pub(crate) fn take_job(jobs: &mut Vec<Option<Job>>, worker: usize) -> Option<Job>
    requires { worker < length jobs.old.items }
    ensures job { result ≡ get_or jobs.old.items worker None }
    ensures rest { jobs.new.items ≡ set jobs.old.items worker None }
{
    mem::replace(&mut jobs[worker], None)
}

/// The job, if its leaf is open.
fn kept_job(manager: &Manager, job: Option<Job>) -> Option<Job>
    ensures { result ≡ kept_job manager.now.search job }
{
    match job {
        None => None,
        Some(job) => {
            if manager.has_open(job.id) {
                Some(job)
            } else {
                drop(job);
                None
            }
        }
    }
}

/// Lets go of the jobs of leaves that are not open any more.
pub(crate) fn keep_jobs(manager: &Manager, jobs: &mut Vec<Option<Job>>)
    ensures { jobs.new.items ≡ jobs_on manager.now.search jobs.old.items }
{
    for worker in 0..jobs.len() {
        let job = take_job(jobs, worker);
        jobs[worker] = kept_job(manager, job);
    }
}

/// Hands out a leaf that nobody holds to a worker that holds none.
pub(crate) fn hand_out(
    manager: &mut Manager,
    jobs: &mut Vec<Option<Job>>,
    worker: usize,
) -> Result<(), AllocError>
    requires within { worker < length manager.old.held }
    requires same { length jobs.old.items ≡ length manager.old.held }
    requires idle { get_or manager.old.held worker None ≡ None }
    requires free { (id : ℕ) × IsNextFree manager.old.search manager.old.held (Some id) }
    ensures hands { OnOk result (Hands worker manager.old jobs.old.items manager.new jobs.new.items) }
    ensures kept { OnErr result (manager.new ≡ manager.old) }
{
    match manager.give(worker) {
        Ok(Some(job)) => {
            jobs[worker] = Some(job);
            Ok(())
        }
        Ok(None) => unreachable!(),
        Err(error) => Err(error),
    }
}
