// One step of a search: the leaf of a job that a worker holds is worked, and what comes of it is placed.
ghost use Rattle.std.specs.Prelude.{◌≡◌, ◌<◌, ◌≤◌, ◌+◌, [], length, IfOk, OnOk, OnErr, Some, None, Ok, Err};
ghost use Rattle.lp_model.specs.Limits.{pool_limit};
ghost use Rattle.lp_model.specs.Program.{value};
ghost use Rattle.lp_model.specs.Lawful.{IsLawful};
ghost use Rattle.branch_tree.specs.Numbered.{IsNumbered};
ghost use Rattle.branch_tree.specs.declared.node.NodeResult.TheVariants.{PointAndClose};
ghost use Rattle.sound_searches.specs.Free.{IsHeldJob};
ghost use Rattle.search_parts.specs.Lists.{IsBasis};
ghost use Rattle.sound_searches.specs.Sound.{PlainSearch, IsSound, formulation_of};
ghost use Rattle.kept_cuts.specs.Kept.{derivations_of};
ghost use Rattle.sound_searches.specs.Pool.{AddsCut, AddsCuts, AddsSome};
ghost use Rattle.node_solve.specs.Places.{live_cuts, live_places, basis_in_relaxation};
ghost use Rattle.node_solve.specs.declared.working.Worked.TheVariants.{Done, Pivots, Wide};
ghost use Rattle.lp_model.specs.declared.answers.StopWhy.TheVariants as why;
ghost use Rattle.model_points.specs.Answers.{IsValueAnswer};
ghost use Rattle.tree_search.specs.declared.stepping.Stepped.TheVariants.{Stopped};
ghost use Rattle.tree_search.specs.Steps.{FoundCuts, kept_basis, KeepsOpen, IsPlacedBy, IsRayWay};
ghost use Rattle.tree_search.specs.GivingUp.{LeavesOf};
ghost use Rattle.tree_manager.specs.Managers.{IsManager};
ghost use Rattle.tree_search.specs.private.Stepping.{IsReady, Steps, IsFreed, WorksBy, worked_with};

use crate::searching::Ways;
use branch_tree::{Job, NodeResult};
use cover_cuts::{CutPool, PoolFault};
use kept_cuts::{copy_derivation, derivations};
use lp_model::{
    Basis, CutRow, Derivation, List, Model, Mult, PivotPlace, Point, Region, StopWhy, WideAt,
    WideStep,
};
use model_points::value;
use node_solve::{LiveCuts, Worked, basis_in_pool, basis_in_relaxation, work};
use std::alloc::{AllocError, Global};
use tree_manager::{Manager, Taken};

/// How many rounds of cuts the work on a leaf makes.
const ROUNDS: u8 = 5;

/// What each leaf is worked by.
#[derive(Clone, Copy, Drop)]
pub(crate) struct Working<'a> {
    pub(crate) ways: Ways<'a>,
    pub(crate) first: &'a Basis,
    pub(crate) pivots: u64,
}

/// What one step comes to.
#[derive(Drop)]
pub(crate) enum Stepped {
    /// A result was placed, which closed the leaf or split it.
    Placed,
    /// Beside a ray a point was found, and is kept.
    Found,
    /// Nothing was placed.
    Stopped(StopWhy),
}

/// What the work on a leaf comes to, beside the cuts that it found.
#[derive(Drop)]
pub(crate) enum WorkEnd {
    /// A result to be placed.
    Done(NodeResult),
    /// As many moves as the limit allows were made, and the last basis is this.
    Pivots(Basis),
    /// A step has no room.
    Wide(WideAt),
}

/// What holds of each manager's search, and what contracts may use of it after this call.
pub(crate) fn show_manager(manager: &Manager)
    ensures sound { IsSound manager.now.search }
    ensures numbered { IsNumbered manager.now.search.tree }
    ensures lawful { IsLawful manager.now.search.model }
    ensures manager { IsManager manager.now }
{
    let search = manager.search();
    let _lawful = search.model().cols();
}

/// The model that is searched.
fn model(manager: &Manager) -> &Model
    ensures { result.now ≡ manager.now.search.model }
{
    manager.search().model()
}

/// The cuts of the search.
fn pool(manager: &Manager) -> &CutPool
    ensures pool { result.now ≡ manager.now.search.cuts }
{
    manager.search().pool()
}

/// Works the leaf of the job.
fn work_on(alloc: Global, manager: &Manager, working: &Working<'_>, job: &Job) -> Worked
    requires ready { IsReady working.now manager.now.search }
    requires held { IsHeldJob manager.now.search job.now }
    ensures { WorksBy working.now manager.now.search job.now result }
{
    show_manager(manager);
    match working.ways {
        Ways::Own => work(
            alloc,
            model(manager),
            pool(manager),
            job,
            working.first,
            ROUNDS,
            working.pivots,
        ),
        Ways::Rays(model) => work(
            alloc,
            model,
            pool(manager),
            job,
            working.first,
            ROUNDS,
            working.pivots,
        ),
    }
}

/// Adds a cut that was found. There is room in the pool.
fn add_cut(manager: &mut Manager, from: Derivation) -> Result<(), AllocError>
    requires { length manager.old.search.cuts < pool_limit }
    ensures adds { OnOk result (AddsCut manager.old.search from manager.new.search) }
    ensures kept { OnErr result (manager.new ≡ manager.old) }
    ensures held { manager.new.held ≡ manager.old.held }
{
    match manager.add_cut(from) {
        Ok(_) => Ok(()),
        Err(PoolFault::Full) => unreachable!(),
        Err(PoolFault::Memory) => Err(AllocError),
    }
}

/// Adds the cuts that were found, in order. Where there is no memory the first of them stay.
fn add_cuts(manager: &mut Manager, found: &[Derivation]) -> Result<(), AllocError>
    requires { length manager.old.search.cuts + length found.now ≤ pool_limit }
    ensures adds { OnOk result (AddsCuts manager.old.search found.now manager.new.search) }
    ensures some { OnErr result (AddsSome manager.old.search found.now manager.new.search) }
    ensures held { manager.new.held ≡ manager.old.held }
{
    for from in found {
        let own = match copy_derivation(from) {
            Ok(own) => own,
            Err(error) => return Err(error),
        };
        match add_cut(manager, own) {
            Ok(()) => {}
            Err(error) => return Err(error),
        }
    }
    Ok(())
}

/// The derivations of the cuts of a leaf's relaxation, which has the first 200 that count, and its basis as the leaf keeps it.
fn kept_lists(
    alloc: Global,
    manager: &Manager,
    basis: &Basis,
) -> Result<(List<Derivation>, Basis), AllocError>
    ensures cuts { IfOk result (λ both. both.0 ≡ derivations_of (live_cuts 200 manager.now.search.cuts)) }
    ensures basis { IfOk result (λ both. both.1 ≡ kept_basis manager.now.search basis.now) }
{
    let Ok(live) = LiveCuts::new(alloc, pool(manager)) else {
        return Err(AllocError);
    };
    let Ok(cuts) = derivations(alloc, &live.cuts) else {
        drop(live);
        return Err(AllocError);
    };
    let kept = basis_in_pool(alloc, &live.places, basis);
    drop(live);
    match kept {
        Ok(basis) => Ok((cuts, basis)),
        Err(error) => {
            drop(cuts);
            Err(error)
        }
    }
}

/// Gives the leaf of the job the basis of its relaxation, which has the first 200 cuts that count. The leaf stays open.
fn keep_basis(
    alloc: Global,
    manager: &mut Manager,
    worker: usize,
    job: &Job,
    basis: &Basis,
) -> Result<List<Derivation>, AllocError>
    requires job { IsHeldJob manager.old.search job.now }
    requires basis { IsBasis (formulation_of manager.old.search) (kept_basis manager.old.search basis.now) }
    requires within { worker < length manager.old.held }
    ensures keeps { OnOk result (KeepsOpen manager.old.search job.now [] None (kept_basis manager.old.search basis.now) manager.new.search) }
    ensures cuts { IfOk result (λ cuts. cuts ≡ derivations_of (live_cuts 200 manager.old.search.cuts)) }
    ensures kept { OnErr result (manager.new ≡ manager.old) }
    ensures held { OnOk result (IsFreed worker manager.old manager.new) }
{
    let Ok((cuts, basis)) = kept_lists(alloc, manager, basis) else {
        return Err(AllocError);
    };
    show_manager(manager);
    let taken = match manager.take_done(worker, job, NodeResult::Keep { point: None, basis }) {
        Ok(taken) => taken,
        Err(error) => {
            drop(cuts);
            return Err(error);
        }
    };
    match taken {
        Taken::Kept => Ok(cuts),
        _ => unreachable!(),
    }
}

/// The region of a job, of which the rest is let go.
fn job_region(job: Job) -> Region
    ensures { result ≡ job.region }
{
    job.region
}

/// A stop at the relaxation of a job, which had as many moves as the limit allows.
fn at_pivots(job: Job, cuts: List<Derivation>, basis: Basis) -> Stepped
    ensures { result ≡ Stopped (why.Pivots (record { path = Some job.region; cuts = cuts; basis = basis })) }
{
    Stepped::Stopped(StopWhy::Pivots(PivotPlace {
        path: Some(job_region(job)),
        cuts,
        basis,
    }))
}

/// A stop at the relaxation of a job, at a step that has no room.
fn at_step(job: Job, cuts: List<Derivation>, basis: Basis, step: WideStep) -> Stepped
    ensures { result ≡ Stopped (why.Wide (record { path = Some job.region; cuts = cuts; basis = basis; step = step })) }
{
    Stepped::Stopped(StopWhy::Wide(WideAt {
        path: Some(job_region(job)),
        cuts,
        basis,
        step,
    }))
}

/// Stops where the relaxation had as many moves as the limit allows.
fn stop_by_pivots(
    alloc: Global,
    manager: &mut Manager,
    worker: usize,
    working: &Working<'_>,
    job: Job,
    basis: Basis,
) -> Result<Stepped, AllocError>
    requires ready { IsReady working.now manager.old.search }
    requires works { (begin : PlainSearch) × ((found : FoundCuts) × (WorksBy working.now begin job (Pivots basis found) × AddsCuts begin found.items manager.old.search)) }
    requires within { worker < length manager.old.held }
    ensures steps { IfOk result (λ stepped. (begin : PlainSearch) (found : FoundCuts) → WorksBy working.now begin job (Pivots basis found) → AddsCuts begin found.items manager.old.search → Steps working.now job begin manager.new.search stepped) }
    ensures kept { OnErr result (manager.new ≡ manager.old) }
    ensures held { OnOk result (IsFreed worker manager.old manager.new) }
{
    match keep_basis(alloc, manager, worker, &job, &basis) {
        Ok(cuts) => Ok(at_pivots(job, cuts, basis)),
        Err(error) => {
            drop(job);
            drop(basis);
            Err(error)
        }
    }
}

/// Stops where a step of the work has no room.
fn stop_by_step(
    alloc: Global,
    manager: &mut Manager,
    worker: usize,
    working: &Working<'_>,
    job: &Job,
    at: WideAt,
) -> Result<Stepped, AllocError>
    requires ready { IsReady working.now manager.old.search }
    requires works { (begin : PlainSearch) × ((found : FoundCuts) × (WorksBy working.now begin job.now (Wide at found) × AddsCuts begin found.items manager.old.search)) }
    requires within { worker < length manager.old.held }
    ensures steps { IfOk result (λ stepped. (begin : PlainSearch) (found : FoundCuts) → WorksBy working.now begin job.now (Wide at found) → AddsCuts begin found.items manager.old.search → Steps working.now job.now begin manager.new.search stepped) }
    ensures kept { OnErr result (manager.new ≡ manager.old) }
    ensures held { OnOk result (IsFreed worker manager.old manager.new) }
{
    match keep_basis(alloc, manager, worker, job, &at.basis) {
        Ok(cuts) => {
            drop(cuts);
            Ok(Stepped::Stopped(StopWhy::Wide(at)))
        }
        Err(error) => {
            drop(at);
            Err(error)
        }
    }
}

/// Places a result that closes the leaf or splits it.
fn place_result(
    manager: &mut Manager,
    worker: usize,
    working: &Working<'_>,
    job: &Job,
    done: NodeResult,
) -> Result<Stepped, AllocError>
    requires ready { IsReady working.now manager.old.search }
    requires works { (begin : PlainSearch) × ((found : FoundCuts) × (WorksBy working.now begin job.now (Done done found) × AddsCuts begin found.items manager.old.search)) }
    requires by { IsPlacedBy working.now.ways done }
    requires within { worker < length manager.old.held }
    ensures steps { IfOk result (λ stepped. (begin : PlainSearch) (found : FoundCuts) → WorksBy working.now begin job.now (Done done found) → AddsCuts begin found.items manager.old.search → Steps working.now job.now begin manager.new.search stepped) }
    ensures kept { OnErr result (manager.new ≡ manager.old) }
    ensures held { OnOk result (IsFreed worker manager.old manager.new) }
{
    show_manager(manager);
    let taken = match manager.take_done(worker, job, done) {
        Ok(taken) => taken,
        Err(error) => return Err(error),
    };
    match taken {
        Taken::Full => Ok(Stepped::Stopped(StopWhy::Tree)),
        _ => Ok(Stepped::Placed),
    }
}

/// A basis that is kept, in the leaf's relaxation, which has the first 200 cuts that count.
fn relaxation_basis(alloc: Global, manager: &Manager, basis: &Basis) -> Result<Basis, AllocError>
    ensures { IfOk result (λ own. own ≡ basis_in_relaxation (live_places 200 0 manager.now.search.cuts) basis.now) }
{
    let Ok(live) = LiveCuts::new(alloc, pool(manager)) else {
        return Err(AllocError);
    };
    let own = basis_in_relaxation(alloc, &live.places, basis);
    drop(live);
    own
}

/// A basis that is let go, in the leaf's relaxation.
fn into_relaxation(alloc: Global, manager: &Manager, basis: Basis) -> Result<Basis, AllocError>
    ensures { IfOk result (λ own. own ≡ basis_in_relaxation (live_places 200 0 manager.now.search.cuts) basis) }
{
    let own = relaxation_basis(alloc, manager, &basis);
    drop(basis);
    own
}

/// Stops where a step of the value of a point that is found beside a ray has no room.
fn stop_by_value(
    alloc: Global,
    manager: &mut Manager,
    worker: usize,
    working: &Working<'_>,
    job: Job,
    point: Point,
    mult: Mult,
    basis: Basis,
    step: WideStep,
) -> Result<Stepped, AllocError>
    requires rays { IsRayWay working.now.ways }
    requires ready { IsReady working.now manager.old.search }
    requires works { (begin : PlainSearch) × ((found : FoundCuts) × (WorksBy working.now begin job (Done (PointAndClose point mult basis) found) × AddsCuts begin found.items manager.old.search)) }
    requires value { IsValueAnswer manager.old.search.model 1 point (Err step) }
    requires within { worker < length manager.old.held }
    ensures steps { IfOk result (λ stepped. (begin : PlainSearch) (found : FoundCuts) → WorksBy working.now begin job (Done (PointAndClose point mult basis) found) → AddsCuts begin found.items manager.old.search → Steps working.now job begin manager.new.search stepped) }
    ensures kept { OnErr result (manager.new ≡ manager.old) }
    ensures held { OnOk result (IsFreed worker manager.old manager.new) }
{
    show_manager(manager);
    drop(point);
    drop(mult);
    match into_relaxation(alloc, manager, basis) {
        Ok(own) => match keep_basis(alloc, manager, worker, &job, &own) {
            Ok(cuts) => Ok(at_step(job, cuts, own, step)),
            Err(error) => {
                drop(job);
                drop(own);
                Err(error)
            }
        },
        Err(error) => {
            drop(job);
            Err(error)
        }
    }
}

/// Keeps a point that is found beside a ray.
fn keep_found(
    manager: &mut Manager,
    worker: usize,
    working: &Working<'_>,
    job: &Job,
    point: Point,
    mult: Mult,
    basis: Basis,
) -> Result<Stepped, AllocError>
    requires rays { IsRayWay working.now.ways }
    requires ready { IsReady working.now manager.old.search }
    requires works { (begin : PlainSearch) × ((found : FoundCuts) × (WorksBy working.now begin job.now (Done (PointAndClose point mult basis) found) × AddsCuts begin found.items manager.old.search)) }
    requires value { IsValueAnswer manager.old.search.model 1 point (Ok (value manager.old.search.model 1 point)) }
    requires within { worker < length manager.old.held }
    ensures steps { IfOk result (λ stepped. (begin : PlainSearch) (found : FoundCuts) → WorksBy working.now begin job.now (Done (PointAndClose point mult basis) found) → AddsCuts begin found.items manager.old.search → Steps working.now job.now begin manager.new.search stepped) }
    ensures kept { OnErr result (manager.new ≡ manager.old) }
    ensures held { OnOk result (IsFreed worker manager.old manager.new) }
{
    show_manager(manager);
    drop(mult);
    let kept = NodeResult::Keep {
        point: Some(point),
        basis,
    };
    let taken = match manager.take_done(worker, job, kept) {
        Ok(taken) => taken,
        Err(error) => return Err(error),
    };
    match taken {
        Taken::Kept => Ok(Stepped::Found),
        _ => unreachable!(),
    }
}

/// Keeps the first point that is found beside a ray, if its value in the search's own model has room for each step.
fn keep_point(
    alloc: Global,
    manager: &mut Manager,
    worker: usize,
    working: &Working<'_>,
    job: Job,
    point: Point,
    mult: Mult,
    basis: Basis,
) -> Result<Stepped, AllocError>
    requires rays { IsRayWay working.now.ways }
    requires ready { IsReady working.now manager.old.search }
    requires works { (begin : PlainSearch) × ((found : FoundCuts) × (WorksBy working.now begin job (Done (PointAndClose point mult basis) found) × AddsCuts begin found.items manager.old.search)) }
    requires within { worker < length manager.old.held }
    ensures steps { IfOk result (λ stepped. (begin : PlainSearch) (found : FoundCuts) → WorksBy working.now begin job (Done (PointAndClose point mult basis) found) → AddsCuts begin found.items manager.old.search → Steps working.now job begin manager.new.search stepped) }
    ensures kept { OnErr result (manager.new ≡ manager.old) }
    ensures held { OnOk result (IsFreed worker manager.old manager.new) }
{
    show_manager(manager);
    match value(model(manager), 1, &point) {
        Err(step) => stop_by_value(
            alloc, manager, worker, working, job, point, mult, basis, step,
        ),
        Ok(_) => {
            let stepped = keep_found(manager, worker, working, &job, point, mult, basis);
            drop(job);
            stepped
        }
    }
}

/// Places what the work on a leaf beside a ray came to.
fn place_beside_ray(
    alloc: Global,
    manager: &mut Manager,
    worker: usize,
    working: &Working<'_>,
    job: Job,
    done: NodeResult,
) -> Result<Stepped, AllocError>
    requires rays { IsRayWay working.now.ways }
    requires ready { IsReady working.now manager.old.search }
    requires works { (begin : PlainSearch) × ((found : FoundCuts) × (WorksBy working.now begin job (Done done found) × AddsCuts begin found.items manager.old.search)) }
    requires within { worker < length manager.old.held }
    ensures steps { IfOk result (λ stepped. (begin : PlainSearch) (found : FoundCuts) → WorksBy working.now begin job (Done done found) → AddsCuts begin found.items manager.old.search → Steps working.now job begin manager.new.search stepped) }
    ensures kept { OnErr result (manager.new ≡ manager.old) }
    ensures held { OnOk result (IsFreed worker manager.old manager.new) }
{
    match done {
        NodeResult::PointAndClose { point, mult, basis } => {
            keep_point(alloc, manager, worker, working, job, point, mult, basis)
        }
        other => {
            let stepped = place_result(manager, worker, working, &job, other);
            drop(job);
            stepped
        }
    }
}

/// Places what the work on a leaf came to.
fn place_done(
    alloc: Global,
    manager: &mut Manager,
    worker: usize,
    working: &Working<'_>,
    job: Job,
    done: NodeResult,
) -> Result<Stepped, AllocError>
    requires ready { IsReady working.now manager.old.search }
    requires works { (begin : PlainSearch) × ((found : FoundCuts) × (WorksBy working.now begin job (Done done found) × AddsCuts begin found.items manager.old.search)) }
    requires within { worker < length manager.old.held }
    ensures steps { IfOk result (λ stepped. (begin : PlainSearch) (found : FoundCuts) → WorksBy working.now begin job (Done done found) → AddsCuts begin found.items manager.old.search → Steps working.now job begin manager.new.search stepped) }
    ensures kept { OnErr result (manager.new ≡ manager.old) }
    ensures held { OnOk result (IsFreed worker manager.old manager.new) }
{
    match working.ways {
        Ways::Own => {
            let stepped = place_result(manager, worker, working, &job, done);
            drop(job);
            stepped
        }
        Ways::Rays(_) => place_beside_ray(alloc, manager, worker, working, job, done),
    }
}

/// Goes on to what the work on a leaf came to, where the cuts that it found are in the pool.
fn place_end(
    alloc: Global,
    manager: &mut Manager,
    worker: usize,
    working: &Working<'_>,
    job: Job,
    end: WorkEnd,
) -> Result<Stepped, AllocError>
    requires ready { IsReady working.now manager.old.search }
    requires works { (begin : PlainSearch) × ((found : FoundCuts) × (WorksBy working.now begin job (worked_with end found) × AddsCuts begin found.items manager.old.search)) }
    requires within { worker < length manager.old.held }
    ensures steps { IfOk result (λ stepped. (begin : PlainSearch) (found : FoundCuts) → WorksBy working.now begin job (worked_with end found) → AddsCuts begin found.items manager.old.search → Steps working.now job begin manager.new.search stepped) }
    ensures kept { OnErr result (manager.new ≡ manager.old) }
    ensures held { OnOk result (IsFreed worker manager.old manager.new) }
{
    match end {
        WorkEnd::Pivots(basis) => stop_by_pivots(alloc, manager, worker, working, job, basis),
        WorkEnd::Wide(at) => {
            let stepped = stop_by_step(alloc, manager, worker, working, &job, at);
            drop(job);
            stepped
        }
        WorkEnd::Done(done) => place_done(alloc, manager, worker, working, job, done),
    }
}

/// Adds the cuts that the work on a leaf found, and goes on to what it came to.
fn after_work(
    alloc: Global,
    manager: &mut Manager,
    worker: usize,
    working: &Working<'_>,
    job: Job,
    end: WorkEnd,
    found: Vec<Derivation>,
) -> Result<Stepped, AllocError>
    requires ready { IsReady working.now manager.old.search }
    requires works { WorksBy working.now manager.old.search job (worked_with end found) }
    requires within { worker < length manager.old.held }
    ensures steps { IfOk result (λ stepped. Steps working.now job manager.old.search manager.new.search stepped) }
    ensures some { OnErr result (AddsSome manager.old.search found.items manager.new.search) }
    ensures held { OnOk result (IsFreed worker manager.old manager.new) }
{
    show_manager(manager);
    let added = add_cuts(manager, &found);
    drop(found);
    match added {
        Ok(()) => place_end(alloc, manager, worker, working, job, end),
        Err(error) => {
            drop(job);
            drop(end);
            Err(error)
        }
    }
}

/// Works the leaf of the job that the worker holds, and places what comes of it.
pub(crate) fn step(
    alloc: Global,
    manager: &mut Manager,
    worker: usize,
    working: &Working<'_>,
    job: Job,
) -> Result<Stepped, AllocError>
    requires ready { IsReady working.now manager.old.search }
    requires held { IsHeldJob manager.old.search job }
    requires within { worker < length manager.old.held }
    ensures steps { IfOk result (λ stepped. Steps working.now job manager.old.search manager.new.search stepped) }
    ensures leaves { OnErr result (LeavesOf working.now.ways working.now.first.now working.now.pivots job manager.old.search manager.new.search) }
    ensures held { OnOk result (IsFreed worker manager.old manager.new) }
{
    match work_on(alloc, manager, working, &job) {
        Worked::Memory => {
            drop(job);
            Err(AllocError)
        }
        Worked::Pivots { basis, found } => {
            after_work(
                alloc,
                manager,
                worker,
                working,
                job,
                WorkEnd::Pivots(basis),
                found,
            )
        }
        Worked::Wide(at, found) => {
            after_work(
                alloc,
                manager,
                worker,
                working,
                job,
                WorkEnd::Wide(at),
                found,
            )
        }
        Worked::Done(done, found) => {
            after_work(
                alloc,
                manager,
                worker,
                working,
                job,
                WorkEnd::Done(done),
                found,
            )
        }
    }
}
