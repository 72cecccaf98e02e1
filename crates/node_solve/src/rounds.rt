// Rounds: the relaxation of a leaf with the cuts that it has, and the cuts that its optimum violates.
ghost use Rattle.std.specs.Prelude.{◌≡◌, ◌↔◌, ◌<◌, ◌+◌, ◌-◌, ◌++◌, ◌∷◌, [], length, IsTrue, IfOk};
ghost use Rattle.cover_cuts.specs.Cuts.{IsPoolOf};
ghost use Rattle.node_solve.specs.Rounds.{HasRowOf, IsAddable, AddsOne, AddsAll, AddsCovers, MayGoOn, first_round, first_in};
ghost use Rattle.node_solve.specs.private.Rounds.{IsSolvedIn, IsNextAnswer};
ghost use Rattle.node_solve.specs.private.RoundCode.{task_work, round_of, run_end, unstarted, IsKeptRound, IsTask};

use crate::cuts::{RelaxationCuts, first_cuts};
use crate::places::{CUT_LIMIT, basis_in_relaxation, with_cut_variables};
use crate::points::first_fractional;
use branch_tree::Job;
use cover_cuts::{CutPool, cut_row};
use cut_find::separate;
use dual_simplex::{Lp, LpState, StartFault};
use frac128::Frac;
use kept_cuts::copy_derivation;
use lp_model::{Basis, ColId, CutRow, Derivation, Model, Mult, POOL_LIMIT, Point, WideStep};
use row_tableau::{Relax, RelaxKind};
use std::alloc::{AllocError, Global};
use std::mem;

/// How many covers a round looks for.
const ROUND_LIMIT: usize = 20;

/// A leaf to be worked, and the limits of the work.
#[derive(Clone, Copy, Drop)]
pub(crate) struct Task<'a> {
    pub(crate) model: &'a Model,
    pub(crate) pool: &'a CutPool,
    pub(crate) job: &'a Job,
    pub(crate) first: &'a Basis,
    pub(crate) rounds: u8,
    pub(crate) pivots: u64,
}

/// The relaxation of a round: its cuts with their places in the pool, those that were added, and where its run begins.
#[derive(Drop)]
pub(crate) struct Round<'a> {
    pub(crate) cuts: RelaxationCuts<'a>,
    pub(crate) places: Vec<usize>,
    pub(crate) added: Vec<Derivation>,
    pub(crate) list: Basis,
}

/// What the relaxation of a round comes to.
#[derive(Drop)]
pub(crate) enum Solved {
    Optimal {
        point: Point,
        mult: Mult,
        basis: Basis,
    },
    Infeasible {
        farkas: Mult,
        mult: Mult,
        basis: Basis,
    },
    Pivots {
        basis: Basis,
    },
    Wide {
        step: WideStep,
        basis: Basis,
    },
    Memory,
}

impl<'a> Task<'a> {
    /// The first round: the cuts of the pool that count, and the basis that the leaf keeps.
    pub(crate) fn first_round(&self, alloc: Global) -> Result<Round<'a>, AllocError>
        requires pool { IsPoolOf self.now.model.now self.now.pool.now }
        ensures first { IfOk result (λ r. round_of r ≡ first_round (task_work self.now)) }
        ensures kept { IfOk result (IsKeptRound (task_work self.now)) }
    {
        let Ok(live) = first_cuts(alloc, self.pool) else {
            return Err(AllocError);
        };
        let Ok(list) = basis_in_relaxation(alloc, &live.places, &self.job.basis) else {
            drop(live);
            return Err(AllocError);
        };
        let added = Vec::new(alloc);
        Ok(Round {
            cuts: live.cuts,
            places: live.places,
            added,
            list,
        })
    }

    /// Solves the relaxation of a round, from this basis where the round's is not lawful.
    fn solve_from(&self, alloc: Global, round: &Round<'_>, first: &Basis) -> Solved
        requires task { IsTask self.now }
        requires kept { IsKeptRound (task_work self.now) round.now }
        requires first { first.now ≡ first_in (task_work self.now) (round_of round.now) }
        ensures { IsSolvedIn (task_work self.now) (round_of round.now) result }
    {
        let cuts = round.cuts.as_slice();
        let region = self.job.region.as_slice();
        let relax = Relax {
            model: self.model,
            cuts,
            region,
            kind: RelaxKind::Plain,
        };
        let _lawful = self.model.cols();
        let mut state = match LpState::start(alloc, &relax, &round.list, first) {
            Ok(state) => state,
            Err(fault) => return unstarted(fault),
        };
        let end = state.solve(alloc, self.pivots);
        drop(state);
        run_end(end)
    }

    /// Solves the relaxation of a round.
    pub(crate) fn solve(&self, alloc: Global, round: &Round<'_>) -> Solved
        requires task { IsTask self.now }
        requires kept { IsKeptRound (task_work self.now) round.now }
        ensures { IsSolvedIn (task_work self.now) (round_of round.now) result }
    {
        match with_cut_variables(alloc, self.first, 0, round.cuts.len()) {
            Ok(first) => {
                let solved = self.solve_from(alloc, round, &first);
                drop(first);
                solved
            }
            Err(_) => Solved::Memory,
        }
    }

    /// Whether another round may be made at an optimum.
    fn may_go_on(&self, made: u8, round: &Round<'_>, point: &Point) -> bool
        ensures { IsTrue result ↔ MayGoOn (task_work self.now) made (round_of round.now) point.now }
    {
        if made >= self.rounds {
            return false;
        }
        let count = round.cuts.len();
        if count >= CUT_LIMIT {
            return false;
        }
        first_fractional(self.model, point).is_some()
    }

    /// Whether a cut may be added: it counts, no cut of the relaxation has its row, and there is room.
    fn is_addable(&self, round: &Round<'_>, cut: &CutRow) -> bool
        ensures { IsTrue result ↔ IsAddable (task_work self.now) (round_of round.now) cut.now }
    {
        if !cut.live {
            return false;
        }
        let count = round.cuts.len();
        if count >= CUT_LIMIT {
            return false;
        }
        let place = self.pool.rows().len() + round.added.len();
        if place >= POOL_LIMIT {
            return false;
        }
        !has_row_of(round.cuts.as_slice(), cut)
    }

    /// Adds the cut of a derivation, where it may be.
    fn add_one(
        &self,
        alloc: Global,
        round: &mut Round<'_>,
        from: &Derivation,
    ) -> Result<(), AllocError>
        requires kept { IsKeptRound (task_work self.now) round.old }
        ensures adds { IfOk result (λ _. AddsOne (task_work self.now) (round_of round.old) from.now (round_of round.new)) }
        ensures kept { IfOk result (λ _. IsKeptRound (task_work self.now) round.new) }
    {
        let Ok(cut) = cut_row(alloc, self.model, from) else {
            return Err(AllocError);
        };
        if !self.is_addable(round, &cut) {
            drop(cut);
            return Ok(());
        }
        let place = self.pool.rows().len() + round.added.len();
        let Ok(()) = round.cuts.push(alloc, cut) else {
            return Err(AllocError);
        };
        let Ok(()) = note_cut(&mut round.places, &mut round.added, place, from) else {
            return Err(AllocError);
        };
        Ok(())
    }

    /// Adds the cuts of derivations, one after the other, where they may be.
    fn add_all(
        &self,
        alloc: Global,
        round: &mut Round<'_>,
        covers: &[Derivation],
    ) -> Result<(), AllocError>
        requires kept { IsKeptRound (task_work self.now) round.old }
        ensures adds { IfOk result (λ _. AddsAll (task_work self.now) (round_of round.old) covers.now (round_of round.new)) }
        ensures kept { IfOk result (λ _. IsKeptRound (task_work self.now) round.new) }
    {
        for cover in covers {
            let Ok(()) = self.add_one(alloc, round, cover) else {
                return Err(AllocError);
            };
        }
        Ok(())
    }

    /// Adds cuts that the point violates.
    fn separate(
        &self,
        alloc: Global,
        round: &mut Round<'_>,
        point: &Point,
    ) -> Result<(), AllocError>
        requires shape { length point.now ≡ length self.now.model.now.cols }
        requires kept { IsKeptRound (task_work self.now) round.old }
        ensures separates { IfOk result (λ _. AddsCovers (task_work self.now) (round_of round.old) point.now (round_of round.new)) }
        ensures kept { IfOk result (λ _. IsKeptRound (task_work self.now) round.new) }
    {
        let Ok(covers) = separate(alloc, self.model, point, ROUND_LIMIT) else {
            return Err(AllocError);
        };
        let Ok(()) = self.add_all(alloc, round, covers.as_slice()) else {
            drop(covers);
            return Err(AllocError);
        };
        drop(covers);
        Ok(())
    }

    /// Makes the next round at an optimum with this basis, if one may be made there and a cut is new. Else nothing changes.
    pub(crate) fn next_round(
        &self,
        alloc: Global,
        made: u8,
        round: &mut Round<'_>,
        point: &Point,
        basis: &Basis,
    ) -> Result<bool, AllocError>
        requires shape { length point.now ≡ length self.now.model.now.cols }
        requires kept { IsKeptRound (task_work self.now) round.old }
        ensures goes_on { IfOk result (λ more. IsNextAnswer (task_work self.now) made (round_of round.old) point.now basis.now more (round_of round.new)) }
        ensures kept { IfOk result (λ _. IsKeptRound (task_work self.now) round.new) }
    {
        if !self.may_go_on(made, round, point) {
            return Ok(false);
        }
        let before = round.cuts.len();
        let Ok(()) = self.separate(alloc, round, point) else {
            return Err(AllocError);
        };
        let count = round.cuts.len() - before;
        if count == 0 {
            return Ok(false);
        }
        let Ok(list) = with_cut_variables(alloc, basis, before, count) else {
            return Err(AllocError);
        };
        drop(mem::replace(&mut round.list, list));
        Ok(true)
    }
}

/// Notes a cut that is added: its place in the pool, and its derivation.
fn note_cut(
    places: &mut Vec<usize>,
    added: &mut Vec<Derivation>,
    place: usize,
    from: &Derivation,
) -> Result<(), AllocError>
    ensures places { IfOk result (λ _. places.new.items ≡ places.old.items ++ place ∷ []) }
    ensures added { IfOk result (λ _. added.new.items ≡ added.old.items ++ from.now ∷ []) }
{
    let Ok(noted) = copy_derivation(from) else {
        return Err(AllocError);
    };
    match added.push(noted) {
        Ok(()) => {}
        Err(error) => return Err(error.into()),
    }
    let Ok(()) = places.push(place) else {
        return Err(AllocError);
    };
    Ok(())
}

/// The cuts that a round added. The rest of the round is let go.
pub(crate) fn added_of(round: Round<'_>) -> Vec<Derivation>
    ensures { result.items ≡ round.entry.added.items }
{
    round.added
}

/// What a round comes to where its run ends so.
fn run_end(end: Result<Lp, AllocError>) -> Solved
    ensures { result ≡ run_end end }
{
    match end {
        Err(_) => Solved::Memory,
        Ok(Lp::Pivots { basis }) => Solved::Pivots { basis },
        Ok(Lp::Wide { step, basis }) => Solved::Wide { step, basis },
        Ok(Lp::Optimal { point, mult, basis }) => Solved::Optimal { point, mult, basis },
        Ok(
            Lp::Infeasible {
                farkas,
                mult,
                basis,
            },
        ) => Solved::Infeasible {
            farkas,
            mult,
            basis,
        },
    }
}

/// What a round comes to where its run cannot start.
fn unstarted(fault: StartFault) -> Solved
    ensures { result ≡ unstarted fault }
{
    match fault {
        StartFault::Wide { step, basis } => Solved::Wide { step, basis },
        StartFault::Memory => Solved::Memory,
    }
}

/// Whether two numbers are equal.
#[tactic(auto, using(frac128::proofs::Comparison::comparisons))]
fn is_equal(first: &Frac, second: &Frac) -> bool
    ensures { IsTrue result ↔ (first.now ≡ second.now) }
{
    *first == *second
}

/// Whether two terms are of one column, with one number.
fn is_same_term(first: &(ColId, Frac), second: &(ColId, Frac)) -> bool
    ensures { IsTrue result ↔ (first.now ≡ second.now) }
{
    if first.0.0 != second.0.0 {
        return false;
    }
    is_equal(&first.1, &second.1)
}

/// Whether two lists of terms are equal.
fn are_same_terms(first: &[(ColId, Frac)], second: &[(ColId, Frac)]) -> bool
    ensures { IsTrue result ↔ (first.now ≡ second.now) }
{
    let count = first.len();
    let other = second.len();
    if count != other {
        return false;
    }
    for index in 0..count {
        if !is_same_term(&first[index], &second[index]) {
            return false;
        }
    }
    true
}

/// Whether the two cuts have one row.
fn is_same_row(first: &CutRow, second: &CutRow) -> bool
    ensures { IsTrue result ↔ (first.now.terms ≡ second.now.terms) × (first.now.hi ≡ second.now.hi) }
{
    if !is_equal(&first.hi, &second.hi) {
        return false;
    }
    are_same_terms(first.terms.as_slice(), second.terms.as_slice())
}

/// Whether a cut of the list has the row of this one.
fn has_row_of(cuts: &[CutRow], cut: &CutRow) -> bool
    ensures { IsTrue result ↔ HasRowOf cuts.now cut.now }
{
    for index in 0..cuts.len() {
        if is_same_row(&cuts[index], cut) {
            return true;
        }
    }
    false
}
