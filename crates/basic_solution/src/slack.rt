// The slack state.
ghost use Rattle.std.specs.Prelude.{◌≡◌, ◌<◌, ℕ, get_or, false, IsTrue, IfOk, IsSome};
ghost use Rattle.lp_model.specs.Regions.{AreNarrow};
ghost use Rattle.table_entries.specs.declared.stand.Stand.TheVariants.{Free};
ghost use Rattle.table_entries.specs.Relaxation.{reduced_cost};
ghost use Rattle.row_tableau.specs.declared.relax.RelaxKind.TheVariants.{Directions};
ghost use Rattle.row_tableau.specs.Relaxations.{HasFewCuts};
ghost use Rattle.basic_solution.specs.Held.{relaxation, table};
ghost use Rattle.row_tableau.specs.Tilts.{KeepsFree};
ghost use Rattle.basic_solution.specs.ListedStates.{StandsNowhere};
ghost use Rattle.basic_solution.specs.Slack.{IsSlackState, IsSlackAnswer, IsPlaced};
ghost use Rattle.basic_solution.specs.private.Slack.{IsMisplaced, IsStandAnswer, IsRestood};

use crate::priced::Costs;
use crate::sided::SidedBasis;
use row_tableau::sides_of::{costs, highs, lows};
use row_tableau::tilts::{order, tilts};
use row_tableau::{Relax, Tableau};
use std::alloc::{AllocError, Global};
use table_entries::Stand;

impl<'a> SidedBasis<'a> {
    /// The slack basis of a relaxation, with no variable at a side. Rows of cuts may not be written.
    fn slack_start(alloc: Global, relax: &Relax<'a>) -> Result<SidedBasis<'a>, AllocError>
        requires narrow { AreNarrow relax.now.region.now }
        requires few { HasFewCuts relax.now }
        requires sides { KeepsFree relax.now.model.now relax.now.region.now }
        ensures state { IfOk result (IsSlackState relax.now) }
        ensures nowhere { IfOk result StandsNowhere }
    {
        let low = match lows(alloc, relax) {
            Ok(low) => low,
            Err(error) => return Err(error),
        };
        let high = match highs(alloc, relax) {
            Ok(high) => high,
            Err(error) => return Err(error),
        };
        let cost = match costs(alloc, relax) {
            Ok(cost) => cost,
            Err(error) => return Err(error),
        };
        let priced = Costs::new(cost);
        let tilt = match tilts(alloc, relax) {
            Ok(tilt) => tilt,
            Err(error) => return Err(error),
        };
        let order = match order(alloc, relax) {
            Ok(order) => order,
            Err(error) => return Err(error),
        };
        let stands = match vec![in alloc; Stand::Free; relax.model.cols().len()] {
            Ok(stands) => stands,
            Err(error) => return Err(error),
        };
        let tableau = match Tableau::slack_start(alloc, relax) {
            Ok(tableau) => tableau,
            Err(error) => return Err(error),
        };
        Ok(SidedBasis {
            model: relax.model,
            cuts: relax.cuts,
            low,
            high,
            cost: priced,
            tilt,
            order,
            tableau,
            stands,
        })
    }

    /// The slack basis of a relaxation, with no variable at a side.
    pub fn slack(alloc: Global, relax: &Relax<'a>) -> Result<SidedBasis<'a>, AllocError>
        requires narrow { AreNarrow relax.now.region.now }
        requires few { HasFewCuts relax.now }
        requires sides { KeepsFree relax.now.model.now relax.now.region.now }
        ensures state { IfOk result (IsSlackState relax.now) }
        ensures nowhere { IfOk result StandsNowhere }
    {
        match SidedBasis::slack_start(alloc, relax) {
            Ok(mut basis) => {
                basis.write_for_costs();
                Ok(basis)
            }
            Err(error) => Err(error),
        }
    }

    /// Where the variable of a place stands by its cost, which is its reduced cost, if it can.
    fn stand_by_cost(&self, place: usize) -> Option<Stand>
        requires place { place < self.now.tableau.columns }
        requires cost { (relaxation self.now).cost ((table self.now).nonbasic place) ≡ reduced_cost (relaxation self.now) (table self.now) (relaxation self.now).cost place }
        ensures { IsStandAnswer self.now place result }
    {
        let cost = self.cost_of(self.nonbasic(place));
        let stand = self.asked(place, &cost);
        if self.can_stand(place, stand) {
            Some(stand)
        } else {
            None
        }
    }

    /// Lets each variable stand where its cost, which is its reduced cost, asks it to. False: one cannot.
    fn stand_by_costs(&mut self) -> bool
        requires { (k : ℕ) → k < self.old.tableau.columns → (relaxation self.old).cost ((table self.old).nonbasic k) ≡ reduced_cost (relaxation self.old) (table self.old) (relaxation self.old).cost k }
        ensures same { IsRestood self.old self.new }
        ensures placed { IsTrue result → (k : ℕ) → k < self.new.tableau.columns → IsPlaced self.new k (get_or self.new.stands k Free) }
        ensures misplaced { result ≡ false → (k : ℕ) × ((k < self.old.tableau.columns) × IsMisplaced self.old k) }
    {
        for place in 0..self.columns() {
            match self.stand_by_cost(place) {
                Some(stand) => self.set_stand(place, stand),
                None => return false,
            }
        }
        true
    }

    /// The slack basis with each column where the first part of its perturbed cost that is not 0 asks it to stand. None where
    /// some column has no such side, which is never so in the directions.
    pub fn slack_state(
        alloc: Global,
        relax: &Relax<'a>,
    ) -> Result<Option<SidedBasis<'a>>, AllocError>
        requires narrow { AreNarrow relax.now.region.now }
        requires few { HasFewCuts relax.now }
        requires sides { KeepsFree relax.now.model.now relax.now.region.now }
        ensures answer { IfOk result (IsSlackAnswer relax.now) }
        ensures directions { IfOk result (λ basis. relax.now.kind ≡ Directions → IsSome basis) }
    {
        let mut basis = match SidedBasis::slack(alloc, relax) {
            Ok(basis) => basis,
            Err(error) => return Err(error),
        };
        let _sided = basis.columns();
        if !basis.stand_by_costs() {
            drop(basis);
            return Ok(None);
        }
        let _kept = basis.columns();
        Ok(Some(basis))
    }
}
