// Where the reduced costs ask the nonbasic variables to stand.
ghost use Rattle.std.specs.Prelude.{◌≡◌, ◌↔◌, ◌<◌, ℕ, suc, get_or, IsTrue};
ghost use Rattle.table_entries.specs.declared.stand.Stand.TheVariants.{Free};
ghost use Rattle.table_entries.specs.Relaxation.{reduced_cost};
ghost use Rattle.table_entries.specs.States.{LawfulAt, reduced_parts};
ghost use Rattle.basic_solution.specs.Held.{relaxation, parts, table};
ghost use Rattle.basic_solution.specs.Slack.{CanStand};
ghost use Rattle.basic_solution.specs.private.Slack.{IsRestood};

use crate::sided::SidedBasis;
use frac128::Frac;
use lp_model::Bound;
use table_entries::Stand;

/// Whether a variable with these sides can stand so: it has that side, or none.
fn can_stand(stand: Stand, low: &Bound, high: &Bound) -> bool
    ensures { IsTrue result ↔ CanStand stand low.now high.now }
{
    match stand {
        Stand::Low => low.is_some(),
        Stand::High => high.is_some(),
        Stand::Free => low.is_none() && high.is_none(),
    }
}

impl SidedBasis<'_> {
    /// The side that the parts of the tilts ask the variable of a place for: that of the first that is not 0.
    fn asked_by_tilts(&self, place: usize) -> Stand
        requires { place < self.now.tableau.columns }
        ensures { LawfulAt result (λ q. reduced_parts (relaxation self.now) (parts self.now) (table self.now) place (suc q)) }
    {
        for turn in 0..self.order.len() {
            let part = self.own_reduced(place, self.order[turn]);
            if part.is_positive() {
                return Stand::Low;
            }
            if part.is_negative() {
                return Stand::High;
            }
        }
        Stand::Free
    }

    /// The side that the perturbed reduced cost of a place asks its variable for, by its first part.
    pub(crate) fn asked(&self, place: usize, cost: &Frac) -> Stand
        requires place { place < self.now.tableau.columns }
        requires cost { cost.now ≡ reduced_cost (relaxation self.now) (table self.now) (relaxation self.now).cost place }
        ensures { LawfulAt result (reduced_parts (relaxation self.now) (parts self.now) (table self.now) place) }
    {
        if cost.is_positive() {
            Stand::Low
        } else if cost.is_negative() {
            Stand::High
        } else {
            self.asked_by_tilts(place)
        }
    }

    /// Whether the variable of a place can stand so.
    pub(crate) fn can_stand(&self, place: usize, stand: Stand) -> bool
        requires { place < self.now.tableau.columns }
        ensures { IsTrue result ↔ CanStand stand ((relaxation self.now).low ((table self.now).nonbasic place)) ((relaxation self.now).high ((table self.now).nonbasic place)) }
    {
        let variable = self.tableau.nonbasic(place);
        can_stand(stand, &self.low[variable], &self.high[variable])
    }

    /// Lets the variable of a place stand so.
    pub(crate) fn set_stand(&mut self, place: usize, stand: Stand)
        requires { place < self.old.tableau.columns }
        ensures here { get_or self.new.stands place Free ≡ stand }
        ensures others { (k : ℕ) → ¬ (k ≡ place) → get_or self.new.stands k Free ≡ get_or self.old.stands k Free }
        ensures same { IsRestood self.old self.new }
    {
        self.stands[place] = stand;
    }
}
