// States at a list of basic variables.
ghost use Rattle.std.specs.Prelude.{◌≡◌, ◌⊎◌, ◌↔◌, ◌<◌, ℕ, false, IsTrue, Ok};
ghost use Rattle.row_tableau.specs.Variables.{numbers};
ghost use Rattle.basic_solution.specs.Held.{relaxation, table};
ghost use Rattle.basic_solution.specs.private.Slack.{IsRestood};
ghost use Rattle.basic_solution.specs.ListedStates.{IsStandBy, StandBy, Keeps, StandsNowhere, StandsAsListed, IsLawfulAnswer, IsStoodAt, LeadsOn};
ghost use Rattle.basic_solution.specs.private.ListedStates.{IsBroughtTo, IsPlaceAnswer};

use crate::sided::SidedBasis;
use lp_model::{Basis, Var, WideStep};
use table_entries::Stand;

/// Whether two stands are the same.
fn is_same(first: Stand, second: Stand) -> bool
    ensures { IsTrue result ↔ first ≡ second }
{
    match (first, second) {
        (Stand::Low, Stand::Low) => true,
        (Stand::High, Stand::High) => true,
        (Stand::Free, Stand::Free) => true,
        _ => false,
    }
}

impl SidedBasis<'_> {
    /// Where the variable of a place stands by a list of those that stand high.
    fn named_stand(&self, high: &[Var], place: usize) -> Stand
        requires { place < self.now.tableau.columns }
        ensures { IsStandBy (relaxation self.now) (numbers self.now.tableau high.now) ((table self.now).nonbasic place) result }
    {
        if self.tableau.lists(high, self.tableau.nonbasic(place)) {
            Stand::High
        } else if self.can_stand(place, Stand::Free) {
            Stand::Free
        } else {
            Stand::Low
        }
    }

    /// Lets each variable stand as the list of those that stand high says.
    fn stand_by(&mut self, high: &[Var])
        ensures same { IsRestood self.old self.new }
        ensures stands { (k : ℕ) → k < self.new.tableau.columns → StandBy (numbers self.new.tableau high.now) self.new k }
    {
        for place in 0..self.columns() {
            let stand = self.named_stand(high, place);
            self.set_stand(place, stand);
        }
    }

    /// Lets no variable stand at a side.
    fn stand_nowhere(&mut self)
        ensures same { IsRestood self.old self.new }
        ensures nowhere { StandsNowhere self.new }
    {
        for place in 0..self.columns() {
            self.set_stand(place, Stand::Free);
        }
    }

    /// Brings a list in by exchanges. True: its variables are basic. False: the list is no basis.
    fn bring_in(&mut self, list: &Basis) -> Result<bool, WideStep>
        ensures kept { Keeps self.old self.new }
        ensures stands { self.new.stands ≡ self.old.stands }
        ensures way { LeadsOn list.now self.old self.new }
        ensures answer { IsBroughtTo self.old list.now result self.new }
    {
        match self.tableau.bring_in(list) {
            Ok(brought) => Ok(brought),
            Err(step) => Err(step),
        }
    }

    /// Whether the variable of a place stands where its reduced cost asks it to.
    fn is_placed(&self, place: usize) -> Result<bool, WideStep>
        requires { place < self.now.tableau.columns }
        ensures { IsPlaceAnswer self.now place result }
    {
        let cost = match self.reduced_cost(place) {
            Ok(cost) => cost,
            Err(step) => return Err(step),
        };
        let stand = self.stand_of(place);
        if is_same(self.asked(place, &cost), stand) {
            Ok(self.can_stand(place, stand))
        } else {
            Ok(false)
        }
    }

    /// Whether each variable stands where its reduced cost asks it to.
    fn is_lawful(&self) -> Result<bool, WideStep>
        ensures { IsLawfulAnswer self.now result }
    {
        for place in 0..self.columns() {
            match self.is_placed(place) {
                Err(step) => return Err(step),
                Ok(false) => return Ok(false),
                Ok(true) => {}
            }
        }
        Ok(true)
    }

    /// Stands at a list. True: the state there is lawful. False: the list is no basis, or the state there is not lawful.
    pub fn stand_at(&mut self, list: &Basis) -> Result<bool, WideStep>
        ensures kept { Keeps self.old self.new }
        ensures way { LeadsOn list.now self.old self.new }
        ensures answer { IsStoodAt self.old list.now result self.new }
        ensures stands { result ≡ Ok false → StandsNowhere self.new ⊎ StandsAsListed list.now self.new }
    {
        self.stand_nowhere();
        match self.bring_in(list) {
            Err(step) => return Err(step),
            Ok(false) => return Ok(false),
            Ok(true) => {}
        }
        self.stand_by(list.high.as_slice());
        self.is_lawful()
    }
}
