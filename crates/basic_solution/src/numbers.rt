// What a state gives: the numbers of its point, its multipliers, and the Farkas multipliers of a row.
ghost use Rattle.std.specs.Prelude.{◌≡◌, ◌<◌};
ghost use Rattle.table_entries.specs.States.{farkas_weights};
ghost use Rattle.basic_solution.specs.Held.{relaxation, state, variables};
ghost use Rattle.basic_solution.specs.Numbers.{IsNumberAnswer, IsMultiplierAnswer};

use crate::sided::SidedBasis;
use crate::sides::signed;
use frac128::Frac;
use lp_model::WideStep;
use row_tableau::Position;
use table_entries::Stand;

impl SidedBasis<'_> {
    /// The number of a variable at the state's point, or the first step that has no room.
    pub fn number_of(&self, variable: usize) -> Result<Frac, WideStep>
        requires { variable < variables self.now }
        ensures { IsNumberAnswer self.now variable result }
    {
        match self.tableau.find(variable) {
            Position::Row(row) => self.basic_value(row),
            Position::Place(place) => Ok(self.place_number(place)),
        }
    }

    /// The multiplier of a variable: its reduced cost, 0 for a basic one; or the first step that has no room.
    pub fn multiplier_of(&self, variable: usize) -> Result<Frac, WideStep>
        requires { variable < variables self.now }
        ensures { IsMultiplierAnswer self.now variable result }
    {
        match self.tableau.find(variable) {
            Position::Row(_) => Ok(Frac::whole(0)),
            Position::Place(place) => self.reduced_cost(place),
        }
    }

    /// The Farkas multiplier of a variable by the row of a basic variable that is outside a side: of that one 1,
    /// of each nonbasic one the negative of its entry in the row, all negated above the high side.
    pub fn farkas_of(&self, row: usize, side: Stand, variable: usize) -> Frac
        requires row { row < self.now.tableau.activities }
        requires variable { variable < variables self.now }
        ensures { result ≡ farkas_weights (relaxation self.now) (state self.now) row side variable }
    {
        match self.tableau.find(variable) {
            Position::Row(other) if other == row => signed(side, &Frac::whole(1)),
            Position::Row(_) => signed(side, &Frac::whole(0)),
            Position::Place(place) => { signed(side, &self.tableau.entry(row, place).neg()) }
        }
    }
}
