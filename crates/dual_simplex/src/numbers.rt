// What a state gives: the numbers of its point, its multipliers, and the Farkas multipliers of a row.
ghost use Rattle.std.specs.Prelude.{◌≡◌, ◌<◌};
ghost use Rattle.table_entries.specs.States.{farkas_weights};
ghost use Rattle.basic_solution.specs.Held.{relaxation, state, variables};
ghost use Rattle.basic_solution.specs.Numbers.{IsNumberAnswer, IsMultiplierAnswer};

use crate::leaving::Leaving;
use crate::state::LpState;
use frac128::Frac;
use lp_model::WideStep;

impl LpState<'_> {
    /// How many variables there are.
    pub fn variables(&self) -> usize
        ensures { result ≡ variables self.now }
    {
        self.basis.variables()
    }

    /// The number of a variable at the state's point, or the first step that has no room.
    pub fn number_of(&self, variable: usize) -> Result<Frac, WideStep>
        requires { variable < variables self.now }
        ensures { IsNumberAnswer self.now variable result }
    {
        self.basis.number_of(variable)
    }

    /// The multiplier of a variable: its reduced cost, 0 for a basic one; or the first step that has no room.
    pub fn multiplier_of(&self, variable: usize) -> Result<Frac, WideStep>
        requires { variable < variables self.now }
        ensures { IsMultiplierAnswer self.now variable result }
    {
        self.basis.multiplier_of(variable)
    }

    /// The Farkas multiplier of a variable where a basic variable is outside a side and none may enter for it: of the
    /// leaving one 1, of each nonbasic one the negative of its entry in the row, all negated above the high side.
    pub fn farkas_of(&self, leaving: &Leaving, variable: usize) -> Frac
        requires row { leaving.now.row < self.now.tableau.activities }
        requires variable { variable < variables self.now }
        ensures { result ≡ farkas_weights (relaxation self.now) (state self.now) leaving.now.row leaving.now.side variable }
    {
        self.basis.farkas_of(leaving.row, leaving.side, variable)
    }
}
