// Variables of a state.
ghost use Rattle.std.specs.Prelude.{◌≡◌, ◌↔◌, ◌<◌, IsTrue};
ghost use Rattle.basic_solution.specs.Held.{variables};
ghost use Rattle.basic_solution.specs.Lists.{StandsHigh};

use crate::state::LpState;
use lp_model::Var;

impl LpState<'_> {
    ghost use Rattle.row_tableau.specs.Variables.{variable_number};

    /// The variable of a number.
    pub fn variable(&self, index: usize) -> Var
        requires { index < variables self.now }
        ensures { variable_number self.now.tableau result ≡ index }
    {
        self.basis.variable(index)
    }

    /// Whether a variable is not basic and stands at its high side.
    pub fn stands_high(&self, variable: usize) -> bool
        requires { variable < variables self.now }
        ensures { IsTrue result ↔ StandsHigh self.now variable }
    {
        self.basis.stands_high(variable)
    }
}
