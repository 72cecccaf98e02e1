// Reduced costs part by part.
ghost use Rattle.std.specs.Prelude.{◌≡◌, ◌<◌, ◌+◌, length};
ghost use Rattle.table_entries.specs.Relaxation.{reduced_cost};
ghost use Rattle.basic_solution.specs.Held.{relaxation, table, variables, own_cost};

use crate::sided::SidedBasis;
use crate::sides::signed;
use frac128::Frac;
use lp_model::WideStep;
use row_tableau::Position;

impl SidedBasis<'_> {
    ghost use Rattle.basic_solution.specs.Numbers.{IsPartAnswer};

    /// The reduced cost of a place where one variable alone has a cost, the sign of its tilt.
    pub(crate) fn own_reduced(&self, place: usize, variable: usize) -> Frac
        requires place { place < self.now.tableau.columns }
        requires variable { variable < variables self.now }
        ensures { result ≡ reduced_cost (relaxation self.now) (table self.now) (own_cost self.now variable) place }
    {
        let tilt = self.tilt[variable];
        match self.tableau.find(variable) {
            Position::Row(row) => signed(tilt, &self.tableau.entry(row, place)),
            Position::Place(other) if other == place => signed(tilt, &Frac::whole(1)),
            Position::Place(_) => Frac::whole(0),
        }
    }

    /// How many parts there are: the costs, and one for each variable with a tilt.
    pub fn parts(&self) -> usize
        ensures { result ≡ length self.now.order + 1 }
    {
        self.order.len() + 1
    }

    /// A part of the reduced cost of a place, or the first of its terms, in the order of the variables, that has no room.
    pub fn reduced_part(&self, place: usize, part: usize) -> Result<Frac, WideStep>
        requires place { place < self.now.tableau.columns }
        requires part { part < length self.now.order + 1 }
        ensures { IsPartAnswer self.now place part result }
    {
        if part == 0 {
            self.reduced_cost(place)
        } else {
            Ok(self.own_reduced(place, self.order[part - 1]))
        }
    }
}
