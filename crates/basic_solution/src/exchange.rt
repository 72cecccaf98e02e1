// Exchanges.
ghost use Rattle.std.specs.Prelude.{◌≡◌, ◌≢◌, ◌<◌, pos, OnOk, OnErr, IfErr};
ghost use Rattle.frac128.specs.Rational.{int};
ghost use Rattle.table_entries.specs.Steps.{ExchangeFits};
ghost use Rattle.row_tableau.specs.Answers.{IsWidePivot};
ghost use Rattle.basic_solution.specs.Held.{table};
ghost use Rattle.basic_solution.specs.Exchanges.{IsMove};

use crate::sided::SidedBasis;
use lp_model::WideStep;
use table_entries::Stand;

impl SidedBasis<'_> {
    /// Exchanges the basic variable of a row, which then stands at that side, with the variable of a place.
    pub fn exchange(&mut self, row: usize, side: Stand, place: usize) -> Result<(), WideStep>
        requires row { row < self.old.tableau.activities }
        requires place { place < self.old.tableau.columns }
        requires some { (table self.old).entry row place ≢ int (pos 0) }
        ensures moved { OnOk result (IsMove self.old self.new row side place) }
        ensures fits { OnOk result (ExchangeFits self.old.tableau.columns self.old.tableau.activities (table self.old) row place) }
        ensures wide { IfErr result (IsWidePivot self.old.tableau row place) }
        ensures kept { OnErr result (self.new ≡ self.old) }
    {
        match self.tableau.exchange_named(row, place) {
            Ok(()) => {
                self.stands[place] = side;
                Ok(())
            }
            Err(step) => Err(step),
        }
    }
}
