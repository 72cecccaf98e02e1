// Which basic variable is outside a side.
ghost use Rattle.std.specs.Prelude.{◌<◌};
ghost use Rattle.basic_solution.specs.Numbers.{IsRowBreach};

use crate::sided::SidedBasis;
use crate::sides::breach;
use crate::total_sides::total_breach;
use lp_model::WideStep;
use table_entries::Stand;

impl SidedBasis<'_> {
    /// The side that the basic variable of a row is outside of, if any.
    pub fn row_breach(&self, row: usize) -> Result<Option<Stand>, WideStep>
        requires { row < self.now.tableau.activities }
        ensures { IsRowBreach self.now row result }
    {
        let variable = self.tableau.basic(row);
        let low = &self.low[variable];
        let high = &self.high[variable];
        let denominator = self.tableau.denominator();
        if let Some(total) = self.row_total(row, denominator) {
            return Ok(total_breach(low, high, total, denominator));
        }
        match self.basic_value(row) {
            Err(step) => Err(step),
            Ok(value) => Ok(breach(low, high, &value)),
        }
    }
}
