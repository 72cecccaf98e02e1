// Values by the variables that stand at other numbers than 0 where these are listed, and else by all places.
ghost use Rattle.std.specs.Prelude.{◌<◌, ◌<ℤ◌, pos, IfSome};
ghost use Rattle.table_entries.specs.WholeSteps.{IsShort};
ghost use Rattle.basic_solution.specs.Held.{variables};
ghost use Rattle.basic_solution.specs.Numbers.{IsNumberAnswer};
ghost use Rattle.basic_solution.specs.Standing.{AreStanding};
ghost use Rattle.basic_solution.specs.private.Numbers.{IsBasicValueAnswer};
ghost use Rattle.basic_solution.specs.private.RowTotals.{IsRowTotal};

use crate::sided::SidedBasis;
use frac128::Frac;
use lp_model::WideStep;
use row_tableau::Position;
use whole_sums::quotient;

/// Where more variables stand at other numbers than 0, values go by all places.
pub const MOST_STANDING: usize = 512;

impl SidedBasis<'_> {
    /// The value of the basic variable of a row times the denominator, by the variables that stand at other numbers than 0 where
    /// they are listed. None says nothing of the value.
    pub(crate) fn listed_total(
        &self,
        row: usize,
        denominator: i64,
        places: &[usize],
        numbers: &[i64],
        count: Option<usize>,
    ) -> Option<i128>
        requires row { row < self.now.tableau.activities }
        requires positive { pos 0 <ℤ denominator }
        requires denominator { IsShort denominator }
        requires standing { IfSome count (λ n. AreStanding self.now places.now numbers.now n) }
        ensures { IfSome result (λ total. IsRowTotal self.now row denominator total) }
    {
        match count {
            Some(count) => self.standing_total(row, denominator, places, numbers, count),
            None => self.row_total(row, denominator),
        }
    }

    /// The value of the basic variable of a row, by the list of the variables that stand at other numbers than 0.
    fn counted_value(
        &self,
        row: usize,
        places: &[usize],
        numbers: &[i64],
        count: usize,
    ) -> Result<Frac, WideStep>
        requires row { row < self.now.tableau.activities }
        requires standing { AreStanding self.now places.now numbers.now count }
        ensures { IsBasicValueAnswer self.now row result }
    {
        let denominator = self.tableau.denominator();
        if let Some(total) = self.standing_total(row, denominator, places, numbers, count) {
            return Ok(quotient(total, denominator));
        }
        self.standing_value(row, places, count)
    }

    /// The value of the basic variable of a row, by the variables that stand at other numbers than 0 where they are listed.
    fn listed_value(
        &self,
        row: usize,
        places: &[usize],
        numbers: &[i64],
        count: Option<usize>,
    ) -> Result<Frac, WideStep>
        requires row { row < self.now.tableau.activities }
        requires standing { IfSome count (λ n. AreStanding self.now places.now numbers.now n) }
        ensures { IsBasicValueAnswer self.now row result }
    {
        match count {
            Some(count) => self.counted_value(row, places, numbers, count),
            None => self.basic_value(row),
        }
    }

    /// The number of a variable at the state's point, or the first step that has no room, by the variables that stand at other
    /// numbers than 0 where they are listed.
    pub(crate) fn listed_number(
        &self,
        variable: usize,
        places: &[usize],
        numbers: &[i64],
        count: Option<usize>,
    ) -> Result<Frac, WideStep>
        requires variable { variable < variables self.now }
        requires standing { IfSome count (λ n. AreStanding self.now places.now numbers.now n) }
        ensures { IsNumberAnswer self.now variable result }
    {
        match self.tableau.find(variable) {
            Position::Row(row) => self.listed_value(row, places, numbers, count),
            Position::Place(place) => Ok(self.place_number(place)),
        }
    }
}
