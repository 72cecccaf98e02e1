// The rows whose basic variable has a cost: few, where most have none. Reduced costs are sums over them alone.
ghost use Rattle.std.specs.Prelude.{◌<◌, ◌<ℤ◌, pos, IfSome};
ghost use Rattle.table_entries.specs.WholeSteps.{IsShort};
ghost use Rattle.basic_solution.specs.RowTotals.{IsCostTotal};
ghost use Rattle.basic_solution.specs.Priced.{ArePriced};
ghost use Rattle.basic_solution.specs.KeptCosts.{AreKeptCosts};

use crate::row_totals::with_product;
use crate::sided::SidedBasis;
use table_entries::flat_index;
use whole_sums::product;

/// By what reduced costs are had: those that are kept, with their denominator, and the rows whose basic variable has a cost, beside them
/// these costs, and how many there are, where that is known (`SidedBasis::write_priced`).
#[derive(Clone, Copy, Drop)]
pub struct CostSource<'a> {
    pub rows: &'a [usize],
    pub numbers: &'a [i64],
    pub count: Option<usize>,
    pub kept: &'a [i64],
    pub kept_over: i64,
}

impl SidedBasis<'_> {
    /// Writes the rows whose basic variable has a cost, beside them these costs, and answers how many there are. None where a list is
    /// too short, a cost is no small whole number, or one is that of an activity; then the lists are of no meaning.
    pub fn write_priced(&self, rows: &mut [usize], numbers: &mut [i64]) -> Option<usize>
        ensures { IfSome result (λ n. ArePriced self.now rows.new numbers.new n) }
    {
        let columns = self.tableau.columns();
        let mut count = 0;
        for row in 0..self.tableau.activities() {
            let variable = self.tableau.basic(row);
            let Some(number) = self.cost.small_of(variable) else {
                return None;
            };
            if number != 0 {
                if columns <= variable {
                    return None;
                }
                if rows.len() <= count {
                    return None;
                }
                if numbers.len() <= count {
                    return None;
                }
                rows[count] = row;
                numbers[count] = number;
                count += 1;
            }
        }
        Some(count)
    }

    /// The reduced cost of a place times the denominator, by the rows whose basic variable has a cost, where the entries are numbers
    /// over that: then each sum of its terms has room, in any order. None says nothing of the reduced cost.
    pub(crate) fn priced_total(
        &self,
        place: usize,
        denominator: i64,
        rows: &[usize],
        numbers: &[i64],
        count: usize,
    ) -> Option<i128>
        requires place { place < self.now.tableau.columns }
        requires positive { pos 0 <ℤ denominator }
        requires denominator { IsShort denominator }
        requires priced { ArePriced self.now rows.now numbers.now count }
        ensures { IfSome result (λ total. IsCostTotal self.now place denominator total) }
    {
        let Some(start) = self.cost.small_of(self.tableau.nonbasic(place)) else {
            return None;
        };
        let Some(entries) = self.tableau.numbers_over(denominator) else {
            return None;
        };
        let columns = self.tableau.columns();
        let activities = self.tableau.activities();
        let mut total = product(start, denominator);
        for turn in 0..count {
            let at = flat_index(activities, columns, rows[turn], place);
            total = with_product(total, entries[at], numbers[turn]);
        }
        Some(total)
    }

    /// The reduced cost of a place times the denominator: where the rows whose basic variable has a cost are listed, as it is kept, or by
    /// these rows; where they are not, as `cost_total`, and what is kept isn't read.
    pub fn cost_total_by(
        &self,
        place: usize,
        denominator: i64,
        source: &CostSource<'_>,
    ) -> Option<i128>
        requires place { place < self.now.tableau.columns }
        requires positive { pos 0 <ℤ denominator }
        requires denominator { IsShort denominator }
        requires priced { IfSome source.now.count (λ n. ArePriced self.now source.now.rows.now source.now.numbers.now n) }
        requires kept { AreKeptCosts self.now source.now.kept_over source.now.kept.now }
        ensures { IfSome result (λ total. IsCostTotal self.now place denominator total) }
    {
        let Some(count) = source.count else {
            return self.cost_total(place, denominator);
        };
        match self.kept_total(place, denominator, source, count) {
            Some(total) => Some(total),
            None => self.priced_total(place, denominator, source.rows, source.numbers, count),
        }
    }
}
