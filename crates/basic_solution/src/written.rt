// Rows that are written before their entries are asked for place by place.
ghost use Rattle.std.specs.Prelude.{◌≡◌, ◌<◌};

use crate::sided::SidedBasis;

impl SidedBasis<'_> {
    /// Writes a row, if it is not written: to be called before its entries are asked for place by place.
    pub fn write_row(&mut self, row: usize)
        requires { row < self.old.tableau.activities }
        ensures { self.new ≡ self.old }
    {
        self.tableau.write_row(row);
    }

    /// Writes all rows where a variable that is not basic stands at no small whole number: values of cuts are then sums over
    /// the entries of their rows (`write_totals`).
    pub fn write_for_values(&mut self)
        ensures { self.new ≡ self.old }
    {
        if self.are_numbers_small() {
            return;
        }
        self.tableau.write_rows();
    }

    /// Writes all rows where a cost is no small whole number: reduced costs are then sums over the entries of all rows
    /// (`cost_total`).
    pub(crate) fn write_for_costs(&mut self)
        ensures { self.new ≡ self.old }
    {
        if self.cost.are_small() {
            return;
        }
        self.tableau.write_rows();
    }
}
