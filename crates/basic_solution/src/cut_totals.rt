// The values of basic cuts times the denominator of the table, by their terms: one product a literal, where the row has one a
// column. With many cuts most values of a state are theirs.
ghost use Rattle.std.specs.Prelude.{◌≡◌, ◌<◌, ◌≤◌, ◌^◌, ◌<ℤ◌, ℕ, pos, length, IsTrue, IfSome};
ghost use Rattle.table_entries.specs.WholeSteps.{IsShort, whole_number_at};
ghost use Rattle.basic_solution.specs.Numbers.{IsRowBreach};
ghost use Rattle.basic_solution.specs.CutTotals.{IsColumnTotal, AreColumnTotals};
ghost use Rattle.basic_solution.specs.Standing.{AreStanding};
ghost use Rattle.basic_solution.specs.private.CutTotals.{StandsSmall, IsTermsTotal, IsCutTotal};

use crate::listed_values::MOST_STANDING;
use crate::row_totals::{small_number, with_product};
use crate::sided::SidedBasis;
use crate::total_sides::total_breach;
use frac128::Frac;
use lp_model::{ColId, WideStep};
use row_tableau::Position;
use table_entries::Stand;
use whole_sums::{product, short_number};

/// The column of a term.
#[inline]
fn column_of(term: &(ColId, Frac)) -> usize
    ensures { result ≡ term.now.0.0 }
{
    term.0.0 as usize
}

/// The sum of the terms of a cut with these numbers of the columns, where it names columns in model order and its numbers are
/// small. From the last term up, so that what is left for the terms before it is known.
fn terms_total(columns: usize, terms: &[(ColId, Frac)], totals: &[i64]) -> Option<i128>
    requires few { columns < 2 ^ 32 }
    requires size { columns ≤ length totals.now }
    requires short { (j : ℕ) → j < columns → IsShort (whole_number_at totals.now j) }
    ensures { IfSome result (λ total. IsTermsTotal columns terms.now totals.now total) }
{
    let mut total: i128 = 0;
    let mut end = columns;
    let mut left = terms.len();
    while left > 0 {
        left -= 1;
        let term = terms[left];
        let column = column_of(&term);
        if end <= column {
            return None;
        }
        let Some(number) = small_number(&term.1) else {
            return None;
        };
        total = with_product(total, totals[column], number);
        end = column;
    }
    Some(total)
}

impl SidedBasis<'_> {
    /// Whether the variable of each place stands at a small whole number.
    pub(crate) fn are_numbers_small(&self) -> bool
        ensures { IsTrue result → (k : ℕ) → k < self.now.tableau.columns → StandsSmall self.now k }
    {
        for place in 0..self.columns() {
            match small_number(&self.place_number(place)) {
                Some(_number) => {}
                None => return false,
            }
        }
        true
    }

    /// The number of a column at the state's point times the denominator, if it is short and its terms are small, by the variables
    /// that stand at other numbers than 0 where they are listed.
    fn column_total(
        &self,
        column: usize,
        denominator: i64,
        places: &[usize],
        numbers: &[i64],
        count: Option<usize>,
    ) -> Option<i64>
        requires column { column < self.now.tableau.columns }
        requires positive { pos 0 <ℤ denominator }
        requires denominator { IsShort denominator }
        requires standing { IfSome count (λ n. AreStanding self.now places.now numbers.now n) }
        ensures { IfSome result (λ n. IsColumnTotal self.now column denominator n) }
    {
        match self.tableau.find(column) {
            Position::Row(row) => {
                let Some(total) = self.listed_total(row, denominator, places, numbers, count) else {
                    return None;
                };
                short_number(total)
            }
            Position::Place(place) => {
                let Some(number) = small_number(&self.place_number(place)) else {
                    return None;
                };
                short_number(product(number, denominator))
            }
        }
    }

    /// Writes the numbers of all columns times the denominator of the table, which it answers. None where the table has no such
    /// denominator, a number is not short or not small, or the list is too short; then the list is of no meaning.
    pub fn write_totals(&self, totals: &mut [i64]) -> Option<i64>
        ensures { IfSome result (λ d. AreColumnTotals self.now d totals.new) }
    {
        let columns = self.tableau.columns();
        if totals.len() < columns {
            return None;
        }
        if !self.are_numbers_small() {
            return None;
        }
        let Some(denominator) = self.tableau.whole_denominator() else {
            return None;
        };
        let mut places = [0_usize; MOST_STANDING];
        let mut numbers = [0_i64; MOST_STANDING];
        let count = self.write_standing(&mut places, &mut numbers);
        for column in 0..columns {
            match self.column_total(column, denominator, &places, &numbers, count) {
                None => return None,
                Some(total) => totals[column] = total,
            }
        }
        Some(denominator)
    }

    /// The value of a cut times the denominator over which the totals of the columns are, if its terms are small. None says
    /// nothing of it.
    fn cut_total(&self, variable: usize, totals: &[i64]) -> Option<i128>
        requires size { self.now.tableau.columns ≤ length totals.now }
        requires short { (j : ℕ) → j < self.now.tableau.columns → IsShort (whole_number_at totals.now j) }
        ensures { IfSome result (λ total. IsCutTotal self.now variable totals.now total) }
    {
        let columns = self.tableau.columns();
        if variable < columns {
            return None;
        }
        let activity = variable - columns;
        let rows = self.model.rows().len();
        if activity < rows {
            return None;
        }
        let cut = activity - rows;
        let cuts = self.cuts;
        if cuts.len() <= cut {
            return None;
        }
        terms_total(columns, cuts[cut].terms.as_slice(), totals)
    }

    /// The side that the basic variable of a row is outside of, if any, by the terms where it is a cut. The totals are those of
    /// the columns over the denominator (`write_totals`).
    pub fn cut_breach(
        &self,
        row: usize,
        denominator: i64,
        totals: &[i64],
    ) -> Result<Option<Stand>, WideStep>
        requires row { row < self.now.tableau.activities }
        requires totals { AreColumnTotals self.now denominator totals.now }
        ensures { IsRowBreach self.now row result }
    {
        let variable = self.tableau.basic(row);
        let low = &self.low[variable];
        let high = &self.high[variable];
        let _few = self.tableau.columns();
        if let Some(total) = self.cut_total(variable, totals) {
            return Ok(total_breach(low, high, total, denominator));
        }
        self.row_breach(row)
    }
}
