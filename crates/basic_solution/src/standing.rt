// The variables that stand at other numbers than 0: few, where most stand at 0. Values are sums over them alone.
ghost use Rattle.std.specs.Prelude.{◌≡◌, ◌<◌, ◌≤◌, ◌<ℤ◌, ℕ, pos, get_or, length, IfSome};
ghost use Rattle.table_entries.specs.WholeSteps.{IsShort};
ghost use Rattle.basic_solution.specs.Held.{table, variables};
ghost use Rattle.basic_solution.specs.Numbers.{IsRowBreach};
ghost use Rattle.basic_solution.specs.RowNumbers.{AreEntryNumbers};
ghost use Rattle.basic_solution.specs.Standing.{AreStanding, AreStandingTo, listed_number};
ghost use Rattle.basic_solution.specs.private.Numbers.{IsBasicValueAnswer};
ghost use Rattle.basic_solution.specs.private.RowTotals.{IsRowTotal};

use crate::row_totals::{is_small, marked_number, with_product};
use crate::sided::SidedBasis;
use crate::sides::breach;
use crate::total_sides::total_breach;
use checked_sum::{Terms, checked_sum};
use frac128::Frac;
use lp_model::WideStep;
use row_tableau::Position;
use table_entries::Stand;

/// The terms of the value of a basic variable, of the variables that stand at other numbers than 0 alone.
#[derive(Drop)]
struct StandingTerms<'a, 'b> {
    state: &'b SidedBasis<'a>,
    row: usize,
    places: &'b [usize],
    count: usize,
    ghost within: { row < state.now.tableau.activities },
    ghost places_size: { count ≤ length places.now },
    ghost places_within: { (j : ℕ) → j < count → get_or places.now j 0 < state.now.tableau.columns },
}

impl Terms for StandingTerms<'_, '_> {
    ghost count = { λ t. t.count };

    ghost factor = { λ t j. (table t.state.now).entry t.row (get_or t.places.now j 0) };

    ghost number = { λ t. listed_number t.state.now t.places.now };

    fn count(&self) -> usize {
        self.count
    }

    fn number(&self, index: usize) -> Frac {
        self.state.place_number(self.places[index])
    }

    fn factor(&self, index: usize) -> Frac {
        self.state.entry(self.row, self.places[index])
    }
}

impl SidedBasis<'_> {
    /// Writes the places of the variables that stand at other numbers than 0, by variable, beside them these numbers where they are
    /// small whole ones, and answers how many there are. None where a list is too short; then the lists are of no meaning.
    pub fn write_standing(&self, places: &mut [usize], numbers: &mut [i64]) -> Option<usize>
        ensures { IfSome result (λ n. AreStanding self.now places.new numbers.new n) }
    {
        let mut count = 0;
        for variable in 0..self.variables() {
            match self.tableau.find(variable) {
                Position::Row(_) => {}
                Position::Place(place) => {
                    let number = self.place_number(place);
                    if !number.is_zero() {
                        if places.len() <= count || numbers.len() <= count {
                            return None;
                        }
                        places[count] = place;
                        numbers[count] = marked_number(&number);
                        count += 1;
                    }
                }
            }
        }
        Some(count)
    }

    /// The value of the basic variable of a row times the denominator, by the variables that stand at other numbers than 0 and the
    /// numbers of the row's entries over it, where the variables' numbers are small: then each sum of the terms has room, in any
    /// order. None says nothing of the value.
    pub(crate) fn standing_total_of(
        &self,
        row: usize,
        denominator: i64,
        entries: &[i64],
        places: &[usize],
        numbers: &[i64],
        count: usize,
    ) -> Option<i128>
        requires row { row < self.now.tableau.activities }
        requires positive { pos 0 <ℤ denominator }
        requires denominator { IsShort denominator }
        requires entries { AreEntryNumbers self.now row denominator entries.now }
        requires standing { AreStanding self.now places.now numbers.now count }
        ensures { IfSome result (λ total. IsRowTotal self.now row denominator total) }
    {
        let _few = self.tableau.columns();
        let mut total: i128 = 0;
        for turn in 0..count {
            let number = numbers[turn];
            if !is_small(number) {
                return None;
            }
            let at = places[turn];
            total = with_product(total, entries[at], number);
        }
        Some(total)
    }

    /// The same, entry by entry, where the row may not be written.
    fn standing_total_by_entries(
        &self,
        row: usize,
        denominator: i64,
        places: &[usize],
        numbers: &[i64],
        count: usize,
    ) -> Option<i128>
        requires row { row < self.now.tableau.activities }
        requires positive { pos 0 <ℤ denominator }
        requires denominator { IsShort denominator }
        requires standing { AreStanding self.now places.now numbers.now count }
        ensures { IfSome result (λ total. IsRowTotal self.now row denominator total) }
    {
        let _few = self.tableau.columns();
        let mut total: i128 = 0;
        for turn in 0..count {
            let number = numbers[turn];
            if !is_small(number) {
                return None;
            }
            let Some(factor) = self.tableau.number_over(row, places[turn], denominator) else {
                return None;
            };
            total = with_product(total, factor, number);
        }
        Some(total)
    }

    /// The value of the basic variable of a row times the denominator, by the variables that stand at other numbers than 0, where
    /// the entries are numbers over it and those numbers small: then each sum of the terms has room, in any order. None says nothing
    /// of the value.
    pub(crate) fn standing_total(
        &self,
        row: usize,
        denominator: i64,
        places: &[usize],
        numbers: &[i64],
        count: usize,
    ) -> Option<i128>
        requires row { row < self.now.tableau.activities }
        requires positive { pos 0 <ℤ denominator }
        requires denominator { IsShort denominator }
        requires standing { AreStanding self.now places.now numbers.now count }
        ensures { IfSome result (λ total. IsRowTotal self.now row denominator total) }
    {
        match self.row_over(row, denominator) {
            Some(entries) => self.standing_total_of(
                row,
                denominator,
                entries,
                places,
                numbers,
                count,
            ),
            None => self.standing_total_by_entries(row, denominator, places, numbers, count),
        }
    }

    /// The value of the basic variable of a row, by the variables that stand at other numbers than 0, term by term, or the first of
    /// the terms that has no room.
    pub(crate) fn standing_value(
        &self,
        row: usize,
        places: &[usize],
        count: usize,
    ) -> Result<Frac, WideStep>
        requires row { row < self.now.tableau.activities }
        requires standing { AreStandingTo self.now (variables self.now) places.now count }
        ensures { IsBasicValueAnswer self.now row result }
    {
        let _few = self.tableau.columns();
        let terms = StandingTerms {
            state: self,
            row,
            places,
            count,
        };
        match checked_sum(&Frac::whole(0), &terms) {
            Ok(value) => Ok(value),
            Err(turn) => Err(self.point_step(row, self.tableau.nonbasic(places[turn]))),
        }
    }

    /// The side that the basic variable of a row is outside of, if any, by the variables that stand at other numbers than 0
    /// (`write_standing`).
    pub fn standing_breach(
        &self,
        row: usize,
        places: &[usize],
        numbers: &[i64],
        count: usize,
    ) -> Result<Option<Stand>, WideStep>
        requires row { row < self.now.tableau.activities }
        requires standing { AreStanding self.now places.now numbers.now count }
        ensures { IsRowBreach self.now row result }
    {
        let variable = self.tableau.basic(row);
        let low = &self.low[variable];
        let high = &self.high[variable];
        if let Some(denominator) = self.tableau.whole_denominator() {
            if let Some(total) = self.standing_total(row, denominator, places, numbers, count) {
                return Ok(total_breach(low, high, total, denominator));
            }
        }
        match self.standing_value(row, places, count) {
            Err(step) => Err(step),
            Ok(value) => Ok(breach(low, high, &value)),
        }
    }
}
