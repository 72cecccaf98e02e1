// Values of basic variables that are kept from one state to the next, and follow the exchange between them.
ghost use Rattle.std.specs.Prelude.{◌≡◌, ◌≢◌, ◌<◌, ◌≤◌, ◌<ℤ◌, ℕ, ℤ, pos, length, Ok, IsTrue, IfOk, IfSome};
ghost use Rattle.frac128.specs.Rational.{int};
ghost use Rattle.table_entries.specs.declared.stand.Stand.{Stand};
ghost use Rattle.table_entries.specs.WholeSteps.{IsShort, whole_number_at};
ghost use Rattle.whole_sums.specs.Wholes.{IsDenominator};
ghost use Rattle.basic_solution.specs.Exchanges.{IsMove};
ghost use Rattle.basic_solution.specs.Held.{Held, IsSided, state, table};
ghost use Rattle.basic_solution.specs.KeptCosts.{AreShortOrMarks, IsShortOrMark};
ghost use Rattle.basic_solution.specs.KeptValues.{AreKeptValues};
ghost use Rattle.basic_solution.specs.Numbers.{IsRowBreach};
ghost use Rattle.basic_solution.specs.RowTotals.{IsSmallNumber};
ghost use Rattle.basic_solution.specs.Standing.{AreStanding};
ghost use Rattle.basic_solution.specs.private.Followed.{IsFollowedValue, IsValueStep};

use crate::followed::{UNKNOWN, followed, forget, is_short, number_but};
use crate::row_totals::{is_small, small_number};
use crate::sided::SidedBasis;
use crate::total_sides::total_breach;
use std::alloc::{AllocError, Global};
use table_entries::{Inverse, Stand};
use whole_sums::{product, short_number};

/// By what values follow an exchange, over the denominator before it: that at which the entering variable stood, and how far the
/// leaving one moves.
#[derive(Clone, Copy, Drop)]
pub struct ValueStep {
    start: i64,
    factor: i64,
}

/// Whether the first numbers, as many as these, are small.
pub fn are_all_small(numbers: &[i64], count: usize) -> bool
    requires count { count ≤ length numbers.now }
    requires short { (j : ℕ) → j < count → IsShort (whole_number_at numbers.now j) }
    ensures { IsTrue result → (j : ℕ) → j < count → IsSmallNumber (whole_number_at numbers.now j) }
{
    for at in 0..count {
        if !is_small(numbers[at]) {
            return false;
        }
    }
    true
}

impl SidedBasis<'_> {
    /// A list of values, none of which is known.
    pub fn no_values(&self, alloc: Global) -> Result<Vec<i64>, AllocError>
        ensures { IfOk result (λ kept. (d : ℤ) → IsDenominator d → AreKeptValues self.now d kept.items) }
    {
        vec![in alloc; UNKNOWN; self.tableau.activities()]
    }

    /// The number at which the variable of a place stands, if it is a small whole one.
    pub fn small_stand(&self, place: usize) -> Option<i64>
        requires { place < self.now.tableau.columns }
        ensures small { IfSome result (λ n. IsSmallNumber n) }
        ensures value { IfSome result (λ n. (state self.now).at place ≡ int n) }
    {
        small_number(&self.place_number(place))
    }

    /// Keeps the value of the basic variable of a row, where the row is written and the value can be had over the denominator.
    pub fn keep_value(
        &self,
        row: usize,
        denominator: i64,
        places: &[usize],
        numbers: &[i64],
        count: usize,
        kept: &mut [i64],
    )
        requires row { row < self.now.tableau.activities }
        requires standing { AreStanding self.now places.now numbers.now count }
        requires kept { AreKeptValues self.now denominator kept.old }
        ensures { AreKeptValues self.now denominator kept.new }
    {
        if is_short(kept[row]) {
            return;
        }
        let Some(entries) = self.row_over(row, denominator) else {
            return;
        };
        let Some(total) = self.standing_total_of(row, denominator, entries, places, numbers, count)
        else {
            return;
        };
        if let Some(number) = short_number(total) {
            kept[row] = number;
        }
    }

    /// The side that the basic variable of a row is outside of, if any, by its value as it is kept, where sizes show that each sum of its
    /// terms has room: the variables stand at small whole numbers, and the entries are numbers over the denominator. None says nothing.
    pub fn kept_breach(
        &self,
        row: usize,
        denominator: i64,
        places: &[usize],
        numbers: &[i64],
        count: usize,
        kept: &[i64],
    ) -> Option<Option<Stand>>
        requires row { row < self.now.tableau.activities }
        requires standing { AreStanding self.now places.now numbers.now count }
        requires small { (j : ℕ) → j < count → IsSmallNumber (whole_number_at numbers.now j) }
        requires kept { AreKeptValues self.now denominator kept.now }
        ensures { IfSome result (λ side. IsRowBreach self.now row (Ok side)) }
    {
        let number = kept[row];
        if !is_short(number) {
            return None;
        }
        let Some(_entries) = self.row_over(row, denominator) else {
            return None;
        };
        let _few = self.tableau.columns();
        let variable = self.tableau.basic(row);
        let low = &self.low[variable];
        let high = &self.high[variable];
        Some(total_breach(low, high, i128::from(number), denominator))
    }

    /// By what values follow an exchange, behind it, where the entering variable stood at this number.
    fn value_step(
        &self,
        row: usize,
        place: usize,
        stood: i64,
        before: i64,
        kept: &[i64],
    ) -> Option<ValueStep>
        requires row { row < length kept.now }
        requires place { place < self.now.tableau.columns }
        requires stood { IsSmallNumber stood }
        requires before { IsShort before }
        requires range { AreShortOrMarks kept.now }
        ensures { IfSome result (λ step. IsValueStep self.now place stood before (whole_number_at kept.now row) step.start step.factor) }
    {
        let Some(left) = self.small_stand(place) else {
            return None;
        };
        let value = kept[row];
        if !is_short(value) {
            return None;
        }
        let Some(factor) = short_number(product(left, before) - i128::from(value)) else {
            return None;
        };
        let Some(start) = short_number(product(stood, before)) else {
            return None;
        };
        Some(ValueStep { start, factor })
    }

    /// The value of the basic variable of a row after an exchange, over the denominator after it.
    fn followed_value(
        &self,
        row: usize,
        place: usize,
        number: i64,
        before: i64,
        after: i64,
        factor: i64,
        inverse: &Inverse,
    ) -> i64
        requires row { row < self.now.tableau.activities }
        requires place { place < self.now.tableau.columns }
        requires before { IsShort before }
        requires after { IsShort after }
        requires factor { IsShort factor }
        ensures value { IsFollowedValue before after factor ((table self.now).entry row place) number result }
        ensures kept { IsShortOrMark result }
    {
        if !is_short(number) {
            return UNKNOWN;
        }
        match self.row_over(row, after) {
            Some(entries) => followed(number, before, after, factor, entries[place], inverse),
            None => UNKNOWN,
        }
    }

    /// Lets the values that are kept follow the exchange of a row and a place, behind it, where the entering variable stood at this
    /// number, and answers the denominator over which they are then. Where the value of the row was not known, none is.
    pub fn follow_values(
        &self,
        row: usize,
        place: usize,
        stood: Option<i64>,
        before: i64,
        kept: &mut [i64],
    ) -> i64
        requires row { row < self.now.tableau.activities }
        requires place { place < self.now.tableau.columns }
        requires stood { IfSome stood (λ n. IsSmallNumber n) }
        requires positive { pos 0 <ℤ before }
        requires before { IsShort before }
        requires size { length kept.old ≡ self.now.tableau.activities }
        requires range { AreShortOrMarks kept.old }
        ensures { (s : Held) (side : Stand) → IsSided s → (table s).entry row place ≢ int (pos 0) → IsMove s self.now row side place
            → IfSome stood (λ n. (state s).at place ≡ int n) → AreKeptValues s before kept.old → AreKeptValues self.now result kept.new }
    {
        let after = self.denominator();
        let Some(stood) = stood else {
            forget(kept);
            return after;
        };
        let Some(step) = self.value_step(row, place, stood, before, kept) else {
            forget(kept);
            return after;
        };
        let inverse = Inverse::of(before);
        for at in 0..kept.len() {
            let number = number_but(kept, row, step.start, at);
            kept[at] = self.followed_value(at, place, number, before, after, step.factor, &inverse);
        }
        after
    }
}
