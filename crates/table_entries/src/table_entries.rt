// The entries of a table, as whole numbers over one denominator as long as those are short, and else as fractions.
ghost use Rattle.std.specs.Prelude.{◌≡◌, ◌≢◌, ◌↔◌, ◌<◌, ◌≤◌, ◌+◌, ◌*◌, ◌^◌, ◌<ℤ◌, ℕ, true, false, length, get_or, set, pos, vec_capacity, IsTrue, IfSome, OnOk, OnErr, IfErr, IfOk};
ghost use Rattle.frac128.specs.Rational.{int};
ghost use Rattle.frac128.specs.LowestTerms.{quotient_of};
ghost use Rattle.table_entries.specs.FlatSteps.{FlatFits};
ghost use Rattle.table_entries.specs.WholeSteps.{IsShort, AreShort, AreWithin, magnitude, whole_number_at};
ghost use Rattle.table_entries.specs.Listed.{Listed, listed_costs, over, AreOver, IsListed, IsStored, IsShortWhole, IsExchangedList};
ghost use Rattle.table_entries.specs.private.Listed.{ArePartsExchanged};

use crate::denominators::denominator_after;
use crate::entries::{exchange_entries, flat_index};
use crate::same_rows::write_over_same;
use crate::scaled_rows::write_wholes;
use crate::wholes::{MOST_MARKS, are_within, is_below, mark_left, may_stay, take_rows};
use frac128::Frac;
use std::alloc::{AllocError, Global};
use whole_sums::SHORT_LIMIT;

/// The entries of a table, row by row. While all are short whole numbers over one denominator, they are kept so: an
/// exchange then divides without a greatest common divisor, and no step of it is without room. Where that ends, the
/// entries are fractions from then on. Each list has a second one that takes the entries after an exchange, and the
/// fractions' lists have their room from the start, so an exchange takes no memory. They are filled where the entries become
/// fractions, and the second one at the first exchange of these: most tables never come to that.
#[derive(Drop)]
pub struct TableEntries {
    is_whole: bool,
    denominator: i64,
    numbers: Vec<i64>,
    spare_numbers: Vec<i64>,
    fractions: Vec<Frac>,
    spare: Vec<Frac>,
}

impl std::marker::Model for TableEntries {
    ghost Value = { Listed };

    ghost view = { λ t. record { is_whole = t.is_whole; list = listed_costs t.is_whole t.denominator t.numbers.items t.fractions.items; denominator = t.denominator; numbers = t.numbers.items } };

    ghost invariant = { λ t. IsStored t.is_whole t.denominator t.numbers.items t.spare_numbers.items t.fractions.items (vec_capacity t.fractions) t.spare.items (vec_capacity t.spare) };
}

/// Whether the fraction is a short whole number. Most entries are 0.
pub fn is_short_whole(fraction: &Frac) -> bool
    ensures { IsTrue result → IsShortWhole fraction.now }
{
    if fraction.is_zero() {
        return true;
    }
    let numerator = fraction.numerator();
    fraction.is_whole()
        && i128::from(-SHORT_LIMIT) < numerator
        && numerator < i128::from(SHORT_LIMIT)
}

/// The short whole number that the fraction is, if it is one.
pub fn short_whole(fraction: &Frac) -> Option<i64>
    ensures short { IfSome result (λ n. IsShort n) }
    ensures value { IfSome result (λ n. fraction.now ≡ quotient_of n (pos 1)) }
{
    if is_short_whole(fraction) {
        Some(fraction.numerator() as i64)
    } else {
        None
    }
}

/// The numbers that the fractions are, up to the first one that is no short whole number.
fn whole_numbers(alloc: Global, fractions: &[Frac]) -> Result<Vec<i64>, AllocError>
    ensures length { IfOk result (λ v. length v.items ≤ length fractions.now) }
    ensures whole { IfOk result (λ v. (at : ℕ) → at < length v.items → IsShortWhole (get_or fractions.now at (int (pos 0)))) }
    ensures items { IfOk result (λ v. (at : ℕ) → at < length v.items → whole_number_at v.items at ≡ (get_or fractions.now at (int (pos 0))).num) }
{
    let mut numbers = Vec::with_capacity(alloc, fractions.len())?;
    for at in 0..fractions.len() {
        let fraction = fractions[at];
        if !is_short_whole(&fraction) {
            return Ok(numbers);
        }
        numbers.push_reserved(fraction.numerator() as i64);
    }
    Ok(numbers)
}

/// Writes zeros behind the fractions until there are so many, for which there is room.
fn fill(fractions: &mut Vec<Frac>, count: usize)
    requires within { length fractions.old.items ≤ count }
    requires room { count ≤ vec_capacity fractions.old }
    ensures length { length fractions.new.items ≡ count }
    ensures room { count ≤ vec_capacity fractions.new }
{
    while fractions.len() < count {
        fractions.push_reserved(Frac::whole(0));
    }
}

/// Whether the number is 0.
#[inline]
pub fn is_nothing(number: i64) -> bool
    ensures { IsTrue result ↔ number ≡ pos 0 }
{
    number == 0
}

/// The number over the denominator.
pub fn fraction(number: i64, denominator: i64) -> Frac
    requires number { IsShort number }
    requires denominator { IsShort denominator }
    requires positive { pos 0 <ℤ denominator }
    ensures { result ≡ quotient_of number denominator }
{
    if number == 0 {
        Frac::whole(0)
    } else if denominator == 1 {
        Frac::whole(number)
    } else {
        Frac::new(i128::from(number), i128::from(denominator)).unwrap()
    }
}

/// Writes the numbers over the denominator into `next`, as fractions.
fn write_fractions(denominator: i64, numbers: &[i64], next: &mut [Frac])
    requires over { AreOver denominator numbers.now }
    requires room { length next.old ≡ length numbers.now }
    ensures { (at : ℕ) → at < length numbers.now → get_or next.new at (int (pos 0)) ≡ quotient_of (whole_number_at numbers.now at) denominator }
{
    for at in 0..numbers.len() {
        next[at] = fraction(numbers[at], denominator);
    }
}

impl TableEntries {
    /// The entries that these fractions are.
    pub(crate) fn new(alloc: Global, fractions: Vec<Frac>) -> Result<TableEntries, AllocError>
        ensures list { IfOk result (λ t. t.list ≡ fractions.items) }
        ensures denominator { IfOk result (λ t. t.denominator ≡ pos 1) }
    {
        let count = fractions.len();
        let numbers = match whole_numbers(alloc, &fractions) {
            Ok(numbers) => numbers,
            Err(error) => {
                drop(fractions);
                return Err(error);
            }
        };
        let is_whole = numbers.len() == count;
        let spare_numbers = match Vec::from_slice(alloc, &numbers) {
            Ok(spare_numbers) => spare_numbers,
            Err(error) => {
                drop(numbers);
                drop(fractions);
                return Err(error);
            }
        };
        let spare = match Vec::with_capacity(alloc, count) {
            Ok(spare) => spare,
            Err(error) => {
                drop(spare_numbers);
                drop(numbers);
                drop(fractions);
                return Err(error);
            }
        };
        Ok(TableEntries {
            is_whole,
            denominator: 1,
            numbers,
            spare_numbers,
            fractions,
            spare,
        })
    }

    /// The entries that these numbers are.
    pub(crate) fn of_numbers(alloc: Global, numbers: Vec<i64>) -> Result<TableEntries, AllocError>
        requires short { AreShort numbers.items }
        ensures list { IfOk result (λ t. t.list ≡ over (pos 1) numbers.items) }
        ensures denominator { IfOk result (λ t. t.denominator ≡ pos 1) }
    {
        let count = numbers.len();
        let spare_numbers = match Vec::from_slice(alloc, &numbers) {
            Ok(spare_numbers) => spare_numbers,
            Err(error) => {
                drop(numbers);
                return Err(error);
            }
        };
        let fractions = match Vec::with_capacity(alloc, count) {
            Ok(fractions) => fractions,
            Err(error) => {
                drop(spare_numbers);
                drop(numbers);
                return Err(error);
            }
        };
        let spare = match Vec::with_capacity(alloc, count) {
            Ok(spare) => spare,
            Err(error) => {
                drop(fractions);
                drop(spare_numbers);
                drop(numbers);
                return Err(error);
            }
        };
        Ok(TableEntries {
            is_whole: true,
            denominator: 1,
            numbers,
            spare_numbers,
            fractions,
            spare,
        })
    }

    /// The entry at an index of the list.
    pub(crate) fn at(&self, at: usize) -> Frac
        requires { at < length self.now.list }
        ensures { result ≡ get_or self.now.list at (int (pos 0)) }
    {
        if self.is_whole {
            fraction(self.numbers[at], self.denominator)
        } else {
            self.fractions[at]
        }
    }

    /// Whether the entry at an index of the list is 0.
    pub(crate) fn is_zero(&self, at: usize) -> bool
        requires { at < length self.now.list }
        ensures { IsTrue result ↔ get_or self.now.list at (int (pos 0)) ≡ int (pos 0) }
    {
        if self.is_whole {
            is_nothing(self.numbers[at])
        } else {
            self.fractions[at].is_zero()
        }
    }

    /// Whether the entries are kept as whole numbers over one denominator.
    pub(crate) fn is_whole(&self) -> bool
        ensures value { result ≡ self.now.is_whole }
        ensures lawful { IsTrue result → IsListed self.now }
    {
        self.is_whole
    }

    /// The common denominator of the entries where they are kept as whole numbers, and else 1.
    pub(crate) fn denominator(&self) -> i64
        ensures positive { pos 0 <ℤ result }
        ensures short { IsShort result }
        ensures value { self.now.is_whole ≡ true → result ≡ self.now.denominator }
    {
        if self.is_whole { self.denominator } else { 1 }
    }

    /// The entry at an index of the list, as a number over this denominator, if it is kept so.
    pub(crate) fn number_over(&self, at: usize, denominator: i64) -> Option<i64>
        requires { at < length self.now.list }
        ensures short { IfSome result (λ n. IsShort n) }
        ensures value { IfSome result (λ n. get_or self.now.list at (int (pos 0)) ≡ quotient_of n denominator) }
    {
        if self.is_whole && self.denominator == denominator {
            Some(self.numbers[at])
        } else {
            None
        }
    }

    /// The numbers over this denominator, if the entries are kept so.
    #[inline]
    pub(crate) fn numbers_over(&self, denominator: i64) -> Option<&[i64]>
        ensures length { IfSome result (λ r. length r.now ≡ length self.now.list) }
        ensures short { IfSome result (λ r. AreShort r.now) }
        ensures value { IfSome result (λ r. (at : ℕ) → get_or self.now.list at (int (pos 0)) ≡ quotient_of (whole_number_at r.now at) denominator) }
    {
        if self.is_whole && self.denominator == denominator {
            Some(self.numbers.as_slice())
        } else {
            None
        }
    }

    /// The number at an index of the list.
    pub(crate) fn number(&self, at: usize) -> i64
        requires whole { self.now.is_whole ≡ true }
        requires within { at < length self.now.list }
        ensures value { result ≡ whole_number_at self.now.numbers at }
        ensures short { IsShort result }
    {
        self.numbers[at]
    }

    /// A list of the numbers.
    pub(crate) fn copied_numbers(&self, alloc: Global) -> Result<Vec<i64>, AllocError>
        ensures { IfOk result (λ v. v.items ≡ self.now.numbers) }
    {
        Vec::from_slice(alloc, &self.numbers)
    }

    /// Writes a number at an index of the list.
    pub(crate) fn write(&mut self, at: usize, number: i64)
        requires whole { self.old.is_whole ≡ true }
        requires short { IsShort number }
        requires within { at < length self.old.list }
        ensures numbers { self.new.numbers ≡ set self.old.numbers at number }
        ensures denominator { self.new.denominator ≡ self.old.denominator }
        ensures form { self.new.is_whole ≡ true }
        ensures size { length self.new.list ≡ length self.old.list }
        ensures listed { IsListed self.new }
    {
        self.numbers[at] = number;
    }

    /// Exchanges the rows that are written over the same denominator: those that have no entry in the entering place are left
    /// alone. False where that can't be done, or where a number after it is not below the limit, as those before are;
    /// then nothing changes.
    fn exchange_some(
        &mut self,
        rows: usize,
        columns: usize,
        row: usize,
        place: usize,
        unwritten: &[bool],
        limit: i64,
    ) -> bool
        requires whole { self.old.is_whole ≡ true }
        requires row { row < rows }
        requires place { place < columns }
        requires room { rows * columns < 2 ^ 64 }
        requires size { length self.old.list ≡ rows * columns }
        requires few { rows ≤ 4096 }
        requires some { get_or self.old.list (row * columns + place) (int (pos 0)) ≢ int (pos 0) }
        requires positive { pos 0 <ℤ limit }
        requires within { AreWithin rows columns unwritten.now limit self.old.numbers }
        ensures done { IsTrue result → ArePartsExchanged rows columns row place unwritten.now limit self.old self.new }
        ensures kept { result ≡ false → self.new ≡ self.old }
    {
        if !is_below(limit, self.denominator) {
            return false;
        }
        let mut left = [false; MOST_MARKS];
        mark_left(
            rows,
            columns,
            row,
            place,
            &self.numbers,
            unwritten,
            &mut left,
        );
        if !write_over_same(
            rows,
            columns,
            row,
            place,
            self.denominator,
            &self.numbers,
            &left,
            &mut self.spare_numbers,
        ) {
            return false;
        }
        if !are_within(limit, rows, columns, &left, &self.spare_numbers) {
            return false;
        }
        take_rows(rows, columns, &left, &self.spare_numbers, &mut self.numbers);
        true
    }

    /// Exchanges the rows that are written over this denominator. False where that can't be done, or where it or a number after
    /// it is not below the limit; then nothing changes.
    fn exchange_each(
        &mut self,
        rows: usize,
        columns: usize,
        row: usize,
        place: usize,
        after: i64,
        unwritten: &[bool],
        limit: i64,
    ) -> bool
        requires whole { self.old.is_whole ≡ true }
        requires row { row < rows }
        requires place { place < columns }
        requires room { rows * columns < 2 ^ 64 }
        requires size { length self.old.list ≡ rows * columns }
        requires some { get_or self.old.list (row * columns + place) (int (pos 0)) ≢ int (pos 0) }
        requires after_positive { pos 0 <ℤ after }
        requires after { IsShort after }
        requires positive { pos 0 <ℤ limit }
        ensures done { IsTrue result → ArePartsExchanged rows columns row place unwritten.now limit self.old self.new }
        ensures kept { result ≡ false → self.new ≡ self.old }
    {
        if !is_below(limit, after) {
            return false;
        }
        if !write_wholes(
            rows,
            columns,
            row,
            place,
            self.denominator,
            after,
            &self.numbers,
            unwritten,
            &mut self.spare_numbers,
        ) {
            return false;
        }
        if !are_within(limit, rows, columns, unwritten, &self.spare_numbers) {
            return false;
        }
        std::mem::swap(&mut self.numbers, &mut self.spare_numbers);
        self.denominator = after;
        true
    }

    /// The magnitude of the pivot's number.
    fn pivot_magnitude(&self, rows: usize, columns: usize, row: usize, place: usize) -> i64
        requires whole { self.now.is_whole ≡ true }
        requires row { row < rows }
        requires place { place < columns }
        requires room { rows * columns < 2 ^ 64 }
        requires size { length self.now.list ≡ rows * columns }
        requires some { get_or self.now.list (row * columns + place) (int (pos 0)) ≢ int (pos 0) }
        ensures positive { pos 0 <ℤ result }
        ensures short { IsShort result }
    {
        self.numbers[flat_index(rows, columns, row, place)].abs()
    }

    /// A denominator over which the entries after the exchange are whole numbers, without what all of them share with it. It is
    /// tried, so nothing rests on it but speed.
    fn next_denominator(
        &self,
        rows: usize,
        columns: usize,
        row: usize,
        place: usize,
        unwritten: &[bool],
    ) -> i64
        requires whole { self.now.is_whole ≡ true }
        requires row { row < rows }
        requires place { place < columns }
        requires room { rows * columns < 2 ^ 64 }
        requires size { length self.now.list ≡ rows * columns }
        ensures positive { pos 0 <ℤ result }
        ensures short { IsShort result }
    {
        denominator_after(
            rows,
            columns,
            row,
            place,
            self.denominator.unsigned_abs(),
            &self.numbers,
            unwritten,
        )
    }

    /// Exchanges the rows that are written over another denominator: the pivot's magnitude, or where numbers over that are too long,
    /// one that is found. False where that can't be done; then nothing changes.
    fn exchange_over(
        &mut self,
        rows: usize,
        columns: usize,
        row: usize,
        place: usize,
        unwritten: &[bool],
        limit: i64,
    ) -> bool
        requires whole { self.old.is_whole ≡ true }
        requires row { row < rows }
        requires place { place < columns }
        requires room { rows * columns < 2 ^ 64 }
        requires size { length self.old.list ≡ rows * columns }
        requires some { get_or self.old.list (row * columns + place) (int (pos 0)) ≢ int (pos 0) }
        requires positive { pos 0 <ℤ limit }
        ensures done { IsTrue result → ArePartsExchanged rows columns row place unwritten.now limit self.old self.new }
        ensures kept { result ≡ false → self.new ≡ self.old }
    {
        let magnitude = self.pivot_magnitude(rows, columns, row, place);
        if self.exchange_each(rows, columns, row, place, magnitude, unwritten, limit) {
            return true;
        }
        let after = self.next_denominator(rows, columns, row, place, unwritten);
        self.exchange_each(rows, columns, row, place, after, unwritten, limit)
    }

    /// Exchanges the rows that are written over a common denominator: the same one, if that can be, and else another one. False
    /// where that can't be done, or where a number after it is not below the limit, as those before are; then nothing changes.
    pub(crate) fn exchange_part(
        &mut self,
        rows: usize,
        columns: usize,
        row: usize,
        place: usize,
        unwritten: &[bool],
        limit: i64,
    ) -> bool
        requires whole { self.old.is_whole ≡ true }
        requires row { row < rows }
        requires place { place < columns }
        requires room { rows * columns < 2 ^ 64 }
        requires size { length self.old.list ≡ rows * columns }
        requires some { get_or self.old.list (row * columns + place) (int (pos 0)) ≢ int (pos 0) }
        requires positive { pos 0 <ℤ limit }
        requires within { AreWithin rows columns unwritten.now limit self.old.numbers }
        ensures done { IsTrue result → ArePartsExchanged rows columns row place unwritten.now limit self.old self.new }
        ensures kept { result ≡ false → self.new ≡ self.old }
    {
        if rows > MOST_MARKS {
            return self.exchange_over(rows, columns, row, place, unwritten, limit);
        }
        let magnitude = self.pivot_magnitude(rows, columns, row, place);
        if !may_stay(self.denominator(), magnitude) {
            return self.exchange_over(rows, columns, row, place, unwritten, limit);
        }
        if self.exchange_some(rows, columns, row, place, unwritten, limit) {
            return true;
        }
        self.exchange_over(rows, columns, row, place, unwritten, limit)
    }

    /// Exchanges over a common denominator. False where that can't be done; then nothing changes.
    fn exchange_wholes(&mut self, rows: usize, columns: usize, row: usize, place: usize) -> bool
        requires whole { self.old.is_whole ≡ true }
        requires row { row < rows }
        requires place { place < columns }
        requires room { rows * columns < 2 ^ 64 }
        requires size { length self.old.list ≡ rows * columns }
        requires some { get_or self.old.list (row * columns + place) (int (pos 0)) ≢ int (pos 0) }
        ensures done { IsTrue result → IsExchangedList columns row place self.old.list self.new.list }
        ensures kept { result ≡ false → self.new ≡ self.old }
    {
        let _listed = self.is_whole();
        self.exchange_part(rows, columns, row, place, &[], SHORT_LIMIT)
    }

    /// Goes over to fractions.
    fn go_over(&mut self)
        requires { self.old.is_whole ≡ true }
        ensures list { self.new.list ≡ self.old.list }
        ensures form { self.new.is_whole ≡ false }
    {
        let count = self.numbers.len();
        fill(&mut self.fractions, count);
        write_fractions(self.denominator, &self.numbers, &mut self.fractions);
        self.is_whole = false;
    }

    /// Exchanges fractions, or finds the first entry whose step has no room; then nothing changes.
    fn exchange_fractions(
        &mut self,
        rows: usize,
        columns: usize,
        row: usize,
        place: usize,
    ) -> Result<(), usize>
        requires form { self.old.is_whole ≡ false }
        requires row { row < rows }
        requires place { place < columns }
        requires size { length self.old.list ≡ rows * columns }
        requires some { get_or self.old.list (row * columns + place) (int (pos 0)) ≢ int (pos 0) }
        ensures done { OnOk result (IsExchangedList columns row place self.old.list self.new.list) }
        ensures kept { OnErr result (self.new ≡ self.old) }
        ensures within { IfErr result (λ e. e < rows * columns) }
        ensures earlier { IfErr result (λ e. (at : ℕ) → at < e → FlatFits columns row place self.old.list at) }
        ensures wide { IfErr result (λ e. ¬ (FlatFits columns row place self.old.list e)) }
    {
        let count = self.fractions.len();
        fill(&mut self.spare, count);
        exchange_entries(
            rows,
            columns,
            row,
            place,
            &mut self.fractions,
            &mut self.spare,
        )
    }

    /// Exchanges a row and a place of so many rows and columns, or finds the first entry whose step has no room; then no
    /// entry changes.
    pub(crate) fn exchange(
        &mut self,
        rows: usize,
        columns: usize,
        row: usize,
        place: usize,
    ) -> Result<(), usize>
        requires row { row < rows }
        requires place { place < columns }
        requires room { rows * columns < 2 ^ 64 }
        requires size { length self.old.list ≡ rows * columns }
        requires some { get_or self.old.list (row * columns + place) (int (pos 0)) ≢ int (pos 0) }
        ensures done { OnOk result (IsExchangedList columns row place self.old.list self.new.list) }
        ensures kept { OnErr result (self.new.list ≡ self.old.list) }
        ensures within { IfErr result (λ e. e < rows * columns) }
        ensures earlier { IfErr result (λ e. (at : ℕ) → at < e → FlatFits columns row place self.old.list at) }
        ensures wide { IfErr result (λ e. ¬ (FlatFits columns row place self.old.list e)) }
    {
        if !self.is_whole() {
            return self.exchange_fractions(rows, columns, row, place);
        }
        if self.exchange_wholes(rows, columns, row, place) {
            return Ok(());
        }
        self.go_over();
        self.exchange_fractions(rows, columns, row, place)
    }
}
