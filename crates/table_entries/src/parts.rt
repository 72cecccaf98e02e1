// The entries of a table of which some rows are not written. The row of a basic cut is the sum of coefficient times row over
// the columns, at every basis, so it need not be kept while the cut has never left: its entries are formed where they are
// asked for. That is done while the entries are whole numbers over one denominator, all below a limit so small that the
// numbers of such a row are short. Then each step of an exchange has room in a row that is not written, as it has in one
// that is. Where a number reaches the limit, all rows are written, and stay so.
ghost use Rattle.std.specs.Prelude.{◌≡◌, ◌≢◌, ◌↔◌, ◌<◌, ◌≤◌, ◌+◌, ◌*◌, ◌^◌, ◌<ℤ◌, ℕ, true, false, length, get_or, pos, IsTrue, IfSome, OnOk, OnErr, IfErr, IfOk};
ghost use Rattle.frac128.specs.Rational.{int};
ghost use Rattle.frac128.specs.LowestTerms.{quotient_of};
ghost use Rattle.table_entries.specs.FlatSteps.{dense_entry};
ghost use Rattle.table_entries.specs.FlatSteps.{FlatFits};
ghost use Rattle.table_entries.specs.WholeSteps.{IsShort, AreShort, IsShortOver, magnitude, whole_number_at, is_unwritten, AreWithin};
ghost use Rattle.table_entries.specs.Listed.{over, IsListed, IsExchangedList};
ghost use Rattle.table_entries.specs.Parts.{Parts, IsParted, IsSwap, AreColumnsWritten, any_entry, filled, row_coefficient, swapped, weight};
ghost use Rattle.table_entries.specs.private.Parts.{IsLight, IsRowTouched, IsRowFormed, IsSummedRow, slot_number, unwritten_number};

use crate::entries::flat_index;
use crate::table_entries::{TableEntries, fraction, is_nothing};
use crate::wholes::{are_within, is_below, row_of};
use frac128::Frac;
use std::alloc::{AllocError, Global};

/// Rows that weigh as much are written from the start.
const HEAVIEST: u64 = 64;

/// Numbers are below this.
const ROOM: u64 = 1 << 62;

/// The entries of a table, row by row, all of them, though rows of cuts may not be written. What is asked of such a row is
/// formed from the rows of the columns, so each call is told the slots of the variables: the row of a basic one and, behind
/// all rows, the place of each other one. A column's own row is always written.
#[derive(Drop)]
pub struct PartEntries {
    rows: usize,
    columns: usize,
    entries: TableEntries,
    coefficients: Vec<i64>,
    unwritten: Vec<bool>,
    is_partial: bool,
    limit: i64,
}

impl std::marker::Model for PartEntries {
    ghost Value = { Parts };

    ghost view = { λ t. record { rows = t.rows; columns = t.columns; entries = t.entries; coefficients = t.coefficients.items; unwritten = t.unwritten.items; is_partial = t.is_partial; limit = t.limit } };

    ghost invariant = { λ t. IsParted (record { rows = t.rows; columns = t.columns; entries = t.entries; coefficients = t.coefficients.items; unwritten = t.unwritten.items; is_partial = t.is_partial; limit = t.limit }) };
}

/// The magnitudes of a row's coefficients, added, as long as they are below `HEAVIEST`.
fn weight_of(rows: usize, columns: usize, coefficients: &[i64], row: usize) -> u64
    requires row { row < rows }
    requires size { length coefficients.now ≡ rows * columns }
    ensures { result < 64 → weight (row_coefficient columns coefficients.now row) columns ≡ result }
{
    let mut weight = 0_u64;
    for column in 0..columns {
        let at = flat_index(rows, columns, row, column);
        let magnitude = coefficients[at].unsigned_abs();
        if HEAVIEST - weight <= magnitude {
            return HEAVIEST;
        }
        weight += magnitude;
    }
    weight
}

/// Marks the rows from `first` on that weigh less than `HEAVIEST` as not written. Answers the greatest weight of these.
fn mark_light(
    rows: usize,
    columns: usize,
    coefficients: &[i64],
    first: usize,
    unwritten: &mut [bool],
) -> u64
    requires size { length coefficients.now ≡ rows * columns }
    requires flags { length unwritten.old ≡ rows }
    requires none { (i : ℕ) → is_unwritten unwritten.old i ≡ false }
    ensures light { (i : ℕ) → is_unwritten unwritten.new i ≡ true → weight (row_coefficient columns coefficients.now i) columns ≤ result }
    ensures heaviest { result < 64 }
{
    let mut heaviest = 0_u64;
    for row in first..rows {
        let weight = weight_of(rows, columns, coefficients, row);
        if weight < HEAVIEST {
            unwritten[row] = true;
            if heaviest < weight {
                heaviest = weight;
            }
        }
    }
    heaviest
}

/// The number at a place of what stands at a slot, over the denominator.
fn number_at_slot(
    entries: &TableEntries,
    rows: usize,
    columns: usize,
    slot: usize,
    place: usize,
) -> i64
    requires whole { entries.now.is_whole ≡ true }
    requires place { place < columns }
    requires size { length entries.now.list ≡ rows * columns }
    requires room { rows * columns < 2 ^ 64 }
    ensures { result ≡ slot_number rows columns entries.now slot place }
{
    if slot < rows {
        entries.number(flat_index(rows, columns, slot, place))
    } else if place == slot - rows {
        entries.denominator()
    } else {
        0
    }
}

/// The number at a place of a row that is not written, over the denominator.
fn unwritten_number(
    entries: &TableEntries,
    rows: usize,
    columns: usize,
    coefficients: &[i64],
    slots: &[usize],
    row: usize,
    place: usize,
) -> i64
    requires row { row < rows }
    requires place { place < columns }
    requires size { length entries.now.list ≡ rows * columns }
    requires coefficients { length coefficients.now ≡ rows * columns }
    requires slots { columns ≤ length slots.now }
    requires light { IsLight rows columns entries.now coefficients.now (λ j. get_or slots.now j 0) row }
    ensures value { result ≡ unwritten_number rows columns entries.now coefficients.now (λ j. get_or slots.now j 0) row place }
    ensures short { IsShort result }
{
    let mut total = 0_i64;
    for column in 0..columns {
        let at = flat_index(rows, columns, row, column);
        let coefficient = coefficients[at];
        if coefficient != 0 {
            let number = number_at_slot(entries, rows, columns, slots[column], place);
            total += coefficient * number;
        }
    }
    total
}

/// Writes zeros in a row.
fn clear_row(entries: &mut TableEntries, rows: usize, columns: usize, row: usize)
    requires whole { entries.old.is_whole ≡ true }
    requires listed { IsListed entries.old }
    requires row { row < rows }
    requires size { length entries.old.list ≡ rows * columns }
    requires room { rows * columns < 2 ^ 64 }
    ensures touched { IsRowTouched columns row entries.old entries.new }
    ensures nothing { (k : ℕ) → k < columns → whole_number_at entries.new.numbers (row * columns + k) ≡ pos 0 }
{
    for place in 0..columns {
        let at = flat_index(rows, columns, row, place);
        entries.write(at, 0);
    }
}

/// Adds the term of a column to the numbers of a row that is the sum of those of the columns before it.
fn add_column(
    entries: &mut TableEntries,
    rows: usize,
    columns: usize,
    coefficients: &[i64],
    slots: &[usize],
    row: usize,
    column: usize,
)
    requires row { row < rows }
    requires column { column < columns }
    requires size { length entries.old.list ≡ rows * columns }
    requires coefficients { length coefficients.now ≡ rows * columns }
    requires slots { columns ≤ length slots.now }
    requires light { IsLight rows columns entries.old coefficients.now (λ j. get_or slots.now j 0) row }
    requires apart { (j : ℕ) → j < columns → get_or slots.now j 0 ≢ row }
    requires before { IsSummedRow rows columns entries.old coefficients.now (λ j. get_or slots.now j 0) row column entries.old.numbers }
    ensures touched { IsRowTouched columns row entries.old entries.new }
    ensures added { IsSummedRow rows columns entries.old coefficients.now (λ j. get_or slots.now j 0) row (column + 1) entries.new.numbers }
{
    let coefficient = coefficients[flat_index(rows, columns, row, column)];
    if coefficient == 0 {
        return;
    }
    let slot = slots[column];
    for place in 0..columns {
        let at = flat_index(rows, columns, row, place);
        let before = entries.number(at);
        let number = number_at_slot(entries, rows, columns, slot, place);
        entries.write(at, before + coefficient * number);
    }
}

/// Writes a row that is not written: column by column, since most coefficients are 0.
fn write_numbers(
    entries: &mut TableEntries,
    rows: usize,
    columns: usize,
    coefficients: &[i64],
    slots: &[usize],
    row: usize,
)
    requires row { row < rows }
    requires size { length entries.old.list ≡ rows * columns }
    requires coefficients { length coefficients.now ≡ rows * columns }
    requires slots { columns ≤ length slots.now }
    requires light { IsLight rows columns entries.old coefficients.now (λ j. get_or slots.now j 0) row }
    requires apart { (j : ℕ) → j < columns → get_or slots.now j 0 ≢ row }
    ensures { IsRowFormed rows columns coefficients.now (λ j. get_or slots.now j 0) row entries.old entries.new }
{
    clear_row(entries, rows, columns, row);
    for column in 0..columns {
        add_column(entries, rows, columns, coefficients, slots, row, column);
    }
}

/// Writes all rows that are not written.
fn write_rows(
    entries: &mut TableEntries,
    rows: usize,
    columns: usize,
    coefficients: &[i64],
    slots: &[usize],
    unwritten: &mut [bool],
)
    requires size { length entries.old.list ≡ rows * columns }
    requires coefficients { length coefficients.now ≡ rows * columns }
    requires slots { columns ≤ length slots.now }
    requires flags { length unwritten.old ≡ rows }
    requires light { (i : ℕ) → i < rows → is_unwritten unwritten.old i ≡ true → IsLight rows columns entries.old coefficients.now (λ j. get_or slots.now j 0) i }
    requires columns_written { (j : ℕ) → j < columns → get_or slots.now j 0 < rows → is_unwritten unwritten.old (get_or slots.now j 0) ≡ false }
    ensures same { (i k : ℕ) → i < rows → k < columns → any_entry rows columns coefficients.now (λ j. get_or slots.now j 0) unwritten.new entries.new.list i k ≡ any_entry rows columns coefficients.now (λ j. get_or slots.now j 0) unwritten.old entries.old.list i k }
    ensures written { (i : ℕ) → i < rows → is_unwritten unwritten.new i ≡ false }
    ensures size { length entries.new.list ≡ length entries.old.list }
{
    for row in 0..rows {
        if unwritten[row] {
            write_numbers(entries, rows, columns, coefficients, slots, row);
            unwritten[row] = false;
        }
    }
}

/// Whether the numbers of a row are below the limit.
fn is_row_below(entries: &TableEntries, rows: usize, columns: usize, row: usize, limit: i64) -> bool
    requires whole { entries.now.is_whole ≡ true }
    requires row { row < rows }
    requires size { length entries.now.list ≡ rows * columns }
    requires room { rows * columns < 2 ^ 64 }
    requires positive { pos 0 <ℤ limit }
    ensures { IsTrue result → (k : ℕ) → k < columns → magnitude (whole_number_at entries.now.numbers (row * columns + k)) <ℤ limit }
{
    for place in 0..columns {
        let at = flat_index(rows, columns, row, place);
        if !is_below(limit, entries.number(at)) {
            return false;
        }
    }
    true
}

/// Entries of which all rows are written.
fn all_written(
    alloc: Global,
    rows: usize,
    columns: usize,
    entries: TableEntries,
) -> Result<PartEntries, AllocError>
    requires size { length entries.list ≡ rows * columns }
    requires room { rows * columns < 2 ^ 64 }
    ensures rows { IfOk result (λ v. v.rows ≡ rows) }
    ensures columns { IfOk result (λ v. v.columns ≡ columns) }
    ensures filled { IfOk result (λ v. (slots : ℕ → ℕ) → filled v slots ≡ entries.list) }
{
    let unwritten = match vec![in alloc; false; rows] {
        Ok(unwritten) => unwritten,
        Err(error) => {
            drop(entries);
            return Err(error);
        }
    };
    Ok(PartEntries {
        rows,
        columns,
        entries,
        coefficients: Vec::new(alloc),
        unwritten,
        is_partial: false,
        limit: 1,
    })
}

/// The entries of a slack table, of which the light rows from `first` on are not written, if its numbers are small enough.
fn partly_written(
    alloc: Global,
    rows: usize,
    columns: usize,
    first: usize,
    entries: TableEntries,
) -> Result<PartEntries, AllocError>
    requires whole { entries.is_whole ≡ true }
    requires listed { IsListed entries }
    requires denominator { entries.denominator ≡ pos 1 }
    requires size { length entries.list ≡ rows * columns }
    requires room { rows * columns < 2 ^ 64 }
    ensures rows { IfOk result (λ v. v.rows ≡ rows) }
    ensures columns { IfOk result (λ v. v.columns ≡ columns) }
    ensures filled { IfOk result (λ v. (slots : ℕ → ℕ) → ((j : ℕ) → j < columns → slots j ≡ rows + j) → filled v slots ≡ entries.list) }
{
    let coefficients = match entries.copied_numbers(alloc) {
        Ok(coefficients) => coefficients,
        Err(error) => {
            drop(entries);
            return Err(error);
        }
    };
    let mut unwritten = match vec![in alloc; false; rows] {
        Ok(unwritten) => unwritten,
        Err(error) => {
            drop(coefficients);
            drop(entries);
            return Err(error);
        }
    };
    let heaviest = mark_light(rows, columns, &coefficients, first, &mut unwritten);
    let limit = (ROOM / (heaviest + 1)) as i64;
    if !are_within(limit, rows, columns, &unwritten, &coefficients) {
        drop(unwritten);
        drop(coefficients);
        return all_written(alloc, rows, columns, entries);
    }
    Ok(PartEntries {
        rows,
        columns,
        entries,
        coefficients,
        unwritten,
        is_partial: true,
        limit,
    })
}

impl PartEntries {
    /// The entries of a slack table, which these fractions are. Rows from `first` on may not be written: those of cuts.
    pub fn new(
        alloc: Global,
        rows: usize,
        columns: usize,
        first: usize,
        fractions: Vec<Frac>,
    ) -> Result<PartEntries, AllocError>
        requires size { length fractions.items ≡ rows * columns }
        requires room { rows * columns < 2 ^ 64 }
        ensures rows { IfOk result (λ v. v.rows ≡ rows) }
        ensures columns { IfOk result (λ v. v.columns ≡ columns) }
        ensures filled { IfOk result (λ v. (slots : ℕ → ℕ) → ((j : ℕ) → j < columns → slots j ≡ rows + j) → filled v slots ≡ fractions.items) }
    {
        let entries = match TableEntries::new(alloc, fractions) {
            Ok(entries) => entries,
            Err(error) => return Err(error),
        };
        if first < rows {
            if entries.is_whole() {
                return partly_written(alloc, rows, columns, first, entries);
            }
        }
        all_written(alloc, rows, columns, entries)
    }

    /// The entries of a slack table, which these numbers are, as `new`.
    pub fn of_numbers(
        alloc: Global,
        rows: usize,
        columns: usize,
        first: usize,
        numbers: Vec<i64>,
    ) -> Result<PartEntries, AllocError>
        requires size { length numbers.items ≡ rows * columns }
        requires room { rows * columns < 2 ^ 64 }
        requires short { AreShort numbers.items }
        ensures rows { IfOk result (λ v. v.rows ≡ rows) }
        ensures columns { IfOk result (λ v. v.columns ≡ columns) }
        ensures filled { IfOk result (λ v. (slots : ℕ → ℕ) → ((j : ℕ) → j < columns → slots j ≡ rows + j) → filled v slots ≡ over (pos 1) numbers.items) }
    {
        let entries = match TableEntries::of_numbers(alloc, numbers) {
            Ok(entries) => entries,
            Err(error) => return Err(error),
        };
        if first < rows {
            if entries.is_whole() {
                return partly_written(alloc, rows, columns, first, entries);
            }
        }
        all_written(alloc, rows, columns, entries)
    }

    /// The entry of a row and a place.
    pub fn at(&self, slots: &[usize], row: usize, place: usize) -> Frac
        requires row { row < self.now.rows }
        requires place { place < self.now.columns }
        requires slots { AreColumnsWritten self.now (λ j. get_or slots.now j 0) }
        requires length { self.now.columns ≤ length slots.now }
        ensures { result ≡ dense_entry self.now.columns (filled self.now (λ j. get_or slots.now j 0)) row place }
    {
        if self.unwritten[row] {
            return fraction(self.number(slots, row, place), self.entries.denominator());
        }
        self.entries
            .at(flat_index(self.rows, self.columns, row, place))
    }

    /// The number at a place of a row that is not written, over the denominator.
    fn number(&self, slots: &[usize], row: usize, place: usize) -> i64
        requires row { row < self.now.rows }
        requires place { place < self.now.columns }
        requires slots { AreColumnsWritten self.now (λ j. get_or slots.now j 0) }
        requires length { self.now.columns ≤ length slots.now }
        requires unwritten { is_unwritten self.now.unwritten row ≡ true }
        ensures short { IsShort result }
        ensures whole { self.now.entries.is_whole ≡ true }
        ensures positive { pos 0 <ℤ self.now.entries.denominator }
        ensures value { dense_entry self.now.columns (filled self.now (λ j. get_or slots.now j 0)) row place ≡ quotient_of result self.now.entries.denominator }
    {
        unwritten_number(
            &self.entries,
            self.rows,
            self.columns,
            &self.coefficients,
            slots,
            row,
            place,
        )
    }

    /// Whether the entry of a row and a place is 0.
    pub fn is_zero(&self, slots: &[usize], row: usize, place: usize) -> bool
        requires row { row < self.now.rows }
        requires place { place < self.now.columns }
        requires slots { AreColumnsWritten self.now (λ j. get_or slots.now j 0) }
        requires length { self.now.columns ≤ length slots.now }
        ensures { IsTrue result ↔ dense_entry self.now.columns (filled self.now (λ j. get_or slots.now j 0)) row place ≡ int (pos 0) }
    {
        if self.unwritten[row] {
            return is_nothing(self.number(slots, row, place));
        }
        self.entries
            .is_zero(flat_index(self.rows, self.columns, row, place))
    }

    /// The common denominator of the entries where they are kept as whole numbers, and else 1.
    pub fn denominator(&self) -> i64
        ensures positive { pos 0 <ℤ result }
        ensures short { IsShort result }
    {
        self.entries.denominator()
    }

    /// The common denominator of all entries, if they are whole numbers over one.
    pub fn whole_denominator(&self) -> Option<i64>
        ensures positive { IfSome result (λ d. pos 0 <ℤ d) }
        ensures short { IfSome result (λ d. IsShort d) }
        ensures entries { IfSome result (λ d. (slots : ℕ → ℕ) → AreColumnsWritten self.now slots → (i k : ℕ) → i < self.now.rows → k < self.now.columns → IsShortOver d (dense_entry self.now.columns (filled self.now slots) i k)) }
    {
        if self.entries.is_whole() {
            Some(self.entries.denominator())
        } else {
            None
        }
    }

    /// The entry of a row and a place, as a number over this denominator, if it is kept so.
    pub fn number_over(
        &self,
        slots: &[usize],
        row: usize,
        place: usize,
        denominator: i64,
    ) -> Option<i64>
        requires row { row < self.now.rows }
        requires place { place < self.now.columns }
        requires slots { AreColumnsWritten self.now (λ j. get_or slots.now j 0) }
        requires length { self.now.columns ≤ length slots.now }
        ensures short { IfSome result (λ n. IsShort n) }
        ensures value { IfSome result (λ n. dense_entry self.now.columns (filled self.now (λ j. get_or slots.now j 0)) row place ≡ quotient_of n denominator) }
    {
        if self.unwritten[row] {
            let number = self.number(slots, row, place);
            if self.entries.denominator() == denominator {
                return Some(number);
            }
            return None;
        }
        self.entries.number_over(flat_index(self.rows, self.columns, row, place), denominator)
    }

    /// The numbers of a row over this denominator, if it is written and its entries are kept so.
    #[inline]
    pub fn row_over(&self, row: usize, denominator: i64) -> Option<&[i64]>
        requires { row < self.now.rows }
        ensures length { IfSome result (λ r. length r.now ≡ self.now.columns) }
        ensures short { IfSome result (λ r. AreShort r.now) }
        ensures value { IfSome result (λ r. (slots : ℕ → ℕ) (k : ℕ) → k < self.now.columns → dense_entry self.now.columns (filled self.now slots) row k ≡ quotient_of (whole_number_at r.now k) denominator) }
    {
        if self.unwritten[row] {
            return None;
        }
        match self.entries.numbers_over(denominator) {
            Some(numbers) => Some(row_of(self.rows, self.columns, row, numbers)),
            None => None,
        }
    }

    /// The numbers of all rows over this denominator, row by row, if the entries are kept so. Those of a row that is not written are
    /// of no meaning.
    #[inline]
    pub fn numbers_over(&self, denominator: i64) -> Option<&[i64]>
        ensures length { IfSome result (λ r. length r.now ≡ self.now.rows * self.now.columns) }
        ensures short { IfSome result (λ r. AreShort r.now) }
        ensures value { IfSome result (λ r. (slots : ℕ → ℕ) (i k : ℕ) → i < self.now.rows → k < self.now.columns → is_unwritten self.now.unwritten i ≡ false → dense_entry self.now.columns (filled self.now slots) i k ≡ quotient_of (whole_number_at r.now (i * self.now.columns + k)) denominator) }
    {
        self.entries.numbers_over(denominator)
    }

    /// Writes a row that is not written, and tells whether that stands: it does where its numbers are below the limit.
    fn write_within(&mut self, slots: &[usize], row: usize) -> bool
        requires row { row < self.old.rows }
        requires slots { AreColumnsWritten self.old (λ j. get_or slots.now j 0) }
        requires length { self.old.columns ≤ length slots.now }
        requires unwritten { is_unwritten self.old.unwritten row ≡ true }
        ensures rows { self.new.rows ≡ self.old.rows }
        ensures columns { self.new.columns ≡ self.old.columns }
        ensures filled { filled self.new (λ j. get_or slots.now j 0) ≡ filled self.old (λ j. get_or slots.now j 0) }
        ensures columns_written { AreColumnsWritten self.new (λ j. get_or slots.now j 0) }
        ensures written { IsTrue result → is_unwritten self.new.unwritten row ≡ false }
    {
        write_numbers(
            &mut self.entries,
            self.rows,
            self.columns,
            &self.coefficients,
            slots,
            row,
        );
        if !is_row_below(&self.entries, self.rows, self.columns, row, self.limit) {
            return false;
        }
        self.unwritten[row] = false;
        true
    }

    /// Writes all rows. No entry changes.
    pub fn write_all(&mut self, slots: &[usize])
        requires slots { AreColumnsWritten self.old (λ j. get_or slots.now j 0) }
        requires length { self.old.columns ≤ length slots.now }
        ensures rows { self.new.rows ≡ self.old.rows }
        ensures columns { self.new.columns ≡ self.old.columns }
        ensures filled { filled self.new (λ j. get_or slots.now j 0) ≡ filled self.old (λ j. get_or slots.now j 0) }
        ensures full { self.new.is_partial ≡ false }
        ensures written { (i : ℕ) → is_unwritten self.new.unwritten i ≡ false }
    {
        if !self.is_partial {
            return;
        }
        write_rows(
            &mut self.entries,
            self.rows,
            self.columns,
            &self.coefficients,
            slots,
            &mut self.unwritten,
        );
        self.is_partial = false;
    }

    /// Writes a row, and where it has numbers that are not below the limit, all rows. No entry changes.
    pub fn write_row(&mut self, slots: &[usize], row: usize)
        requires row { row < self.old.rows }
        requires slots { AreColumnsWritten self.old (λ j. get_or slots.now j 0) }
        requires length { self.old.columns ≤ length slots.now }
        ensures rows { self.new.rows ≡ self.old.rows }
        ensures columns { self.new.columns ≡ self.old.columns }
        ensures filled { filled self.new (λ j. get_or slots.now j 0) ≡ filled self.old (λ j. get_or slots.now j 0) }
        ensures columns_written { AreColumnsWritten self.new (λ j. get_or slots.now j 0) }
        ensures written { is_unwritten self.new.unwritten row ≡ false }
    {
        if self.unwritten[row] {
            if self.write_within(slots, row) {
                return;
            }
            self.write_all(slots);
        }
    }

    /// Exchanges the rows that are written, and so all, if numbers stay below the limit. False where they don't, or where all
    /// rows are written; then nothing changes.
    fn exchange_part(&mut self, row: usize, place: usize) -> bool
        requires row { row < self.old.rows }
        requires place { place < self.old.columns }
        requires written { is_unwritten self.old.unwritten row ≡ false }
        requires some { dense_entry self.old.columns self.old.entries.list row place ≢ int (pos 0) }
        ensures rows { self.new.rows ≡ self.old.rows }
        ensures columns { self.new.columns ≡ self.old.columns }
        ensures unwritten { self.new.unwritten ≡ self.old.unwritten }
        ensures done { IsTrue result → (slots : ℕ → ℕ) (entering leaving : ℕ) → AreColumnsWritten self.old slots → IsSwap self.old.columns slots row (self.old.rows + place) entering leaving → IsExchangedList self.old.columns row place (filled self.old slots) (filled self.new (swapped slots row (self.old.rows + place) entering leaving)) }
        ensures kept { result ≡ false → self.new ≡ self.old }
    {
        if !self.is_partial {
            return false;
        }
        self.entries.exchange_part(
            self.rows,
            self.columns,
            row,
            place,
            &self.unwritten,
            self.limit,
        )
    }

    /// Exchanges where all rows are written.
    fn exchange_all(&mut self, row: usize, place: usize) -> Result<(), usize>
        requires row { row < self.old.rows }
        requires place { place < self.old.columns }
        requires full { self.old.is_partial ≡ false }
        requires some { dense_entry self.old.columns self.old.entries.list row place ≢ int (pos 0) }
        ensures rows { self.new.rows ≡ self.old.rows }
        ensures columns { self.new.columns ≡ self.old.columns }
        ensures written { (i : ℕ) → is_unwritten self.new.unwritten i ≡ false }
        ensures before { (slots : ℕ → ℕ) → filled self.old slots ≡ self.old.entries.list }
        ensures after { (slots : ℕ → ℕ) → filled self.new slots ≡ self.new.entries.list }
        ensures done { OnOk result (IsExchangedList self.old.columns row place self.old.entries.list self.new.entries.list) }
        ensures kept { OnErr result (self.new.entries.list ≡ self.old.entries.list) }
        ensures within { IfErr result (λ e. e < self.old.rows * self.old.columns) }
        ensures earlier { IfErr result (λ e. (at : ℕ) → at < e → FlatFits self.old.columns row place self.old.entries.list at) }
        ensures wide { IfErr result (λ e. ¬ (FlatFits self.old.columns row place self.old.entries.list e)) }
    {
        self.entries.exchange(self.rows, self.columns, row, place)
    }

    /// Exchanges a row and a place, or finds the first entry, row by row, whose step has no room; then no entry changes.
    pub fn exchange(&mut self, slots: &[usize], row: usize, place: usize) -> Result<(), usize>
        requires row { row < self.old.rows }
        requires place { place < self.old.columns }
        requires slots { AreColumnsWritten self.old (λ j. get_or slots.now j 0) }
        requires length { self.old.columns ≤ length slots.now }
        requires some { dense_entry self.old.columns (filled self.old (λ j. get_or slots.now j 0)) row place ≢ int (pos 0) }
        ensures rows { self.new.rows ≡ self.old.rows }
        ensures columns { self.new.columns ≡ self.old.columns }
        ensures done { OnOk result ((entering leaving : ℕ) → IsSwap self.old.columns (λ j. get_or slots.now j 0) row (self.old.rows + place) entering leaving → IsExchangedList self.old.columns row place (filled self.old (λ j. get_or slots.now j 0)) (filled self.new (swapped (λ j. get_or slots.now j 0) row (self.old.rows + place) entering leaving))) }
        ensures columns_written { OnOk result ((entering leaving : ℕ) → IsSwap self.old.columns (λ j. get_or slots.now j 0) row (self.old.rows + place) entering leaving → AreColumnsWritten self.new (swapped (λ j. get_or slots.now j 0) row (self.old.rows + place) entering leaving)) }
        ensures kept { OnErr result (filled self.new (λ j. get_or slots.now j 0) ≡ filled self.old (λ j. get_or slots.now j 0)) }
        ensures kept_columns { OnErr result (AreColumnsWritten self.new (λ j. get_or slots.now j 0)) }
        ensures within { IfErr result (λ e. e < self.old.rows * self.old.columns) }
        ensures earlier { IfErr result (λ e. (at : ℕ) → at < e → FlatFits self.old.columns row place (filled self.old (λ j. get_or slots.now j 0)) at) }
        ensures wide { IfErr result (λ e. ¬ (FlatFits self.old.columns row place (filled self.old (λ j. get_or slots.now j 0)) e)) }
    {
        self.write_row(slots, row);
        if self.exchange_part(row, place) {
            return Ok(());
        }
        self.write_all(slots);
        self.exchange_all(row, place)
    }
}
