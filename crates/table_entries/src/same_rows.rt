// Rows exchanged over the same denominator: a row keeps its numbers where the leaving row has no entry, so only the places of that
// row's entries are gone to.
ghost use Rattle.std.specs.Prelude.{◌≡◌, ◌≢◌, ◌<◌, ◌≤◌, ◌+◌, ◌*◌, ℕ, ℤ, List, pos, length, ◌<ℤ◌, IsTrue};
ghost use Rattle.table_entries.specs.WholeSteps.{IsShort, AreShort, AreWritten, whole_number_at};
ghost use Rattle.table_entries.specs.private.NextEntries.{HasNoEntryBetween, AreNextEntries};

use crate::entries::flat_index;
use crate::wholes::{Inverse, exchanged_number, is_unwritten, take_row, way_of, write_whole_row};

/// For so many places of the leaving row the next entry is noted. Behind them each place is gone to.
const MOST_PLACES: usize = 1_024;

/// Tables of at most so many places take a shorter list, of which fewer bytes are cleared.
const FEW_PLACES: usize = 128;

/// Whether a row has no entry at a place.
fn is_nothing_at(rows: usize, columns: usize, row: usize, place: usize, numbers: &[i64]) -> bool
    requires row { row < rows }
    requires place { place < columns }
    requires size { length numbers.now ≡ rows * columns }
    ensures { IsTrue result → whole_number_at numbers.now (row * columns + place) ≡ pos 0 }
{
    numbers[flat_index(rows, columns, row, place)] == 0
}

/// The next place of an entry of a row from this place on, by the next one behind it.
fn next_from(
    rows: usize,
    columns: usize,
    row: usize,
    place: usize,
    numbers: &[i64],
    behind: usize,
) -> usize
    requires row { row < rows }
    requires place { place < columns }
    requires size { length numbers.now ≡ rows * columns }
    requires behind { HasNoEntryBetween columns numbers.now row (place + 1) behind }
    ensures { HasNoEntryBetween columns numbers.now row place result }
{
    if is_nothing_at(rows, columns, row, place, numbers) {
        behind
    } else {
        place
    }
}

/// Writes for each of the first places of a row the next one, itself included, at which the row has an entry, and their count where
/// there is none.
fn write_next_entries(
    rows: usize,
    columns: usize,
    row: usize,
    numbers: &[i64],
    count: usize,
    nexts: &mut [usize],
)
    requires row { row < rows }
    requires size { length numbers.now ≡ rows * columns }
    requires count { count ≤ columns }
    requires room { count ≤ length nexts.old }
    ensures { AreNextEntries columns numbers.now row nexts.new count }
{
    let mut at = count;
    for behind in 0..count {
        let place = count - 1 - behind;
        let here = next_from(rows, columns, row, place, numbers, at);
        nexts[place] = here;
        at = here;
    }
}

/// The next place of an entry from a place on, as far as it is noted, and the place itself where it isn't.
#[inline(always)]
fn next_entry(nexts: &[usize], known: usize, columns: usize, place: usize) -> usize
    requires { place ≤ columns }
    ensures from { place ≤ result }
    ensures within { result ≤ columns }
    ensures next { (row : ℕ) (numbers : List ℤ) → AreNextEntries columns numbers row nexts.now known → HasNoEntryBetween columns numbers row place result }
{
    if known <= place {
        return place;
    }
    if nexts.len() <= place {
        return place;
    }
    let far = nexts[place];
    if far <= place {
        return place;
    }
    if columns < far {
        return columns;
    }
    far
}

/// Writes the numbers of one row, another one than the leaving row, after an exchange over the same denominator behind those of the
/// rows before it, unless the row is not written. False where one can't be had.
fn write_same_row(
    rows: usize,
    columns: usize,
    row: usize,
    place: usize,
    denominator: i64,
    numbers: &[i64],
    unwritten: &[bool],
    nexts: &[usize],
    known: usize,
    at_row: usize,
    next: &mut [i64],
) -> bool
    requires row { row < rows }
    requires place { place < columns }
    requires at_row { at_row < rows }
    requires other { at_row ≢ row }
    requires size { length numbers.now ≡ rows * columns }
    requires room { length next.old ≡ rows * columns }
    requires positive { pos 0 <ℤ denominator }
    requires denominator { IsShort denominator }
    requires short { AreShort numbers.now }
    requires next { AreShort next.old }
    requires some { whole_number_at numbers.now (row * columns + place) ≢ pos 0 }
    requires nexts { AreNextEntries columns numbers.now row nexts.now known }
    requires earlier { AreWritten columns row place denominator denominator numbers.now unwritten.now next.old (at_row * columns) }
    ensures written { IsTrue result → AreWritten columns row place denominator denominator numbers.now unwritten.now next.new ((at_row + 1) * columns) }
    ensures short { AreShort next.new }
{
    if is_unwritten(unwritten, at_row) {
        return true;
    }
    let pivot = numbers[flat_index(rows, columns, row, place)];
    let in_place = numbers[flat_index(rows, columns, at_row, place)];
    let Some(way) = way_of(false, denominator, denominator, pivot, in_place) else {
        return false;
    };
    let inverse = Inverse::of(way.divisor);
    take_row(rows, columns, at_row, numbers, next);
    let mut at_place = next_entry(nexts, known, columns, 0);
    while at_place < columns {
        let at = flat_index(rows, columns, at_row, at_place);
        let in_row = numbers[flat_index(rows, columns, row, at_place)];
        match exchanged_number(
            at_place == place,
            denominator,
            &way,
            &inverse,
            in_row,
            numbers[at],
        ) {
            Some(number) => next[at] = number,
            None => return false,
        }
        at_place = next_entry(nexts, known, columns, at_place + 1);
    }
    true
}

/// Writes the numbers of one row after an exchange over the same denominator, as `write_same_row`, the leaving row among them.
fn write_row_over_same(
    rows: usize,
    columns: usize,
    row: usize,
    place: usize,
    denominator: i64,
    numbers: &[i64],
    unwritten: &[bool],
    nexts: &[usize],
    known: usize,
    at_row: usize,
    next: &mut [i64],
) -> bool
    requires row { row < rows }
    requires place { place < columns }
    requires at_row { at_row < rows }
    requires size { length numbers.now ≡ rows * columns }
    requires room { length next.old ≡ rows * columns }
    requires positive { pos 0 <ℤ denominator }
    requires denominator { IsShort denominator }
    requires short { AreShort numbers.now }
    requires next { AreShort next.old }
    requires some { whole_number_at numbers.now (row * columns + place) ≢ pos 0 }
    requires nexts { AreNextEntries columns numbers.now row nexts.now known }
    requires earlier { AreWritten columns row place denominator denominator numbers.now unwritten.now next.old (at_row * columns) }
    ensures written { IsTrue result → AreWritten columns row place denominator denominator numbers.now unwritten.now next.new ((at_row + 1) * columns) }
    ensures short { AreShort next.new }
{
    if at_row == row {
        return write_whole_row(
            rows,
            columns,
            row,
            place,
            denominator,
            denominator,
            numbers,
            unwritten,
            at_row,
            next,
        );
    }
    write_same_row(
        rows,
        columns,
        row,
        place,
        denominator,
        numbers,
        unwritten,
        nexts,
        known,
        at_row,
        next,
    )
}

/// Writes the numbers after an exchange over the same denominator into `next`, those of rows that are not written left out. A list
/// takes the next entries of the leaving row. False where a number can't be had.
fn write_rows_over_same(
    rows: usize,
    columns: usize,
    row: usize,
    place: usize,
    denominator: i64,
    numbers: &[i64],
    unwritten: &[bool],
    nexts: &mut [usize],
    next: &mut [i64],
) -> bool
    requires row { row < rows }
    requires place { place < columns }
    requires size { length numbers.now ≡ rows * columns }
    requires room { length next.old ≡ rows * columns }
    requires positive { pos 0 <ℤ denominator }
    requires denominator { IsShort denominator }
    requires short { AreShort numbers.now }
    requires next { AreShort next.old }
    requires some { whole_number_at numbers.now (row * columns + place) ≢ pos 0 }
    ensures written { IsTrue result → AreWritten columns row place denominator denominator numbers.now unwritten.now next.new (rows * columns) }
    ensures short { AreShort next.new }
{
    let known = columns.min(nexts.len());
    write_next_entries(rows, columns, row, numbers, known, nexts);
    for at_row in 0..rows {
        if !write_row_over_same(
            rows,
            columns,
            row,
            place,
            denominator,
            numbers,
            unwritten,
            nexts,
            known,
            at_row,
            next,
        ) {
            return false;
        }
    }
    true
}

/// Writes the numbers after an exchange over the same denominator into `next`, those of rows that are not written left out. False
/// where one can't be had.
pub fn write_over_same(
    rows: usize,
    columns: usize,
    row: usize,
    place: usize,
    denominator: i64,
    numbers: &[i64],
    unwritten: &[bool],
    next: &mut [i64],
) -> bool
    requires row { row < rows }
    requires place { place < columns }
    requires size { length numbers.now ≡ rows * columns }
    requires room { length next.old ≡ rows * columns }
    requires positive { pos 0 <ℤ denominator }
    requires denominator { IsShort denominator }
    requires short { AreShort numbers.now }
    requires next { AreShort next.old }
    requires some { whole_number_at numbers.now (row * columns + place) ≢ pos 0 }
    ensures written { IsTrue result → AreWritten columns row place denominator denominator numbers.now unwritten.now next.new (rows * columns) }
    ensures short { AreShort next.new }
{
    if columns <= FEW_PLACES {
        let mut nexts = [0_usize; FEW_PLACES];
        return write_rows_over_same(
            rows,
            columns,
            row,
            place,
            denominator,
            numbers,
            unwritten,
            &mut nexts,
            next,
        );
    }
    let mut nexts = [0_usize; MOST_PLACES];
    write_rows_over_same(
        rows,
        columns,
        row,
        place,
        denominator,
        numbers,
        unwritten,
        &mut nexts,
        next,
    )
}
