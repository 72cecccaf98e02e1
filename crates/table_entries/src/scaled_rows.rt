// Rows exchanged over another denominator: a row without an entry in the entering place, other than the leaving one, is scaled.
ghost use Rattle.std.specs.Prelude.{◌≡◌, ◌≢◌, ◌<◌, ◌+◌, ◌*◌, ◌<ℤ◌, ◌*ℤ◌, pos, length, IsTrue, IfSome};
ghost use Rattle.table_entries.specs.WholeSteps.{IsShort, AreShort, AreWritten, whole_number_at};
ghost use Rattle.table_entries.specs.private.LeftRows.{IsWholeLeft};

use crate::entries::flat_index;
use crate::wholes::{
    Inverse, Way, are_32, has_32_bits, is_scaled_by_one, is_unwritten, product_64, scaled, way_of,
    write_whole_row,
};
use whole_sums::product;

/// The number of an entry from which nothing is taken, after the exchange, where the numbers have 32 bits. None says nothing of it.
#[inline(always)]
fn scaled_number_64(way: &Way, inverse: &Inverse, entry: i64) -> Option<i64>
    requires scale { IsShort way.now.scale }
    requires divisor { IsShort way.now.divisor }
    requires multiplier { IsShort way.now.multiplier }
    requires entry { IsShort entry }
    ensures short { IfSome result (λ n. IsShort n) }
    ensures product { IfSome result (λ n. n *ℤ way.now.divisor ≡ entry *ℤ way.now.scale *ℤ way.now.multiplier) }
{
    if !are_32(way.divisor, way.multiplier) {
        return None;
    }
    if !are_32(way.scale, entry) {
        return None;
    }
    let total = product_64(entry, way.scale);
    let quotient = inverse.guess_64(total);
    if !has_32_bits(quotient) {
        return None;
    }
    let back = product_64(quotient, way.divisor);
    if back == total {
        Some(product_64(quotient, way.multiplier))
    } else {
        None
    }
}

/// The number of an entry from which nothing is taken, after the exchange. None where a division is not exact, or where the number is
/// not short.
#[inline(always)]
fn scaled_number(way: &Way, inverse: &Inverse, entry: i64) -> Option<i64>
    requires scale { IsShort way.now.scale }
    requires divisor { IsShort way.now.divisor }
    requires multiplier { IsShort way.now.multiplier }
    requires entry { IsShort entry }
    ensures short { IfSome result (λ n. IsShort n) }
    ensures product { IfSome result (λ n. n *ℤ way.now.divisor ≡ entry *ℤ way.now.scale *ℤ way.now.multiplier) }
{
    if is_scaled_by_one(way, entry) {
        return Some(entry);
    }
    if let Some(number) = scaled_number_64(way, inverse, entry) {
        return Some(number);
    }
    scaled(product(entry, way.scale), way, inverse)
}

/// Writes the numbers of one row, another one than the leaving row and without an entry in the entering place, as `write_whole_row`.
fn write_scaled_row(
    rows: usize,
    columns: usize,
    row: usize,
    place: usize,
    denominator: i64,
    after: i64,
    numbers: &[i64],
    unwritten: &[bool],
    at_row: usize,
    next: &mut [i64],
) -> bool
    requires row { row < rows }
    requires place { place < columns }
    requires at_row { at_row < rows }
    requires left { IsWholeLeft columns row place numbers.now at_row }
    requires size { length numbers.now ≡ rows * columns }
    requires room { length next.old ≡ rows * columns }
    requires positive { pos 0 <ℤ denominator }
    requires denominator { IsShort denominator }
    requires after_positive { pos 0 <ℤ after }
    requires after { IsShort after }
    requires short { AreShort numbers.now }
    requires next { AreShort next.old }
    requires some { whole_number_at numbers.now (row * columns + place) ≢ pos 0 }
    requires earlier { AreWritten columns row place denominator after numbers.now unwritten.now next.old (at_row * columns) }
    ensures written { IsTrue result → AreWritten columns row place denominator after numbers.now unwritten.now next.new ((at_row + 1) * columns) }
    ensures short { AreShort next.new }
{
    if is_unwritten(unwritten, at_row) {
        return true;
    }
    let pivot = numbers[flat_index(rows, columns, row, place)];
    let in_place = numbers[flat_index(rows, columns, at_row, place)];
    let Some(way) = way_of(false, denominator, after, pivot, in_place) else {
        return false;
    };
    if way.factor != 0 {
        return false;
    }
    let inverse = Inverse::of(way.divisor);
    for at_place in 0..columns {
        let at = flat_index(rows, columns, at_row, at_place);
        match scaled_number(&way, &inverse, numbers[at]) {
            Some(number) => next[at] = number,
            None => return false,
        }
    }
    true
}

/// Whether a row is another one than the leaving row and has no entry in the entering place.
fn is_scaled(
    rows: usize,
    columns: usize,
    row: usize,
    place: usize,
    numbers: &[i64],
    at_row: usize,
) -> bool
    requires place { place < columns }
    requires at_row { at_row < rows }
    requires size { length numbers.now ≡ rows * columns }
    ensures { IsTrue result → IsWholeLeft columns row place numbers.now at_row }
{
    if at_row == row {
        return false;
    }
    numbers[flat_index(rows, columns, at_row, place)] == 0
}

/// Writes the numbers of one row after the exchange, as `write_whole_row`, with fewer steps where the row is scaled.
fn write_row_over(
    rows: usize,
    columns: usize,
    row: usize,
    place: usize,
    denominator: i64,
    after: i64,
    numbers: &[i64],
    unwritten: &[bool],
    at_row: usize,
    next: &mut [i64],
) -> bool
    requires row { row < rows }
    requires place { place < columns }
    requires at_row { at_row < rows }
    requires size { length numbers.now ≡ rows * columns }
    requires room { length next.old ≡ rows * columns }
    requires positive { pos 0 <ℤ denominator }
    requires denominator { IsShort denominator }
    requires after_positive { pos 0 <ℤ after }
    requires after { IsShort after }
    requires short { AreShort numbers.now }
    requires next { AreShort next.old }
    requires some { whole_number_at numbers.now (row * columns + place) ≢ pos 0 }
    requires earlier { AreWritten columns row place denominator after numbers.now unwritten.now next.old (at_row * columns) }
    ensures written { IsTrue result → AreWritten columns row place denominator after numbers.now unwritten.now next.new ((at_row + 1) * columns) }
    ensures short { AreShort next.new }
{
    if is_scaled(rows, columns, row, place, numbers, at_row) {
        return write_scaled_row(
            rows,
            columns,
            row,
            place,
            denominator,
            after,
            numbers,
            unwritten,
            at_row,
            next,
        );
    }
    write_whole_row(
        rows,
        columns,
        row,
        place,
        denominator,
        after,
        numbers,
        unwritten,
        at_row,
        next,
    )
}

/// Writes the numbers after the exchange, over a denominator, into `next`, those of rows that are not written left out. False where
/// one can't be had.
pub fn write_wholes(
    rows: usize,
    columns: usize,
    row: usize,
    place: usize,
    denominator: i64,
    after: i64,
    numbers: &[i64],
    unwritten: &[bool],
    next: &mut [i64],
) -> bool
    requires row { row < rows }
    requires place { place < columns }
    requires size { length numbers.now ≡ rows * columns }
    requires room { length next.old ≡ rows * columns }
    requires positive { pos 0 <ℤ denominator }
    requires denominator { IsShort denominator }
    requires after_positive { pos 0 <ℤ after }
    requires after { IsShort after }
    requires short { AreShort numbers.now }
    requires next { AreShort next.old }
    requires some { whole_number_at numbers.now (row * columns + place) ≢ pos 0 }
    ensures written { IsTrue result → AreWritten columns row place denominator after numbers.now unwritten.now next.new (rows * columns) }
    ensures short { AreShort next.new }
{
    for at_row in 0..rows {
        if !write_row_over(
            rows,
            columns,
            row,
            place,
            denominator,
            after,
            numbers,
            unwritten,
            at_row,
            next,
        ) {
            return false;
        }
    }
    true
}
