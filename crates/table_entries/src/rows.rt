// The entries of a table after an exchange, row by row. Each quotient of the leaving row is formed once, an entry that
// keeps its number takes no arithmetic, and a row without an entry in the entering place is not touched.
ghost use Rattle.std.specs.Prelude.{◌≡◌, ◌≢◌, ◌↔◌, ◌<◌, ◌+◌, ◌*◌, ◌^◌, ℕ, pos, length, get_or, IsTrue, OkIff, OnOk, OnErr};
ghost use Rattle.frac128.specs.Rational.{int};
ghost use Rattle.table_entries.specs.Relaxation.{pivoted_entry};
ghost use Rattle.table_entries.specs.Steps.{EntryFits};
ghost use Rattle.table_entries.specs.FlatSteps.{dense_entry};
ghost use Rattle.frac128.specs.Range.{Fits};
ghost use Rattle.table_entries.specs.private.RowSteps.{MovedFits, moved_value, IsLeftAlone, IsTakenRow};

use crate::entries::{exchanged, flat_index};
use frac128::{Frac, Wide};

/// The entry of another row than the leaving one after the exchange, by the pivot, the entry of the entering place, the
/// leaving row's entry after the exchange, and the entry before.
fn moved(
    is_place: bool,
    pivot: &Frac,
    in_place: &Frac,
    after: &Frac,
    entry: &Frac,
) -> Result<Frac, Wide>
    requires { pivot.now ≢ int (pos 0) }
    ensures { OkIff result (MovedFits is_place pivot.now in_place.now after.now entry.now) (moved_value is_place pivot.now in_place.now after.now entry.now) }
{
    entry.has_room();
    if is_place {
        return in_place.div(pivot);
    }
    if in_place.is_zero() {
        return Ok(*entry);
    }
    if after.is_zero() {
        return Ok(*entry);
    }
    entry.add_product(in_place, after)
}

/// Writes the leaving row after the exchange into `next`, if each of its steps has room.
fn write_leaving(
    rows: usize,
    columns: usize,
    row: usize,
    place: usize,
    entries: &[Frac],
    next: &mut [Frac],
) -> Result<(), Wide>
    requires row { row < rows }
    requires place { place < columns }
    requires size { length entries.now ≡ rows * columns }
    requires room { length next.old ≡ rows * columns }
    requires some { get_or entries.now (row * columns + place) (int (pos 0)) ≢ int (pos 0) }
    ensures written { OnOk result ((k : ℕ) → k < columns → get_or next.new (row * columns + k) (int (pos 0)) ≡ pivoted_entry (dense_entry columns entries.now) row place row k) }
    ensures fits { OnOk result ((k : ℕ) → k < columns → EntryFits (dense_entry columns entries.now) row place row k) }
    ensures wide { OnErr result ((k : ℕ) × ((k < columns) × (¬ (EntryFits (dense_entry columns entries.now) row place row k)))) }
{
    let pivot = entries[flat_index(rows, columns, row, place)];
    for at_place in 0..columns {
        let at = flat_index(rows, columns, row, at_place);
        let in_row = entries[at];
        match exchanged(true, at_place == place, &pivot, &in_row, &pivot, &in_row) {
            Ok(entry) => next[at] = entry,
            Err(wide) => return Err(wide),
        }
    }
    Ok(())
}

/// Writes another row after the exchange into `next`, where the leaving one stands already, if each of its steps has room.
fn write_row(
    rows: usize,
    columns: usize,
    row: usize,
    place: usize,
    at_row: usize,
    entries: &[Frac],
    next: &mut [Frac],
) -> Result<(), Wide>
    requires row { row < rows }
    requires place { place < columns }
    requires at_row { at_row < rows }
    requires other { at_row ≢ row }
    requires size { length entries.now ≡ rows * columns }
    requires room { length next.old ≡ rows * columns }
    requires some { get_or entries.now (row * columns + place) (int (pos 0)) ≢ int (pos 0) }
    requires leaving { (k : ℕ) → k < columns → get_or next.old (row * columns + k) (int (pos 0)) ≡ pivoted_entry (dense_entry columns entries.now) row place row k }
    requires leaving_fits { (k : ℕ) → k < columns → EntryFits (dense_entry columns entries.now) row place row k }
    ensures written { OnOk result ((k : ℕ) → k < columns → get_or next.new (at_row * columns + k) (int (pos 0)) ≡ pivoted_entry (dense_entry columns entries.now) row place at_row k) }
    ensures fits { OnOk result ((k : ℕ) → k < columns → EntryFits (dense_entry columns entries.now) row place at_row k) }
    ensures wide { OnErr result ((k : ℕ) × ((k < columns) × (¬ (EntryFits (dense_entry columns entries.now) row place at_row k)))) }
    ensures others { (i k : ℕ) → i ≢ at_row → k < columns → get_or next.new (i * columns + k) (int (pos 0)) ≡ get_or next.old (i * columns + k) (int (pos 0)) }
{
    let pivot = entries[flat_index(rows, columns, row, place)];
    let in_place = entries[flat_index(rows, columns, at_row, place)];
    for at_place in 0..columns {
        let after = next[flat_index(rows, columns, row, at_place)];
        let at = flat_index(rows, columns, at_row, at_place);
        match moved(at_place == place, &pivot, &in_place, &after, &entries[at]) {
            Ok(entry) => next[at] = entry,
            Err(wide) => return Err(wide),
        }
    }
    Ok(())
}

/// Whether the exchange leaves a row alone: it is not the leaving one, and has no entry in the entering place.
fn is_left_alone(
    rows: usize,
    columns: usize,
    row: usize,
    place: usize,
    at_row: usize,
    entries: &[Frac],
) -> bool
    requires place { place < columns }
    requires at_row { at_row < rows }
    requires size { length entries.now ≡ rows * columns }
    ensures { IsTrue result ↔ IsLeftAlone (dense_entry columns entries.now) row place at_row }
{
    if at_row == row {
        return false;
    }
    entries[flat_index(rows, columns, at_row, place)].is_zero()
}

/// Nothing happens: a caller learns that the entries of a row have room, as each does.
fn have_room(rows: usize, columns: usize, row: usize, entries: &[Frac])
    requires row { row < rows }
    requires size { length entries.now ≡ rows * columns }
    ensures { (k : ℕ) → k < columns → Fits (dense_entry columns entries.now row k) }
{
    for place in 0..columns {
        entries[flat_index(rows, columns, row, place)].has_room();
    }
}

/// Writes the rows after the exchange that it does not leave alone into `next`, if each step to any row has room.
fn write_by_rows(
    rows: usize,
    columns: usize,
    row: usize,
    place: usize,
    entries: &[Frac],
    next: &mut [Frac],
) -> Result<(), Wide>
    requires row { row < rows }
    requires place { place < columns }
    requires size { length entries.now ≡ rows * columns }
    requires room { length next.old ≡ rows * columns }
    requires some { get_or entries.now (row * columns + place) (int (pos 0)) ≢ int (pos 0) }
    ensures written { OnOk result ((i k : ℕ) → i < rows → k < columns → ¬ (IsLeftAlone (dense_entry columns entries.now) row place i) → get_or next.new (i * columns + k) (int (pos 0)) ≡ pivoted_entry (dense_entry columns entries.now) row place i k) }
    ensures fits { OnOk result ((i k : ℕ) → i < rows → k < columns → EntryFits (dense_entry columns entries.now) row place i k) }
    ensures wide { OnErr result ((i : ℕ) × ((k : ℕ) × ((i < rows) × ((k < columns) × (¬ (EntryFits (dense_entry columns entries.now) row place i k)))))) }
{
    match write_leaving(rows, columns, row, place, entries, next) {
        Ok(()) => {}
        Err(wide) => return Err(wide),
    }
    for at_row in 0..rows {
        if at_row != row {
            if is_left_alone(rows, columns, row, place, at_row, entries) {
                have_room(rows, columns, at_row, entries);
            } else {
                match write_row(rows, columns, row, place, at_row, entries, next) {
                    Ok(()) => {}
                    Err(wide) => return Err(wide),
                }
            }
        }
    }
    Ok(())
}

/// Copies a row.
fn take_row(rows: usize, columns: usize, row: usize, next: &[Frac], entries: &mut [Frac])
    requires row { row < rows }
    requires size { length entries.old ≡ rows * columns }
    requires next { length next.now ≡ rows * columns }
    ensures taken { (k : ℕ) → k < columns → dense_entry columns entries.new row k ≡ dense_entry columns next.now row k }
    ensures others { (i k : ℕ) → i ≢ row → k < columns → dense_entry columns entries.new i k ≡ dense_entry columns entries.old i k }
{
    for place in 0..columns {
        let at = flat_index(rows, columns, row, place);
        entries[at] = next[at];
    }
}

/// Copies the rows that the exchange does not leave alone.
fn take_rows(
    rows: usize,
    columns: usize,
    row: usize,
    place: usize,
    next: &[Frac],
    entries: &mut [Frac],
)
    requires place { place < columns }
    requires size { length entries.old ≡ rows * columns }
    requires next { length next.now ≡ rows * columns }
    ensures { (i : ℕ) → i < rows → IsTakenRow columns (dense_entry columns entries.old) row place next.now entries.new i }
{
    for at_row in 0..rows {
        if !is_left_alone(rows, columns, row, place, at_row, entries) {
            take_row(rows, columns, at_row, next, entries);
        }
    }
}

/// Exchanges the entries by rows, where each step has room; the rows that change are written into `next` first. Else nothing
/// changes.
pub fn exchange_by_rows(
    rows: usize,
    columns: usize,
    row: usize,
    place: usize,
    entries: &mut [Frac],
    next: &mut [Frac],
) -> Result<(), Wide>
    requires row { row < rows }
    requires place { place < columns }
    requires size { length entries.old ≡ rows * columns }
    requires room { length next.old ≡ rows * columns }
    requires some { get_or entries.old (row * columns + place) (int (pos 0)) ≢ int (pos 0) }
    ensures written { OnOk result ((i k : ℕ) → i < rows → k < columns → get_or entries.new (i * columns + k) (int (pos 0)) ≡ pivoted_entry (dense_entry columns entries.old) row place i k) }
    ensures fits { OnOk result ((i k : ℕ) → i < rows → k < columns → EntryFits (dense_entry columns entries.old) row place i k) }
    ensures kept { OnErr result (entries.new ≡ entries.old) }
    ensures wide { OnErr result ((i : ℕ) × ((k : ℕ) × ((i < rows) × ((k < columns) × (¬ (EntryFits (dense_entry columns entries.old) row place i k)))))) }
{
    match write_by_rows(rows, columns, row, place, entries, next) {
        Ok(()) => {
            take_rows(rows, columns, row, place, next, entries);
            Ok(())
        }
        Err(wide) => Err(wide),
    }
}
