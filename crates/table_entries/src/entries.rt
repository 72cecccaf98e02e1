// The entries of a table after an exchange, one by one.
ghost use Rattle.std.specs.Prelude.{◌≡◌, ◌≢◌, ◌<◌, ◌≤◌, ◌+◌, ◌*◌, ◌^◌, ℕ, pos, length, get_or, OkIff, OnOk, IfErr, OnErr};
ghost use Rattle.frac128.specs.Rational.{int};
ghost use Rattle.table_entries.specs.Steps.{PivotStepFits, step_value};
ghost use Rattle.table_entries.specs.FlatSteps.{FlatFits, flat_value};

use crate::rows::exchange_by_rows;
use frac128::{Frac, Wide};

/// The place of an entry whose step has no room.
#[derive(Clone, Copy)]
pub struct WideEntry {
    pub row: usize,
    pub place: usize,
}

/// The place of an entry in the list of all entries, row by row.
pub fn flat_index(rows: usize, columns: usize, row: usize, place: usize) -> usize
    requires row { row < rows }
    requires place { place < columns }
    requires room { rows * columns < 2 ^ 64 }
    ensures value { result ≡ row * columns + place }
    ensures within { result < rows * columns }
{
    row * columns + place
}

/// The entry after the exchange, by the pivot, the entry of the leaving row, that of the entering place, and the entry before.
pub fn exchanged(
    is_row: bool,
    is_place: bool,
    pivot: &Frac,
    in_row: &Frac,
    in_place: &Frac,
    entry: &Frac,
) -> Result<Frac, Wide>
    requires { pivot.now ≢ int (pos 0) }
    ensures { OkIff result (PivotStepFits is_row is_place pivot.now in_row.now in_place.now entry.now) (step_value is_row is_place pivot.now in_row.now in_place.now entry.now) }
{
    if is_row {
        if is_place {
            return Ok(pivot.reciprocal());
        }
        return match in_row.div(pivot) {
            Ok(quotient) => Ok(quotient.neg()),
            Err(wide) => Err(wide),
        };
    }
    if is_place {
        return in_place.div(pivot);
    }
    let quotient = match in_row.div(pivot) {
        Ok(quotient) => quotient,
        Err(wide) => return Err(wide),
    };
    match in_place.mul(&quotient) {
        Ok(product) => entry.sub(&product),
        Err(wide) => Err(wide),
    }
}

/// Writes the entries after the exchange into `next`, step by step, up to the first whose step has no room.
fn write_by_steps(
    rows: usize,
    columns: usize,
    row: usize,
    place: usize,
    entries: &[Frac],
    next: &mut [Frac],
) -> Result<(), usize>
    requires row { row < rows }
    requires place { place < columns }
    requires size { length entries.now ≡ rows * columns }
    requires room { length next.old ≡ rows * columns }
    requires some { get_or entries.now (row * columns + place) (int (pos 0)) ≢ int (pos 0) }
    ensures written { OnOk result ((at : ℕ) → at < rows * columns → get_or next.new at (int (pos 0)) ≡ flat_value columns row place entries.now at) }
    ensures fits { OnOk result ((at : ℕ) → at < rows * columns → FlatFits columns row place entries.now at) }
    ensures within { IfErr result (λ e. e < rows * columns) }
    ensures earlier { IfErr result (λ e. (at : ℕ) → at < e → FlatFits columns row place entries.now at) }
    ensures wide { IfErr result (λ e. ¬ (FlatFits columns row place entries.now e)) }
{
    let pivot = entries[flat_index(rows, columns, row, place)];
    for at in 0..entries.len() {
        let at_row = at / columns;
        let at_place = at % columns;
        let in_row = entries[flat_index(rows, columns, row, at_place)];
        let in_place = entries[flat_index(rows, columns, at_row, place)];
        match exchanged(
            at_row == row,
            at_place == place,
            &pivot,
            &in_row,
            &in_place,
            &entries[at],
        ) {
            Ok(entry) => next[at] = entry,
            Err(_) => return Err(at),
        }
    }
    Ok(())
}

/// Exchanges the entries, or finds the first whose step has no room; then none changes. The second list takes entries on the
/// way.
pub fn exchange_entries(
    rows: usize,
    columns: usize,
    row: usize,
    place: usize,
    entries: &mut [Frac],
    next: &mut [Frac],
) -> Result<(), usize>
    requires row { row < rows }
    requires place { place < columns }
    requires size { length entries.old ≡ rows * columns }
    requires room { length next.old ≡ rows * columns }
    requires some { get_or entries.old (row * columns + place) (int (pos 0)) ≢ int (pos 0) }
    ensures written { OnOk result ((at : ℕ) → at < rows * columns → get_or entries.new at (int (pos 0)) ≡ flat_value columns row place entries.old at) }
    ensures fits { OnOk result ((at : ℕ) → at < rows * columns → FlatFits columns row place entries.old at) }
    ensures kept { OnErr result (entries.new ≡ entries.old) }
    ensures within { IfErr result (λ e. e < rows * columns) }
    ensures earlier { IfErr result (λ e. (at : ℕ) → at < e → FlatFits columns row place entries.old at) }
    ensures wide { IfErr result (λ e. ¬ (FlatFits columns row place entries.old e)) }
{
    match exchange_by_rows(rows, columns, row, place, entries, next) {
        Ok(()) => Ok(()),
        Err(_) => match write_by_steps(rows, columns, row, place, entries, next) {
            Ok(()) => unreachable!(),
            Err(at) => Err(at),
        },
    }
}
