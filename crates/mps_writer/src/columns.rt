// The lines of columns: their numbers, their markers and their bounds.
ghost use Rattle.std.specs.Prelude.{◌≡◌, ◌++◌, ◌∷◌, ◌<◌, [], length, map, flat_map, All, IfOk};
ghost use Rattle.lp_model.specs.Lawful.{row_name};
ghost use Rattle.mps_writer.specs.Canonical.{written_text, entry_lines, number_line, number_lines, own_lines, column_lines, bound_lines, lower_line, upper_line, entry_line, has_no_number, is_none};

use crate::puts::{put_bound, put_entry, put_nonzero, put_three};
use frac128::Frac;
use lp_model::{Bound, Col, Model, RowId, is_zero};
use std::alloc::AllocError;

/// The line of a column's number beside a row.
fn put_row_entry(
    text: &mut Vec<u8>,
    model: &Model,
    name: &[u8],
    entry: &(RowId, Frac),
) -> Result<(), AllocError>
    requires { entry.now.0.0 < length model.now.rows }
    ensures { IfOk result (λ _. text.new.items ≡ text.old.items ++ written_text (entry_line name.now (row_name model.now entry.now.0.0) entry.now.1 ∷ [])) }
{
    let row = &model.rows()[entry.0.0 as usize];
    put_entry(text, name, row.name.as_slice(), &entry.1)
}

/// The lines of a column's numbers beside rows.
fn put_entries(
    text: &mut Vec<u8>,
    model: &Model,
    column: &Col,
    entries: &[(RowId, Frac)],
) -> Result<(), AllocError>
    requires entries { entries.now ≡ column.now.rows }
    requires places { All (λ e. e.0.0 < length model.now.rows) entries.now }
    ensures { IfOk result (λ _. text.new.items ≡ text.old.items ++ written_text (entry_lines model.now column.now)) }
{
    for entry in entries {
        let Ok(()) = put_row_entry(text, model, column.name.as_slice(), entry) else {
            return Err(AllocError);
        };
    }
    Ok(())
}

fn is_none(entries: &[(RowId, Frac)]) -> bool
    ensures { result ≡ is_none entries.now }
{
    match entries {
        [] => true,
        _ => false,
    }
}

/// Whether both costs are 0 and there is no entry.
fn has_no_number(column: &Col) -> bool
    ensures { result ≡ has_no_number column.now }
{
    is_zero(&column.cost) && is_zero(&column.cost2) && is_none(column.rows.as_slice())
}

/// The lines of a column's numbers: its costs and those beside rows, in order.
fn put_all_numbers(text: &mut Vec<u8>, model: &Model, column: &Col) -> Result<(), AllocError>
    requires { All (λ e. e.0.0 < length model.now.rows) column.now.rows }
    ensures { IfOk result (λ _. text.new.items ≡ text.old.items ++ written_text (number_lines model.now column.now)) }
{
    let name = column.name.as_slice();
    let Ok(()) = put_nonzero(text, name, model.objective_name(1).as_slice(), &column.cost) else {
        return Err(AllocError);
    };
    let Ok(()) = put_nonzero(
        text,
        name,
        model.objective_name(2).as_slice(),
        &column.cost2,
    ) else {
        return Err(AllocError);
    };
    put_entries(text, model, column, column.rows.as_slice())
}

/// The same, or its cost of 0 where it has no number.
fn put_numbers(text: &mut Vec<u8>, model: &Model, column: &Col) -> Result<(), AllocError>
    requires { All (λ e. e.0.0 < length model.now.rows) column.now.rows }
    ensures { IfOk result (λ _. text.new.items ≡ text.old.items ++ written_text (own_lines model.now column.now)) }
{
    if has_no_number(column) {
        let name = column.name.as_slice();
        put_entry(text, name, model.objective_name(1).as_slice(), &column.cost)
    } else {
        put_all_numbers(text, model, column)
    }
}

/// The lines of a column, between markers where it is integer.
fn put_column(text: &mut Vec<u8>, model: &Model, column: &Col) -> Result<(), AllocError>
    requires { All (λ e. e.0.0 < length model.now.rows) column.now.rows }
    ensures { IfOk result (λ _. text.new.items ≡ text.old.items ++ written_text (column_lines model.now column.now)) }
{
    if !column.int {
        return put_numbers(text, model, column);
    }
    let Ok(()) = put_three(text, b"M", b"'MARKER'", b"'INTORG'") else {
        return Err(AllocError);
    };
    let Ok(()) = put_numbers(text, model, column) else {
        return Err(AllocError);
    };
    put_three(text, b"M", b"'MARKER'", b"'INTEND'")
}

/// The lines of COLUMNS.
pub(crate) fn put_columns(
    text: &mut Vec<u8>,
    model: &Model,
    columns: &[Col],
) -> Result<(), AllocError>
    requires { All (λ c. All (λ e. e.0.0 < length model.now.rows) c.rows) columns.now }
    ensures { IfOk result (λ _. text.new.items ≡ text.old.items ++ written_text (flat_map (column_lines model.now) columns.now)) }
{
    for column in columns {
        let Ok(()) = put_column(text, model, column) else {
            return Err(AllocError);
        };
    }
    Ok(())
}

fn put_lower(text: &mut Vec<u8>, name: &[u8], lower: &Bound) -> Result<(), AllocError>
    ensures { IfOk result (λ _. text.new.items ≡ text.old.items ++ written_text (lower_line name.now lower.now ∷ [])) }
{
    match lower {
        Some(number) => put_bound(text, b"LO", b"BND", name, number),
        None => put_three(text, b"MI", b"BND", name),
    }
}

fn put_upper(text: &mut Vec<u8>, name: &[u8], upper: &Bound) -> Result<(), AllocError>
    ensures { IfOk result (λ _. text.new.items ≡ text.old.items ++ written_text (upper_line name.now upper.now ∷ [])) }
{
    match upper {
        Some(number) => put_bound(text, b"UP", b"BND", name, number),
        None => put_three(text, b"PL", b"BND", name),
    }
}

/// The two lines of a column's bounds.
fn put_both_bounds(text: &mut Vec<u8>, column: &Col) -> Result<(), AllocError>
    ensures { IfOk result (λ _. text.new.items ≡ text.old.items ++ written_text (bound_lines column.now)) }
{
    let Ok(()) = put_lower(text, column.name.as_slice(), &column.lo) else {
        return Err(AllocError);
    };
    put_upper(text, column.name.as_slice(), &column.up)
}

/// The lines of BOUNDS.
pub(crate) fn put_bounds(text: &mut Vec<u8>, columns: &[Col]) -> Result<(), AllocError>
    ensures { IfOk result (λ _. text.new.items ≡ text.old.items ++ written_text (flat_map bound_lines columns.now)) }
{
    for column in columns {
        let Ok(()) = put_both_bounds(text, column) else {
            return Err(AllocError);
        };
    }
    Ok(())
}
