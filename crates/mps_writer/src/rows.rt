// The lines of rows: their types, and their numbers of RHS and RANGES.
ghost use Rattle.std.specs.Prelude.{◌≡◌, ◌++◌, ◌∷◌, [], map, flat_map, All, IfOk};
ghost use Rattle.lp_model.specs.Lawful.{IsRange};
ghost use Rattle.mps_writer.specs.Canonical.{written_text, row_type, row_line, right_side, rhs_line, range_line};

use crate::puts::{put_nonzero, put_two};
use frac128::Frac;
use lp_model::{Bound, Row};
use std::alloc::AllocError;

/// The type of a row with these sides.
fn row_type(lo: &Bound, hi: &Bound) -> &'static [u8]
    ensures { result.now ≡ row_type lo.now hi.now }
{
    match (lo, hi) {
        (_, None) => b"G",
        (Some(low), Some(high)) if *low == *high => b"E",
        _ => b"L",
    }
}

/// The high side, or the low one of a row without it.
fn right_side(row: &Row) -> Frac
    ensures { result ≡ right_side row.now.lo row.now.hi }
{
    match (&row.lo, &row.hi) {
        (_, Some(high)) => *high,
        (Some(low), None) => *low,
        (None, None) => Frac::whole(0),
    }
}

/// The type and the name of a row.
fn put_row(text: &mut Vec<u8>, row: &Row) -> Result<(), AllocError>
    ensures { IfOk result (λ _. text.new.items ≡ text.old.items ++ written_text (row_line row.now ∷ [])) }
{
    put_two(text, row_type(&row.lo, &row.hi), row.name.as_slice())
}

/// The types and names of rows.
pub(crate) fn put_rows(text: &mut Vec<u8>, rows: &[Row]) -> Result<(), AllocError>
    ensures { IfOk result (λ _. text.new.items ≡ text.old.items ++ written_text (map row_line rows.now)) }
{
    for row in rows {
        let Ok(()) = put_row(text, row) else {
            return Err(AllocError);
        };
    }
    Ok(())
}

/// A row's number of RHS.
fn put_right_side(text: &mut Vec<u8>, row: &Row) -> Result<(), AllocError>
    ensures { IfOk result (λ _. text.new.items ≡ text.old.items ++ written_text (rhs_line row.now)) }
{
    put_nonzero(text, b"RHS", row.name.as_slice(), &right_side(row))
}

/// The numbers of RHS.
pub(crate) fn put_right_sides(text: &mut Vec<u8>, rows: &[Row]) -> Result<(), AllocError>
    ensures { IfOk result (λ _. text.new.items ≡ text.old.items ++ written_text (flat_map rhs_line rows.now)) }
{
    for row in rows {
        let Ok(()) = put_right_side(text, row) else {
            return Err(AllocError);
        };
    }
    Ok(())
}

/// The distance of a row's two sides, if it has two that differ.
fn put_range(text: &mut Vec<u8>, row: &Row) -> Result<(), AllocError>
    requires { IsRange row.now.lo row.now.hi }
    ensures { IfOk result (λ _. text.new.items ≡ text.old.items ++ written_text (range_line row.now)) }
{
    match (&row.lo, &row.hi) {
        (Some(low), Some(high)) => match high.sub(low) {
            Ok(width) => put_nonzero(text, b"RNG", row.name.as_slice(), &width),
            Err(_) => unreachable!(),
        },
        _ => Ok(()),
    }
}

/// The numbers of RANGES.
pub(crate) fn put_ranges(text: &mut Vec<u8>, rows: &[Row]) -> Result<(), AllocError>
    requires { All (λ r. IsRange r.lo r.hi) rows.now }
    ensures { IfOk result (λ _. text.new.items ≡ text.old.items ++ written_text (flat_map range_line rows.now)) }
{
    for row in rows {
        let Ok(()) = put_range(text, row) else {
            return Err(AllocError);
        };
    }
    Ok(())
}
