// The canonical text of a model.
ghost use Rattle.std.specs.Prelude.{◌≡◌, ◌++◌, IfOk, None};
ghost use Rattle.mps_model.specs.Faults.{MeantModel};
ghost use Rattle.mps_writer.specs.Canonical.{canonical_text, written_text, sense_word, opening_lines, rows_lines, columns_lines, rhs_lines, ranges_lines, bounds_lines};
ghost use Rattle.mps_writer.specs.Writable.{IsWritableMps};
ghost use Rattle.mps_writer.specs.Laws.{ReadBackLaw, ScriptWritableLaw};

use crate::columns::{put_bounds, put_columns};
use crate::puts::{put_header, put_nonzero, put_two, put_word};
use crate::rows::{put_ranges, put_right_sides, put_rows};
use lp_model::{Model, Sense, show_model};
use std::alloc::{AllocError, Global};

fn sense_word(sense: Sense) -> &'static [u8]
    ensures { result.now ≡ sense_word sense }
{
    match sense {
        Sense::Min => b"MIN",
        Sense::Max => b"MAX",
    }
}

fn put_opening(text: &mut Vec<u8>, sense: Sense) -> Result<(), AllocError>
    ensures { IfOk result (λ _. text.new.items ≡ text.old.items ++ written_text (opening_lines sense)) }
{
    let Ok(()) = put_header(text, b"NAME") else {
        return Err(AllocError);
    };
    let Ok(()) = text.extend_from_slice(b"OBJSENSE") else {
        return Err(AllocError);
    };
    let Ok(()) = put_word(text, sense_word(sense)) else {
        return Err(AllocError);
    };
    let Ok(()) = text.push(b'\n') else {
        return Err(AllocError);
    };
    Ok(())
}

fn put_row_section(text: &mut Vec<u8>, model: &Model) -> Result<(), AllocError>
    ensures { IfOk result (λ _. text.new.items ≡ text.old.items ++ written_text (rows_lines model.now)) }
{
    let Ok(()) = put_header(text, b"ROWS") else {
        return Err(AllocError);
    };
    let Ok(()) = put_two(text, b"N", model.objective_name(1).as_slice()) else {
        return Err(AllocError);
    };
    let Ok(()) = put_two(text, b"N", model.objective_name(2).as_slice()) else {
        return Err(AllocError);
    };
    put_rows(text, model.rows())
}

fn put_column_section(text: &mut Vec<u8>, model: &Model) -> Result<(), AllocError>
    ensures { IfOk result (λ _. text.new.items ≡ text.old.items ++ written_text (columns_lines model.now)) }
{
    let Ok(()) = put_header(text, b"COLUMNS") else {
        return Err(AllocError);
    };
    put_columns(text, model, model.cols())
}

fn put_rhs_section(text: &mut Vec<u8>, model: &Model) -> Result<(), AllocError>
    ensures { IfOk result (λ _. text.new.items ≡ text.old.items ++ written_text (rhs_lines model.now)) }
{
    let Ok(()) = put_header(text, b"RHS") else {
        return Err(AllocError);
    };
    let first = model.constant(1).neg();
    let Ok(()) = put_nonzero(text, b"RHS", model.objective_name(1).as_slice(), &first) else {
        return Err(AllocError);
    };
    let second = model.constant(2).neg();
    let Ok(()) = put_nonzero(text, b"RHS", model.objective_name(2).as_slice(), &second) else {
        return Err(AllocError);
    };
    put_right_sides(text, model.rows())
}

fn put_range_section(text: &mut Vec<u8>, model: &Model) -> Result<(), AllocError>
    ensures { IfOk result (λ _. text.new.items ≡ text.old.items ++ written_text (ranges_lines model.now)) }
{
    let Ok(()) = put_header(text, b"RANGES") else {
        return Err(AllocError);
    };
    put_ranges(text, model.rows())
}

fn put_bound_section(text: &mut Vec<u8>, model: &Model) -> Result<(), AllocError>
    ensures { IfOk result (λ _. text.new.items ≡ text.old.items ++ written_text (bounds_lines model.now)) }
{
    let Ok(()) = put_header(text, b"BOUNDS") else {
        return Err(AllocError);
    };
    put_bounds(text, model.cols())
}

/// All sections of a model, and the end.
fn put_sections(text: &mut Vec<u8>, model: &Model) -> Result<(), AllocError>
    ensures { IfOk result (λ _. text.new.items ≡ text.old.items ++ canonical_text model.now) }
{
    let Ok(()) = put_opening(text, model.sense()) else {
        return Err(AllocError);
    };
    let Ok(()) = put_row_section(text, model) else {
        return Err(AllocError);
    };
    let Ok(()) = put_column_section(text, model) else {
        return Err(AllocError);
    };
    let Ok(()) = put_rhs_section(text, model) else {
        return Err(AllocError);
    };
    let Ok(()) = put_range_section(text, model) else {
        return Err(AllocError);
    };
    let Ok(()) = put_bound_section(text, model) else {
        return Err(AllocError);
    };
    put_header(text, b"ENDATA")
}

/// The canonical text of a model as a free MPS file.
pub fn write(alloc: Global, model: &Model) -> Result<Vec<u8>, AllocError>
    ensures text { IfOk result (λ text. text.items ≡ canonical_text model.now) }
    ensures means { IfOk result (λ text. IsWritableMps model.now → MeantModel text.items None model.now) }
{
    show_model(model);
    let mut text = Vec::new(alloc);
    match put_sections(&mut text, model) {
        Ok(()) => Ok(text),
        Err(error) => {
            drop(text);
            Err(error)
        }
    }
}

/// A law: what `write` writes of a writable model, `read` reads as that model.
pub fn read_back_law()
    ensures { ReadBackLaw }
{}

/// A law: a model that scripts may have is writable, unless one of its rows or objectives is named by the marker word.
pub fn script_writable_law()
    ensures { ScriptWritableLaw }
{}
