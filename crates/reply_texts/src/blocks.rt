// Where a search stopped: a relaxation, and a basis of it.
ghost use Rattle.std.specs.Prelude.{◌≡◌, ◌++◌, codes, decimal, IfOk};
ghost use Rattle.std.specs.List.{flat_map};
ghost use Rattle.std.specs.Fmt.{signed_decimal};
ghost use Rattle.lp_model.specs.Lawful.{row_name};
ghost use Rattle.reply_texts.specs.Places.{next_text, relation_text, change_text, path_line, region_line, side_text, literal_text, sign_text, cut_line, cut_lines, basis_lines, block_text, step_line};

use crate::names::{column_name, row_name, write_variables};
use crate::pieces::{write_count, write_two};
use crate::steps::write_step;
use lp_model::{
    Basis, BoundChange, Derivation, Literal, Model, Region, RowId, Side, Var, WideStep,
};
use std::alloc::AllocError;

fn relation(side: Side) -> &'static [u8]
    ensures { result.now ≡ relation_text side }
{
    match side {
        Side::Lo => b" >= ",
        Side::Hi => b" <= ",
    }
}

fn write_whole(reply: &mut Vec<u8>, number: i128) -> Result<(), AllocError>
    ensures { IfOk result (λ _. reply.new.items ≡ reply.old.items ++ signed_decimal number) }
{
    let mut digits = itoa::Buffer::new();
    reply.extend_from_slice(digits.format(number).as_bytes())?;
    Ok(())
}

fn write_change(reply: &mut Vec<u8>, model: &Model, change: BoundChange) -> Result<(), AllocError>
    ensures { IfOk result (λ _. reply.new.items ≡ reply.old.items ++ change_text model.now change) }
{
    let BoundChange { col, side, v } = change;
    let Ok(()) = reply.extend_from_slice(relation(side)) else {
        return Err(AllocError);
    };
    let Ok(()) = reply.extend_from_slice(column_name(model, col)) else {
        return Err(AllocError);
    };
    let Ok(()) = reply.extend_from_slice(b" ") else {
        return Err(AllocError);
    };
    let Ok(()) = write_whole(reply, v) else {
        return Err(AllocError);
    };
    Ok(())
}

fn write_changes(
    reply: &mut Vec<u8>,
    model: &Model,
    changes: &[BoundChange],
) -> Result<(), AllocError>
    ensures { IfOk result (λ _. reply.new.items ≡ reply.old.items ++ flat_map (change_text model.now) changes.now) }
{
    for change in changes {
        let Ok(()) = write_change(reply, model, *change) else {
            return Err(AllocError);
        };
    }
    Ok(())
}

/// The bound changes of a region.
fn write_path(reply: &mut Vec<u8>, model: &Model, path: &Region) -> Result<(), AllocError>
    ensures { IfOk result (λ _. reply.new.items ≡ reply.old.items ++ path_line model.now path.now) }
{
    let Ok(()) = reply.extend_from_slice(b"path") else {
        return Err(AllocError);
    };
    let Ok(()) = write_changes(reply, model, path.as_slice()) else {
        return Err(AllocError);
    };
    reply.extend_from_slice(b"\n")
}

/// The bound changes of a leaf, or that the relaxation is that of the ray phase.
fn write_region(
    reply: &mut Vec<u8>,
    model: &Model,
    region: &Option<Region>,
) -> Result<(), AllocError>
    ensures { IfOk result (λ _. reply.new.items ≡ reply.old.items ++ region_line model.now region.now) }
{
    match region {
        Some(path) => write_path(reply, model, path),
        None => reply.extend_from_slice(b"path ray\n"),
    }
}

fn sign(plus: bool) -> &'static [u8]
    ensures { result.now ≡ sign_text plus }
{
    if plus { b" +" } else { b" -" }
}

fn write_literal(reply: &mut Vec<u8>, model: &Model, literal: Literal) -> Result<(), AllocError>
    ensures { IfOk result (λ _. reply.new.items ≡ reply.old.items ++ literal_text model.now literal) }
{
    write_two(reply, sign(literal.plus), column_name(model, literal.col))
}

fn write_literals(
    reply: &mut Vec<u8>,
    model: &Model,
    literals: &[Literal],
) -> Result<(), AllocError>
    ensures { IfOk result (λ _. reply.new.items ≡ reply.old.items ++ flat_map (literal_text model.now) literals.now) }
{
    for literal in literals {
        let Ok(()) = write_literal(reply, model, *literal) else {
            return Err(AllocError);
        };
    }
    Ok(())
}

fn side(side: Side) -> &'static [u8]
    ensures { result.now ≡ side_text side }
{
    match side {
        Side::Lo => b" lo",
        Side::Hi => b" hi",
    }
}

/// A cut, by its place from 1, and the side of the row that it comes from.
fn write_cut_side(
    reply: &mut Vec<u8>,
    model: &Model,
    place: u64,
    row: RowId,
    of: Side,
) -> Result<(), AllocError>
    ensures { IfOk result (λ _. reply.new.items ≡ reply.old.items ++ (codes "cut " ++ decimal place ++ codes " " ++ row_name model.now row.0 ++ side_text of)) }
{
    let Ok(()) = write_count(reply, b"cut ", place) else {
        return Err(AllocError);
    };
    let Ok(()) = write_two(reply, b" ", row_name(model, row)) else {
        return Err(AllocError);
    };
    reply.extend_from_slice(side(of))
}

/// A cut, by its place from 1, and where it comes from.
fn write_cut_line(
    reply: &mut Vec<u8>,
    model: &Model,
    place: u64,
    cut: &Derivation,
) -> Result<(), AllocError>
    ensures { IfOk result (λ _. reply.new.items ≡ reply.old.items ++ cut_line model.now place cut.now) }
{
    let Ok(()) = write_cut_side(reply, model, place, cut.row, cut.side) else {
        return Err(AllocError);
    };
    let Ok(()) = write_literals(reply, model, cut.literals.as_slice()) else {
        return Err(AllocError);
    };
    reply.extend_from_slice(b"\n")
}

/// The cuts of a relaxation, in order.
fn write_cuts(reply: &mut Vec<u8>, model: &Model, cuts: &[Derivation]) -> Result<(), AllocError>
    ensures { IfOk result (λ _. reply.new.items ≡ reply.old.items ++ cut_lines model.now 1 cuts.now) }
{
    for (index, cut) in cuts.iter().enumerate() {
        let Ok(()) = write_cut_line(reply, model, index as u64 + 1, cut) else {
            return Err(AllocError);
        };
    }
    Ok(())
}

/// A line of variables behind a word.
fn write_variable_line(
    reply: &mut Vec<u8>,
    model: &Model,
    word: &[u8],
    variables: &[Var],
) -> Result<(), AllocError>
    ensures { IfOk result (λ _. reply.new.items ≡ reply.old.items ++ (word.now ++ flat_map (next_text model.now) variables.now ++ codes "\n")) }
{
    let Ok(()) = reply.extend_from_slice(word) else {
        return Err(AllocError);
    };
    let Ok(()) = write_variables(reply, model, variables) else {
        return Err(AllocError);
    };
    reply.extend_from_slice(b"\n")
}

/// A basis: its variables, and those of the others that stand at their high side.
fn write_basis(reply: &mut Vec<u8>, model: &Model, basis: &Basis) -> Result<(), AllocError>
    ensures { IfOk result (λ _. reply.new.items ≡ reply.old.items ++ basis_lines model.now basis.now) }
{
    let Ok(()) = write_variable_line(reply, model, b"basis", basis.basic.as_slice()) else {
        return Err(AllocError);
    };
    write_variable_line(reply, model, b"high", basis.high.as_slice())
}

/// A relaxation, by its cuts and its region, and a basis of it.
pub(crate) fn write_block(
    reply: &mut Vec<u8>,
    model: &Model,
    region: &Option<Region>,
    cuts: &[Derivation],
    basis: &Basis,
) -> Result<(), AllocError>
    ensures { IfOk result (λ _. reply.new.items ≡ reply.old.items ++ block_text model.now region.now cuts.now basis.now) }
{
    let Ok(()) = write_cuts(reply, model, cuts) else {
        return Err(AllocError);
    };
    let Ok(()) = write_region(reply, model, region) else {
        return Err(AllocError);
    };
    write_basis(reply, model, basis)
}

/// The step of arithmetic without room.
pub(crate) fn write_step_line(
    reply: &mut Vec<u8>,
    model: &Model,
    step: &WideStep,
) -> Result<(), AllocError>
    ensures { IfOk result (λ _. reply.new.items ≡ reply.old.items ++ step_line model.now step.now) }
{
    let Ok(()) = reply.extend_from_slice(b"at ") else {
        return Err(AllocError);
    };
    let Ok(()) = write_step(reply, model, step) else {
        return Err(AllocError);
    };
    reply.extend_from_slice(b"\n")
}
