// The model that the lists of a whole text mean.
ghost use Rattle.std.specs.Prelude.{◌≡◌, None, true, All, length, map, IfOk, IfSome};
ghost use Rattle.frac128.specs.Rational.{neg_ℚ};
ghost use Rattle.lp_model.specs.Lawful.{IsRange};
ghost use Rattle.mps_sections.specs.Statements.{stated_row_names};
ghost use Rattle.mps_sections.specs.Limits.{AreNamesApart, StatesWithinLimits};
ghost use Rattle.mps_model.specs.Meaning.{row_with, row_of, row_numbers_beside, column_of, model_of, span_of, beside_objective, beside_second};
ghost use Rattle.mps_model.specs.Ranges.{has_room};
ghost use Rattle.mps_model.specs.private.Tables.{IsRowTableOf};
ghost use Rattle.mps_model.specs.Faults.{column_flaw, range_flaw};

use crate::beside::{beside_objective, beside_second, entries_of, numbers_beside};
use crate::free_names::objective_names;
use crate::names::Names;
use crate::ranges::{range_beside, sides_of};
use crate::row_table::RowTable;
use crate::spans::Span;
use frac128::Frac;
use lp_model::{Col, List, Model, Row};
use mps_sections::{ColumnLines, RowLine, Sections, copied};
use std::alloc::{AllocError, Global};

/// A row with a number of RHS and, where there is one, a number of RANGES. Two sides that are one number are a range.
fn row_with(
    alloc: Global,
    row: &RowLine,
    number: &Frac,
    range: &Option<Frac>,
) -> Result<Row, AllocError>
    requires { IfSome range.now (λ r. has_room row.now.kind number.now r ≡ true) }
    ensures is { IfOk result (λ r. r ≡ row_with number.now range.now row.now) }
    ensures range { IfOk result (λ r. IsRange r.lo r.hi) }
{
    let Ok(name) = copied(alloc, row.name.as_slice()) else {
        return Err(AllocError);
    };
    number.has_room();
    let sides = sides_of(row.kind, number, range);
    Ok(Row {
        name,
        lo: sides.0,
        hi: sides.1,
    })
}

/// The rows with their numbers of RHS and RANGES.
fn rows_with(
    alloc: Global,
    sections: &Sections,
    lines: &[RowLine],
    numbers: &[Frac],
) -> Result<List<Row>, AllocError>
    requires lines { lines.now ≡ sections.now.rows }
    requires sized { length numbers.now ≡ length lines.now }
    requires apart { AreNamesApart (stated_row_names sections.now.rows) }
    requires numbers { numbers.now ≡ row_numbers_beside (stated_row_names sections.now.rows) sections.now.sides }
    requires room { range_flaw sections.now sections.now.ranges ≡ None }
    ensures is { IfOk result (λ rows. rows ≡ map (row_of sections.now) sections.now.rows) }
    ensures ranges { IfOk result (λ rows. All (λ r. IsRange r.lo r.hi) rows) }
{
    let mut rows = List::new(alloc);
    for place in 0..lines.len() {
        let line = &lines[place];
        let range = range_beside(sections.ranges.as_slice(), line.name.as_slice());
        let Ok(row) = row_with(alloc, line, &numbers[place], &range) else {
            drop(rows);
            return Err(AllocError);
        };
        let Ok(()) = rows.push(row) else {
            drop(rows);
            return Err(AllocError);
        };
    }
    Ok(rows)
}

/// A column with the kind and bounds that its bound lines state.
fn column_with(
    alloc: Global,
    sections: &Sections,
    names: &Names,
    column: &ColumnLines,
    span: &Span,
    intupper: Option<u64>,
) -> Result<Col, AllocError>
    requires limits { StatesWithinLimits sections.now }
    requires names { names.now.names ≡ stated_row_names sections.now.rows }
    requires span { span.now ≡ span_of sections.now.bounds column.now }
    ensures { IfOk result (λ c. c ≡ column_of sections.now intupper column.now) }
{
    let numbers = column.numbers.as_slice();
    let Ok(beside) = numbers_beside(alloc, names, numbers) else {
        return Err(AllocError);
    };
    let entries = entries_of(alloc, beside.as_slice());
    drop(beside);
    let Ok(rows) = entries else {
        return Err(AllocError);
    };
    let Ok(name) = copied(alloc, column.name.as_slice()) else {
        drop(rows);
        return Err(AllocError);
    };
    Ok(Col {
        name,
        int: span.integer,
        lo: span.lower,
        up: span.upper_or(intupper),
        cost: beside_objective(sections.objectives.as_slice(), numbers),
        cost2: beside_second(sections.objectives.as_slice(), numbers),
        rows,
    })
}

/// The columns of some lines.
fn columns_of(
    alloc: Global,
    sections: &Sections,
    names: &Names,
    lines: &[ColumnLines],
    spans: &[Span],
    intupper: Option<u64>,
) -> Result<List<Col>, AllocError>
    requires limits { StatesWithinLimits sections.now }
    requires names { names.now.names ≡ stated_row_names sections.now.rows }
    requires spans { spans.now ≡ map (span_of sections.now.bounds) lines.now }
    ensures { IfOk result (λ columns. columns ≡ map (column_of sections.now intupper) lines.now) }
{
    let mut columns = List::new(alloc);
    for place in 0..lines.len() {
        let line = &lines[place];
        let span = &spans[place];
        let Ok(column) = column_with(alloc, sections, names, line, span, intupper) else {
            drop(columns);
            return Err(AllocError);
        };
        let Ok(()) = columns.push(column) else {
            drop(columns);
            return Err(AllocError);
        };
    }
    Ok(columns)
}

/// The rows and the columns.
fn parts_of(
    alloc: Global,
    sections: &Sections,
    table: &RowTable,
    spans: &[Span],
    intupper: Option<u64>,
) -> Result<(List<Row>, List<Col>), AllocError>
    requires limits { StatesWithinLimits sections.now }
    requires table { IsRowTableOf sections.now table.now }
    requires room { range_flaw sections.now sections.now.ranges ≡ None }
    requires spans { spans.now ≡ map (span_of sections.now.bounds) sections.now.columns }
    ensures rows { IfOk result (λ parts. parts.0 ≡ map (row_of sections.now) sections.now.rows) }
    ensures ranges { IfOk result (λ parts. All (λ r. IsRange r.lo r.hi) parts.0) }
    ensures columns { IfOk result (λ parts. parts.1 ≡ map (column_of sections.now intupper) sections.now.columns) }
{
    let numbers = table.numbers.as_slice();
    let Ok(rows) = rows_with(alloc, sections, sections.rows.as_slice(), numbers) else {
        return Err(AllocError);
    };
    let lines = sections.columns.as_slice();
    match columns_of(alloc, sections, &table.names, lines, spans, intupper) {
        Ok(columns) => Ok((rows, columns)),
        Err(error) => {
            drop(rows);
            Err(error)
        }
    }
}

/// The second objective's constant.
fn second_constant_of(sections: &Sections) -> Frac
    ensures { result ≡ neg_ℚ (beside_second sections.now.objectives sections.now.sides) }
{
    beside_second(sections.objectives.as_slice(), sections.sides.as_slice()).neg()
}

/// The objective's constant.
fn constant_of(sections: &Sections) -> Frac
    ensures { result ≡ neg_ℚ (beside_objective sections.now.objectives sections.now.sides) }
{
    beside_objective(sections.objectives.as_slice(), sections.sides.as_slice()).neg()
}

/// The model of the lists, with the kind and bounds of each column.
pub(crate) fn model_of(
    alloc: Global,
    sections: &Sections,
    table: &RowTable,
    spans: &[Span],
    intupper: Option<u64>,
) -> Result<Model, AllocError>
    requires limits { StatesWithinLimits sections.now }
    requires table { IsRowTableOf sections.now table.now }
    requires room { range_flaw sections.now sections.now.ranges ≡ None }
    requires spans { spans.now ≡ map (span_of sections.now.bounds) sections.now.columns }
    requires bounded { column_flaw intupper sections.now.bounds sections.now.columns ≡ None }
    ensures { IfOk result (λ m. m ≡ model_of sections.now intupper) }
{
    let Ok(parts) = parts_of(alloc, sections, table, spans, intupper) else {
        return Err(AllocError);
    };
    match objective_names(alloc, sections) {
        Ok(names) => {
            let constants = [constant_of(sections), second_constant_of(sections)];
            Ok(Model::of_parts(
                sections.sense,
                names.0,
                names.1,
                constants,
                parts.0,
                parts.1,
            ))
        }
        Err(error) => {
            drop(parts);
            Err(error)
        }
    }
}
