// The model that a text means, or its first fault.
ghost use Rattle.std.specs.Prelude.{◌≡◌, map};
ghost use Rattle.mps_sections.specs.Limits.{StatesWithinLimits};
ghost use Rattle.mps_sections.specs.Shown.{flaw_shown};
ghost use Rattle.mps_model.specs.Meaning.{span_of};
ghost use Rattle.mps_model.specs.private.Tables.{IsRowTableOf};
ghost use Rattle.mps_model.specs.Faults.{sections_flaw};
ghost use Rattle.mps_model.specs.declared.reader.MpsFault.TheVariants.{Bad};
ghost use Rattle.mps_model.specs.Answers.{IsModelAnswer};
ghost use Rattle.mps_model.specs.private.Answers.{IsSectionsAnswer};

use crate::building::model_of;
use crate::row_table::RowTable;
use crate::spans::{Span, column_flaw, spans_of};
use lp_model::Model;
use mps_sections::{ColumnLines, Sections, Stop, read_sections};
use mps_text::LineFault;
use std::alloc::Global;
use thiserror::Error;

/// Why a text gives no model.
#[derive(Clone, Copy, Debug, Drop, Error)]
pub enum MpsFault {
    /// The first faulty line, from 1, with the least code of its faults.
    #[error("a line is faulty")]
    Bad { line: u64, code: u8 },
    /// There is no memory.
    #[error("there is no memory")]
    Memory,
}

/// The model that a text means, or its first fault. An integer column without an upper bound has `intupper`, if that is
/// handed in.
pub fn read(alloc: Global, text: &[u8], intupper: Option<u64>) -> Result<Model, MpsFault>
    ensures { IsModelAnswer text.now intupper result }
{
    let sections = match read_sections(alloc, text) {
        Ok(sections) => sections,
        Err(Stop::Fault(fault)) => return Err(bad(fault)),
        Err(Stop::Memory) => return Err(MpsFault::Memory),
    };
    let model = model_read(alloc, &sections, intupper);
    drop(sections);
    model
}

/// A fault as an answer.
fn bad(fault: LineFault) -> MpsFault
    ensures { result ≡ Bad fault.line fault.code }
{
    MpsFault::Bad {
        line: fault.line,
        code: fault.code,
    }
}

/// The model of the lists of a whole text, or their fault.
fn model_read(alloc: Global, sections: &Sections, intupper: Option<u64>) -> Result<Model, MpsFault>
    requires { StatesWithinLimits sections.now }
    ensures { IsSectionsAnswer sections.now intupper result }
{
    let Ok(table) = RowTable::of(alloc, sections) else {
        return Err(MpsFault::Memory);
    };
    let Ok(spans) = spans_of(alloc, sections) else {
        drop(table);
        return Err(MpsFault::Memory);
    };
    let columns = sections.columns.as_slice();
    let model = model_with(alloc, sections, columns, &table, spans.as_slice(), intupper);
    drop(spans);
    drop(table);
    model
}

/// The first fault that is looked for only where no line is faulty: of RANGES, then of the columns.
fn sections_flaw(
    sections: &Sections,
    columns: &[ColumnLines],
    table: &RowTable,
    spans: &[Span],
    intupper: Option<u64>,
) -> Option<LineFault>
    requires columns { columns.now ≡ sections.now.columns }
    requires table { IsRowTableOf sections.now table.now }
    requires spans { spans.now ≡ map (span_of sections.now.bounds) sections.now.columns }
    ensures { flaw_shown result ≡ sections_flaw sections.now intupper }
{
    match table.range_flaw(sections, sections.ranges.as_slice()) {
        Some(fault) => Some(fault),
        None => column_flaw(intupper, spans, columns),
    }
}

/// The same, with the rows by name, and the kind and bounds of each column.
fn model_with(
    alloc: Global,
    sections: &Sections,
    columns: &[ColumnLines],
    table: &RowTable,
    spans: &[Span],
    intupper: Option<u64>,
) -> Result<Model, MpsFault>
    requires limits { StatesWithinLimits sections.now }
    requires columns { columns.now ≡ sections.now.columns }
    requires table { IsRowTableOf sections.now table.now }
    requires spans { spans.now ≡ map (span_of sections.now.bounds) sections.now.columns }
    ensures { IsSectionsAnswer sections.now intupper result }
{
    if let Some(fault) = sections_flaw(sections, columns, table, spans, intupper) {
        return Err(bad(fault));
    }
    match model_of(alloc, sections, table, spans, intupper) {
        Ok(model) => Ok(model),
        Err(_) => Err(MpsFault::Memory),
    }
}
