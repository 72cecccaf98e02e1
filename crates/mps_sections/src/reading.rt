// The lines of a text, one after another, up to ENDATA or to the first fault.
ghost use Rattle.std.specs.Prelude.{◌≡◌, [], Err, IfOk, MatchResult};
ghost use Rattle.mps_text.specs.Reading.{entry_of_record};
ghost use Rattle.mps_fields.specs.Words.{line_kind};
ghost use Rattle.mps_fields.specs.Fields.{pairs_shown, pairs_on as pairs_of_kind};
ghost use Rattle.mps_sections.specs.Faults.{code_in};
ghost use Rattle.mps_sections.specs.Statements.{stated};
ghost use Rattle.mps_sections.specs.private.Shown.{held};
ghost use Rattle.mps_sections.specs.ReadingOf.{IsSectionsReading};
ghost use Rattle.mps_sections.specs.private.ReadingOf.{IsStopAt, IsEntryNoted, IsWholeStated, IsTablesReading};
ghost use Rattle.mps_sections.specs.Limits.{StatesWithinLimits};

use crate::statements::Sections;
use crate::tables::Tables;
use mps_fields::{LineKind, Pairs, is_end, kind_in, pairs_on};
use mps_text::{LineFault, Lines, Record};
use std::alloc::Global;

/// Why a text states nothing whole: its first fault, or want of memory.
#[derive(Clone, Copy, Drop)]
pub enum Stop {
    Fault(LineFault),
    Memory,
}

/// One more line, by its kind and its pairs: its fault, or what the tables hold behind it.
fn take_line(
    alloc: Global,
    tables: &mut Tables,
    entry: &Record,
    kind: LineKind,
    pairs: &Pairs,
) -> Result<(), Stop>
    requires kind { kind ≡ line_kind tables.old.section (entry_of_record entry.now) }
    requires pairs { pairs_shown pairs.now ≡ pairs_of_kind kind (entry_of_record entry.now) }
    ensures { MatchResult result (λ _. IsEntryNoted tables.old (entry_of_record entry.now) tables.new) (λ stop. IsStopAt (code_in (held tables.old) (entry_of_record entry.now)) entry.now.line stop) }
{
    if let Some(code) = tables.fault_of(entry, kind, pairs) {
        let line = entry.line;
        return Err(Stop::Fault(LineFault { line, code }));
    }
    match tables.note(alloc, entry, kind, pairs) {
        Ok(()) => Ok(()),
        Err(_) => Err(Stop::Memory),
    }
}

/// One more line: its fault, or what the tables hold behind it. The pairs are taken apart first, since the prover has to see each
/// type that stands within a borrowed value.
fn read_line(alloc: Global, tables: &mut Tables, entry: &Record) -> Result<(), Stop>
    ensures { MatchResult result (λ _. IsEntryNoted tables.old (entry_of_record entry.now) tables.new) (λ stop. IsStopAt (code_in (held tables.old) (entry_of_record entry.now)) entry.now.line stop) }
{
    let kind = kind_in(tables.section, entry);
    match pairs_on(kind, entry) {
        Pairs::Nothing => take_line(alloc, tables, entry, kind, &Pairs::Nothing),
        Pairs::One(pair) => take_line(alloc, tables, entry, kind, &Pairs::One(pair)),
        Pairs::Two(first, second) => take_line(
            alloc,
            tables,
            entry,
            kind,
            &Pairs::Two(first, second),
        ),
    }
}

/// Notes the lines of a text, to ENDATA, in tables that hold nothing.
fn note_lines(alloc: Global, tables: &mut Tables, text: &[u8]) -> Result<(), Stop>
    requires { held tables.old ≡ stated [] }
    ensures { MatchResult result (λ _. IsWholeStated text.now (held tables.new)) (λ stop. IsTablesReading text.now (Err stop)) }
{
    let mut lines = Lines::new(text);
    while let Some(item) = lines.next() {
        match item {
            Err(fault) => return Err(Stop::Fault(fault)),
            Ok(entry) => {
                if let Err(stop) = read_line(alloc, tables, &entry) {
                    return Err(stop);
                }
                if is_end(&entry) {
                    return Ok(());
                }
            }
        }
    }
    let line = lines.next_number();
    Err(Stop::Fault(LineFault { line, code: 4 }))
}

/// What the lines of a text state, to ENDATA.
fn tables_of(alloc: Global, text: &[u8]) -> Result<Tables, Stop>
    ensures { IsTablesReading text.now result }
{
    let mut tables = Tables::new(alloc);
    match note_lines(alloc, &mut tables, text) {
        Ok(()) => Ok(tables),
        Err(stop) => {
            drop(tables);
            Err(stop)
        }
    }
}

/// What the sections of a text state, to ENDATA, or its first fault.
pub fn read_sections(alloc: Global, text: &[u8]) -> Result<Sections, Stop>
    ensures is { IsSectionsReading text.now result }
    ensures limits { IfOk result StatesWithinLimits }
{
    match tables_of(alloc, text) {
        Ok(tables) => match tables.into_sections() {
            Ok(sections) => Ok(sections),
            Err(_) => Err(Stop::Memory),
        },
        Err(stop) => Err(stop),
    }
}
