// A column's kind and bounds, which its bound lines state one after another.
ghost use Rattle.std.specs.Prelude.{◌≡◌, ◌++◌, ◌∷◌, [], List, length, map, IfOk};
ghost use Rattle.mps_model.specs.Spans.{with_lower, with_upper, without_lower, without_upper, as_integer, bounded};
ghost use Rattle.mps_model.specs.Meaning.{span_of, upper_or};
ghost use Rattle.mps_model.specs.Faults.{column_code, column_flaw};
ghost use Rattle.mps_sections.specs.Shown.{flaw_shown};
ghost use Rattle.mps_sections.specs.Limits.{AreNamesApart, names_of_columns};

use crate::names::{Names, names_of_columns};
use frac128::Frac;
use mps_fields::{BoundKind, Limit};
use mps_sections::{BoundLine, ColumnLines, Sections};
use mps_text::LineFault;
use std::alloc::{AllocError, Global};

/// A column's kind and bounds on the way through its bound lines.
#[derive(Clone, Copy, Drop)]
pub struct Span {
    pub integer: bool,
    pub lower: Option<Frac>,
    pub upper: Option<Frac>,
    /// Whether a line has named the lower bound.
    pub named: bool,
}

impl Span {
    fn with_lower(&self, limit: &Limit) -> Span
        ensures { result ≡ with_lower limit.now self.now }
    {
        Span {
            integer: self.integer,
            lower: limit.finite(),
            upper: self.upper,
            named: true,
        }
    }

    /// An upper bound below 0 takes the lower bound away, where no line has named that.
    fn with_upper(&self, limit: &Limit) -> Span
        ensures { result ≡ with_upper limit.now self.now }
    {
        let lower = if limit.is_below_zero() && !self.named {
            None
        } else {
            self.lower
        };
        Span {
            integer: self.integer,
            lower,
            upper: limit.finite(),
            named: self.named,
        }
    }

    fn without_lower(&self) -> Span
        ensures { result ≡ without_lower self.now }
    {
        Span {
            integer: self.integer,
            lower: None,
            upper: self.upper,
            named: true,
        }
    }

    fn without_upper(&self) -> Span
        ensures { result ≡ without_upper self.now }
    {
        Span {
            integer: self.integer,
            lower: self.lower,
            upper: None,
            named: self.named,
        }
    }

    fn as_integer(&self) -> Span
        ensures { result ≡ as_integer self.now }
    {
        Span {
            integer: true,
            lower: self.lower,
            upper: self.upper,
            named: self.named,
        }
    }

    /// The kind and bounds after one more bound line.
    fn bounded(&self, kind: BoundKind, limit: &Limit) -> Span
        ensures { result ≡ bounded self.now kind limit.now }
    {
        match kind {
            BoundKind::Lower => self.with_lower(limit),
            BoundKind::Upper => self.with_upper(limit),
            BoundKind::Fixed => Span {
                integer: self.integer,
                lower: limit.finite(),
                upper: limit.finite(),
                named: true,
            },
            BoundKind::Unbounded => self.without_lower().without_upper(),
            BoundKind::NoLower => self.without_lower(),
            BoundKind::NoUpper => self.without_upper(),
            BoundKind::Binary => Span {
                integer: true,
                lower: Some(Frac::whole(0)),
                upper: Some(Frac::whole(1)),
                named: true,
            },
            BoundKind::IntegerLower => self.with_lower(limit).as_integer(),
            BoundKind::IntegerUpper => self.with_upper(limit).as_integer(),
        }
    }

    /// The upper bound, which is a number handed in where an integer column has none.
    pub(crate) fn upper_or(&self, intupper: Option<u64>) -> Option<Frac>
        ensures { result ≡ upper_or intupper self.now.integer self.now.upper }
    {
        match (intupper, self.upper) {
            (Some(number), None) if self.integer => Some(Frac::of_whole(i128::from(number))),
            _ => self.upper,
        }
    }

    /// The code of a column with this kind and these bounds, if it has one.
    fn code(&self, intupper: Option<u64>) -> Option<u8>
        ensures { result ≡ column_code intupper self.now }
    {
        if self.integer && (self.lower.is_none() || self.upper_or(intupper).is_none()) {
            Some(24)
        } else {
            None
        }
    }
}

/// The kinds and bounds that columns start with.
fn starts(alloc: Global, columns: &[ColumnLines]) -> Result<Vec<Span>, AllocError>
    ensures { IfOk result (λ spans. spans.items ≡ map (span_of []) columns.now) }
{
    let mut spans = Vec::new(alloc);
    for column in columns {
        let lower: Option<Frac> = Some(Frac::whole(0));
        let upper: Option<Frac> = None;
        let span = Span {
            integer: column.marked,
            lower,
            upper,
            named: false,
        };
        let Ok(()) = spans.push(span) else {
            drop(spans);
            return Err(AllocError);
        };
    }
    Ok(spans)
}

/// The kinds and bounds after one more bound line, which changes that of the column that it names.
fn set_bound(spans: &mut [Span], names: &Names, bound: &BoundLine)
    requires { length spans.old ≡ length names.now.names }
    ensures length { length spans.new ≡ length spans.old }
    ensures steps { (before : List BoundLine) → (columns : List ColumnLines) → names.now.names ≡ names_of_columns columns → spans.old ≡ map (span_of before) columns → spans.new ≡ map (span_of (before ++ bound.now ∷ [])) columns }
{
    match names.find(bound.column.as_slice()) {
        Some(place) => {
            let span = spans[place];
            spans[place] = span.bounded(bound.kind, &bound.limit);
        }
        None => {}
    }
}

/// The kinds and bounds after all bound lines.
fn set_bounds(spans: &mut [Span], names: &Names, bounds: &[BoundLine])
    requires { length spans.old ≡ length names.now.names }
    ensures { (columns : List ColumnLines) → names.now.names ≡ names_of_columns columns → spans.old ≡ map (span_of []) columns → spans.new ≡ map (span_of bounds.now) columns }
{
    for bound in bounds {
        set_bound(spans, names, bound);
    }
}

/// The places of the columns by name.
fn names_in(alloc: Global, columns: &[ColumnLines]) -> Result<Names, AllocError>
    requires { AreNamesApart (names_of_columns columns.now) }
    ensures { IfOk result (λ names. names.names ≡ names_of_columns columns.now) }
{
    let Ok(list) = names_of_columns(alloc, columns) else {
        return Err(AllocError);
    };
    Names::of(alloc, list)
}

/// The kind and bounds of each column, whose place these names tell, after all bound lines.
fn spans_with(
    alloc: Global,
    names: &Names,
    columns: &[ColumnLines],
    bounds: &[BoundLine],
) -> Result<Vec<Span>, AllocError>
    requires { names.now.names ≡ names_of_columns columns.now }
    ensures { IfOk result (λ spans. spans.items ≡ map (span_of bounds.now) columns.now) }
{
    let Ok(mut spans) = starts(alloc, columns) else {
        return Err(AllocError);
    };
    set_bounds(spans.as_mut_slice(), names, bounds);
    Ok(spans)
}

/// The kind and bounds of each column after all bound lines.
pub(crate) fn spans_of(alloc: Global, sections: &Sections) -> Result<Vec<Span>, AllocError>
    requires { AreNamesApart (names_of_columns sections.now.columns) }
    ensures { IfOk result (λ spans. spans.items ≡ map (span_of sections.now.bounds) sections.now.columns) }
{
    let columns = sections.columns.as_slice();
    let Ok(names) = names_in(alloc, columns) else {
        return Err(AllocError);
    };
    let spans = spans_with(alloc, &names, columns, sections.bounds.as_slice());
    drop(names);
    spans
}

/// The line of the first integer column that lacks a bound.
pub(crate) fn column_flaw(
    intupper: Option<u64>,
    spans: &[Span],
    columns: &[ColumnLines],
) -> Option<LineFault>
    requires { length spans.now ≡ length columns.now }
    ensures { (bounds : List BoundLine) → spans.now ≡ map (span_of bounds) columns.now → flaw_shown result ≡ column_flaw intupper bounds columns.now }
{
    for place in 0..columns.len() {
        let line = columns[place].line;
        if let Some(code) = spans[place].code(intupper) {
            return Some(LineFault { line, code });
        }
    }
    None
}
