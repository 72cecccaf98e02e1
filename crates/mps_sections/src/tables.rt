// What a text has stated so far, and the fault of a line that comes next.
ghost use Rattle.std.specs.Prelude.{◌≡◌, ◌+◌, ◌≤◌, [], ◌∷◌, ◌++◌, true, IfOk, OnOk, length, map, nat_lt, not, ◌&&◌, ◌||◌, option_to_list, Some, false};
ghost use Rattle.std.specs.List.{list_any};
ghost use Rattle.mps_text.specs.Reading.{entry_of_record};
ghost use Rattle.mps_fields.specs.Words.{word, is_marker, section_rank, is_rows, is_columns, is_name_section, is_sense_section, line_kind as kind_of_line};
ghost use Rattle.mps_sections.specs.Statements.{StatedModel, stated, sections_in, coefficients_in, read_pair, stated_sense, as_bound};
ghost use Rattle.mps_fields.specs.Fields.{has_count as has_fields, column_pairs as pairs_in_column, set_pairs as pairs_behind_set, bound_column as column_of_bound, bound_field, has_twice, has_unknown_sense as is_without_sense, has_not_number, has_too_wide};
ghost use Rattle.mps_sections.specs.private.HeaderTests.{is_asked};
ghost use Rattle.mps_sections.specs.Faults.{least, has_sense, most_fields, tests_of, section_tests, sense_tests, row_tests, marker_tests, column_tests, set_tests, rhs_tests, range_tests, bound_tests, place_tests, pair_tests, has_again, is_ranged_again, has_free_row, has_unknown, is_late, lacks_section, code_in};
ghost use Rattle.lp_model.specs.Limits.{entry_limit};

use crate::columns::Columns;
use crate::names::{copied, count_coefficients};
use crate::numbered::Numbered;
use crate::ranges::Ranges;
use crate::rows::Rows;
use crate::statements::{BoundLine, Sections};
use lp_model::{COL_LIMIT, ENTRY_LIMIT, List, ROW_LIMIT, Sense};
use mps_fields::{
    BoundKind, LineKind, Pairs, RowKind, Section, first_word, has_count, has_unknown_sense,
    header_sense, is_key, is_long, is_misplaced, is_no_limit, is_wide_limit, limit_of,
    limit_or_plus, sense_of,
};
use mps_text::{Fields, Record};
use std::alloc::{AllocError, Global};

/// What the lines before a line have stated.
#[derive(Drop)]
pub(crate) struct Tables {
    pub section: Option<Section>,
    pub headers: List<Section>,
    pub senses: List<Sense>,
    pub rows: Rows,
    pub columns: Columns,
    pub marked: bool,
    /// How many non-zero numbers stand beside rows with sides.
    pub count: u64,
    pub sides: Numbered,
    pub ranges: Ranges,
    pub bounds: List<BoundLine>,
    ghost few: { count ≤ entry_limit false },
}

/// Which of the headers are looked for: those behind which a section can no longer come, that of ROWS, or that of COLUMNS.
#[derive(Clone, Copy)]
enum HeaderTest {
    Bars(Section),
    IsRows,
    IsColumns,
}

/// The third field of a line of three.
fn third_word<'a>(entry: &Record<'a>) -> &'a [u8]
    ensures { is_marker (entry_of_record entry.now) ≡ true → result.now ≡ word 2 (entry_of_record entry.now) }
{
    match entry.fields {
        Fields::Three(_, _, third) => third,
        _ => first_word(entry),
    }
}

/// The field of a bound line that names the column.
fn bound_column<'a>(kind: BoundKind, entry: &Record<'a>) -> &'a [u8]
    ensures { has_fields (entry_of_record entry.now) 2 4 ≡ true → result.now ≡ column_of_bound kind (entry_of_record entry.now) }
{
    match entry.fields {
        Fields::Two(_, second) => { if kind.takes_number() { b"" } else { second } }
        Fields::Three(_, second, third) => { if kind.takes_number() { second } else { third } }
        Fields::Four(_, _, third, _) => third,
        _ => first_word(entry),
    }
}

/// The last field of a bound line.
fn last_word<'a>(entry: &Record<'a>) -> &'a [u8]
    ensures { has_fields (entry_of_record entry.now) 2 4 ≡ true → result.now ≡ bound_field (entry_of_record entry.now) }
{
    match entry.fields {
        Fields::Two(_, last) => last,
        Fields::Three(_, _, last) => last,
        Fields::Four(_, _, _, last) => last,
        _ => first_word(entry),
    }
}

/// Puts what a bound line states of a column behind others.
fn add_bound(
    alloc: Global,
    bounds: &mut List<BoundLine>,
    kind: BoundKind,
    entry: &Record,
) -> Result<(), AllocError>
    requires { has_fields (entry_of_record entry.now) 2 4 ≡ true }
    ensures { OnOk result (bounds.new ≡ bounds.old ++ as_bound (Some kind) (entry_of_record entry.now)) }
{
    let Ok(column) = copied(alloc, bound_column(kind, entry)) else {
        return Err(AllocError);
    };
    let limit = limit_or_plus(&limit_of(last_word(entry)));
    bounds.push(BoundLine {
        column,
        kind,
        limit,
    })
}

fn has_sense(senses: &[Sense]) -> bool
    ensures { result ≡ has_sense senses.now }
{
    match senses {
        [_, ..] => true,
        [] => false,
    }
}

/// How many fields a header but that of NAME may have.
fn most_fields(section: Section) -> usize
    ensures is { result ≡ most_fields section }
    ensures few { result ≤ 2 }
{
    if section.is_sense() { 2 } else { 1 }
}

/// Whether a header has more fields than its section may have.
fn has_more_fields(section: Section, entry: &Record) -> bool
    ensures { result ≡ (not (is_name_section section) && not (has_fields (entry_of_record entry.now) 1 (most_fields section))) }
{
    !section.is_name() & !has_count(entry, 1, most_fields(section))
}

/// Whether the header OBJSENSE has a second field that is no sense.
fn lacks_sense(section: Section, entry: &Record) -> bool
    ensures { result ≡ (is_sense_section section && is_without_sense (entry_of_record entry.now)) }
{
    section.is_sense() & has_unknown_sense(entry)
}

/// The first sense, MIN where there is none.
fn first_sense(senses: &[Sense]) -> Sense
    ensures { result ≡ stated_sense senses.now }
{
    match senses {
        [sense, ..] => *sense,
        [] => Sense::Min,
    }
}

/// Whether a header is one of those that are looked for.
fn is_asked(test: HeaderTest, stands: Section) -> bool
    ensures { result ≡ is_asked test stands }
{
    match test {
        HeaderTest::Bars(comes) => stands.bars(comes),
        HeaderTest::IsRows => stands.is_rows(),
        HeaderTest::IsColumns => stands.is_columns(),
    }
}

/// Whether one of the headers that are looked for stands.
fn has_header(headers: &[Section], test: HeaderTest) -> bool
    ensures { result ≡ list_any (is_asked test) headers.now }
{
    for index in 0..headers.len() {
        if is_asked(test, headers[index]) {
            return true;
        }
    }
    false
}

fn lacks(headers: &[Section], section: Section) -> bool
    ensures { result ≡ ((nat_lt 3 (section_rank section) && not (list_any is_rows headers.now)) || (nat_lt 4 (section_rank section) && not (list_any is_columns headers.now))) }
{
    let rank = section.rank();
    let lacks_rows = (3 < rank) & !has_header(headers, HeaderTest::IsRows);
    let lacks_columns = (4 < rank) & !has_header(headers, HeaderTest::IsColumns);
    lacks_rows | lacks_columns
}

/// The least code of the header of a section by its tests.
fn header_code(late: bool, lacking: bool, long: bool, senseless: bool) -> Option<u8>
    ensures { result ≡ least ((4, late || lacking) ∷ (6, long) ∷ (8, senseless) ∷ []) }
{
    if late | lacking {
        Some(4)
    } else if long {
        Some(6)
    } else if senseless {
        Some(8)
    } else {
        None
    }
}

/// The least code of a bound line of a known type by its tests.
fn bound_code(
    short: bool,
    long: bool,
    unread: bool,
    wide: bool,
    unknown: bool,
    misplaced: bool,
) -> Option<u8>
    ensures { result ≡ least ((6, short) ∷ (7, long) ∷ (12, unread) ∷ (13, wide) ∷ (19, unknown) ∷ (21, misplaced) ∷ []) }
{
    if short {
        Some(6)
    } else if long {
        Some(7)
    } else if unread {
        Some(12)
    } else if wide {
        Some(13)
    } else if unknown {
        Some(19)
    } else if misplaced {
        Some(21)
    } else {
        None
    }
}

#[tactic(auto, unfolding(crate::specs::private::Shown::held))]
impl Tables {
    ghost use Rattle.mps_sections.specs.Shown.{after, after_kind, with_senses};
    ghost use Rattle.mps_sections.specs.private.Shown.{held};
    ghost use Rattle.mps_fields.specs.Fields.{pairs_shown, pairs_on};

    /// What no lines state.
    #[tactic(auto, unfolding(crate::specs::private::Shown::held, crate::specs::Statements::stated, crate::specs::Statements::gathered_behind))]
    pub(crate) fn new(alloc: Global) -> Tables
        ensures { held result ≡ stated [] }
    {
        Tables {
            section: None,
            headers: List::new(alloc),
            senses: List::new(alloc),
            rows: Rows::new(alloc),
            columns: Columns::new(alloc),
            marked: false,
            count: 0,
            sides: Numbered::new(alloc),
            ranges: Ranges::new(alloc),
            bounds: List::new(alloc),
        }
    }

    fn fault_of_header(&self, entry: &Record) -> Option<u8>
        ensures { result ≡ least (tests_of LineKind.Header (held self.now) (entry_of_record entry.now)) }
    {
        let Some(section) = Section::of(first_word(entry)) else {
            return Some(3);
        };
        let headers = self.headers.as_slice();
        let late = has_header(headers, HeaderTest::Bars(section));
        let lacking = lacks(headers, section);
        let long = has_more_fields(section, entry);
        let senseless = lacks_sense(section, entry);
        header_code(late, lacking, long, senseless)
    }

    /// The least fault of a data line of OBJSENSE.
    fn fault_of_sense(&self, entry: &Record) -> Option<u8>
        ensures { result ≡ least (sense_tests (held self.now) (entry_of_record entry.now)) }
    {
        if has_sense(self.senses.as_slice()) {
            return Some(5);
        }
        let Fields::One(word) = entry.fields else {
            return Some(6);
        };
        match sense_of(word) {
            Some(_) => None,
            None => Some(8),
        }
    }

    fn fault_of_row(&self, entry: &Record) -> Option<u8>
        ensures { result ≡ least (row_tests (held self.now) (entry_of_record entry.now)) }
    {
        let Fields::Two(kind, name) = entry.fields else {
            return Some(6);
        };
        if is_long(name) {
            return Some(7);
        }
        let Some(kind) = RowKind::of(kind) else {
            return Some(8);
        };
        if self.rows.contains(name) {
            Some(9)
        } else if !matches!(kind, RowKind::Free) && self.rows.sided.as_slice().len() >= ROW_LIMIT {
            Some(10)
        } else {
            None
        }
    }

    fn fault_of_marker(&self, entry: &Record) -> Option<u8>
        ensures { is_marker (entry_of_record entry.now) ≡ true → result ≡ least (marker_tests (held self.now) (entry_of_record entry.now)) }
    {
        let word = third_word(entry);
        let lawful = if self.marked {
            is_key(b"'INTEND'", word)
        } else {
            is_key(b"'INTORG'", word)
        };
        if lawful { None } else { Some(18) }
    }

    /// The least fault of a column's line, of which the number of fields is right.
    fn fault_of_pairs(&self, pairs: &Pairs) -> Option<u8>
        ensures { result ≡ least (pair_tests (held self.now) (pairs_shown pairs.now)) }
    {
        if self.rows.has_unknown(pairs) {
            Some(11)
        } else if pairs.has_not_number() {
            Some(12)
        } else if pairs.has_too_wide() {
            Some(13)
        } else {
            None
        }
    }

    /// Whether the pairs have too many coefficients. They have two at most, so most lines need no count here.
    #[tactic(auto, using(crate::proofs::PairCounts::two_at_most))]
    fn has_too_many(&self, pairs: &Pairs) -> bool
        ensures { result ≡ nat_lt (entry_limit false) (self.now.count + length (coefficients_in self.now.rows.sided (map read_pair (pairs_shown pairs.now)))) }
    {
        let limit = ENTRY_LIMIT as u64;
        self.count > limit - 2 && self.count + count_coefficients(&self.rows, pairs) > limit
    }

    /// The least fault of a column's line by the columns before it.
    fn fault_of_place(&self, name: &[u8], pairs: &Pairs) -> Option<u8>
        ensures { result ≡ least (place_tests (held self.now) name.now (pairs_shown pairs.now)) }
    {
        let last = self.columns.is_last(name);
        let stands = self.columns.contains(name);
        if stands & !last {
            return Some(14);
        }
        if pairs.has_twice() | (last & self.columns.has_again(pairs)) {
            return Some(15);
        }
        if !stands & (self.columns.len() >= COL_LIMIT) {
            return Some(16);
        }
        if self.has_too_many(pairs) {
            return Some(17);
        }
        None
    }

    /// The least fault of a column's line by its pairs.
    fn fault_of_entries(&self, name: &[u8], pairs: &Pairs) -> Option<u8>
        ensures { result ≡ least (pair_tests (held self.now) (pairs_shown pairs.now) ++ place_tests (held self.now) name.now (pairs_shown pairs.now)) }
    {
        let fault = self.fault_of_pairs(pairs);
        if fault.is_some() {
            return fault;
        }
        self.fault_of_place(name, pairs)
    }

    fn fault_of_column(&self, entry: &Record, pairs: &Pairs) -> Option<u8>
        requires { pairs_shown pairs.now ≡ pairs_in_column (entry_of_record entry.now) }
        ensures { result ≡ least (column_tests (held self.now) (entry_of_record entry.now)) }
    {
        if !(has_count(entry, 3, 3) | has_count(entry, 5, 5)) {
            return Some(6);
        }
        let name = first_word(entry);
        if is_long(name) | pairs.has_long() {
            return Some(7);
        }
        self.fault_of_entries(name, pairs)
    }

    /// The least fault of a line of RHS or RANGES by itself and by the rows and numbers of its pairs.
    fn fault_of_set(&self, entry: &Record, pairs: &Pairs) -> Option<u8>
        requires { pairs_shown pairs.now ≡ pairs_behind_set (entry_of_record entry.now) }
        ensures { result ≡ least (set_tests (held self.now) (entry_of_record entry.now)) }
    {
        if !has_count(entry, 2, 5) {
            return Some(6);
        }
        if pairs.has_long() {
            return Some(7);
        }
        self.fault_of_pairs(pairs)
    }

    /// The least fault of a line of RHS by the lines before it.
    fn fault_of_sides(&self, pairs: &Pairs) -> Option<u8>
        ensures { result ≡ least ((22, has_twice (pairs_shown pairs.now) || has_again self.now.sides.numbers (pairs_shown pairs.now)) ∷ []) }
    {
        if pairs.has_twice() | self.sides.has_again(pairs) {
            Some(22)
        } else {
            None
        }
    }

    fn fault_of_rhs(&self, entry: &Record, pairs: &Pairs) -> Option<u8>
        requires { pairs_shown pairs.now ≡ pairs_behind_set (entry_of_record entry.now) }
        ensures { result ≡ least (rhs_tests (held self.now) (entry_of_record entry.now)) }
    {
        let fault = self.fault_of_set(entry, pairs);
        if fault.is_some() {
            return fault;
        }
        self.fault_of_sides(pairs)
    }

    /// The least fault of a line of RANGES by the lines before it.
    fn fault_of_ranges(&self, pairs: &Pairs) -> Option<u8>
        ensures { result ≡ least ((22, has_twice (pairs_shown pairs.now) || is_ranged_again self.now.ranges.lines (pairs_shown pairs.now)) ∷ (23, has_free_row (held self.now) (pairs_shown pairs.now)) ∷ []) }
    {
        if pairs.has_twice() | self.ranges.has_again(pairs) {
            Some(22)
        } else if self.rows.has_free(pairs) {
            Some(23)
        } else {
            None
        }
    }

    fn fault_of_range(&self, entry: &Record, pairs: &Pairs) -> Option<u8>
        requires { pairs_shown pairs.now ≡ pairs_behind_set (entry_of_record entry.now) }
        ensures { result ≡ least (range_tests (held self.now) (entry_of_record entry.now)) }
    {
        let fault = self.fault_of_set(entry, pairs);
        if fault.is_some() {
            return fault;
        }
        self.fault_of_ranges(pairs)
    }

    /// The least fault of a bound line of two to four fields, by its type.
    fn fault_of_bound_kind(&self, kind: BoundKind, entry: &Record) -> Option<u8>
        ensures { has_fields (entry_of_record entry.now) 2 4 ≡ true → result ≡ least (bound_tests (Some kind) (held self.now) (entry_of_record entry.now)) }
    {
        let numbered = kind.takes_number();
        let column = bound_column(kind, entry);
        let limit = limit_of(last_word(entry));
        bound_code(
            numbered & !has_count(entry, 3, 4),
            is_long(column),
            numbered & is_no_limit(&limit),
            numbered & is_wide_limit(&limit),
            !self.columns.contains(column),
            is_misplaced(kind, &limit_or_plus(&limit)),
        )
    }

    fn fault_of_bound(&self, entry: &Record) -> Option<u8>
        ensures { result ≡ least (tests_of LineKind.Bound (held self.now) (entry_of_record entry.now)) }
    {
        if !has_count(entry, 2, 4) {
            return Some(6);
        }
        match BoundKind::of(first_word(entry)) {
            None => Some(20),
            Some(kind) => self.fault_of_bound_kind(kind, entry),
        }
    }

    /// The least fault of the next line, if it has one.
    #[tactic(auto, unfolding(crate::specs::private::Shown::held, crate::specs::Faults::code_in))]
    pub(crate) fn fault_of(&self, entry: &Record, kind: LineKind, pairs: &Pairs) -> Option<u8>
        requires kind { kind ≡ kind_of_line self.now.section (entry_of_record entry.now) }
        requires pairs { pairs_shown pairs.now ≡ pairs_on kind (entry_of_record entry.now) }
        ensures { result ≡ code_in (held self.now) (entry_of_record entry.now) }
    {
        match kind {
            LineKind::Header => self.fault_of_header(entry),
            LineKind::SenseLine => self.fault_of_sense(entry),
            LineKind::Row => self.fault_of_row(entry),
            LineKind::Marker => self.fault_of_marker(entry),
            LineKind::Column => self.fault_of_column(entry, pairs),
            LineKind::RightSide => self.fault_of_rhs(entry, pairs),
            LineKind::Range => self.fault_of_range(entry, pairs),
            LineKind::Bound => self.fault_of_bound(entry),
            LineKind::Stray => Some(5),
        }
    }

    /// A sense, if there is one.
    fn note_sense(&mut self, sense: Option<Sense>) -> Result<(), AllocError>
        ensures { OnOk result (held self.new ≡ with_senses (option_to_list sense) (held self.old)) }
    {
        match sense {
            Some(sense) => self.senses.push(sense),
            None => Ok(()),
        }
    }

    fn note_header(&mut self, entry: &Record) -> Result<(), AllocError>
        ensures { OnOk result (held self.new ≡ after_kind LineKind.Header (held self.old) (entry_of_record entry.now)) }
    {
        let section = Section::of(first_word(entry));
        let sense = header_sense(section, entry);
        self.section = section;
        match section {
            Some(stands) => {
                let Ok(()) = self.headers.push(stands) else {
                    return Err(AllocError);
                };
                self.note_sense(sense)
            }
            None => self.note_sense(sense),
        }
    }

    fn note_row(&mut self, alloc: Global, entry: &Record) -> Result<(), AllocError>
        requires { has_fields (entry_of_record entry.now) 2 2 ≡ true }
        ensures { OnOk result (held self.new ≡ after_kind LineKind.Row (held self.old) (entry_of_record entry.now)) }
    {
        let Fields::Two(kind, name) = entry.fields else {
            return Ok(());
        };
        let Some(kind) = RowKind::of(kind) else {
            return Ok(());
        };
        self.rows.add(alloc, kind, name)
    }

    fn note_marker(&mut self, entry: &Record)
        requires { is_marker (entry_of_record entry.now) ≡ true }
        ensures { held self.new ≡ after_kind LineKind.Marker (held self.old) (entry_of_record entry.now) }
    {
        self.marked = is_key(b"'INTORG'", third_word(entry));
    }

    fn note_column(
        &mut self,
        alloc: Global,
        entry: &Record,
        pairs: &Pairs,
    ) -> Result<(), AllocError>
        requires pairs { pairs_shown pairs.now ≡ pairs_in_column (entry_of_record entry.now) }
        requires few { self.old.count + length (coefficients_in self.old.rows.sided (map read_pair (pairs_in_column (entry_of_record entry.now)))) ≤ entry_limit false }
        ensures { OnOk result (held self.new ≡ after_kind LineKind.Column (held self.old) (entry_of_record entry.now)) }
    {
        let name = first_word(entry);
        let count = count_coefficients(&self.rows, pairs);
        let marked = self.marked;
        self.count += count;
        self.columns.add(alloc, name, entry.line, marked, pairs)
    }

    fn note_rhs(&mut self, alloc: Global, entry: &Record, pairs: &Pairs) -> Result<(), AllocError>
        requires { pairs_shown pairs.now ≡ pairs_behind_set (entry_of_record entry.now) }
        ensures { OnOk result (held self.new ≡ after_kind LineKind.RightSide (held self.old) (entry_of_record entry.now)) }
    {
        self.sides.add(alloc, pairs)
    }

    fn note_range(&mut self, alloc: Global, entry: &Record, pairs: &Pairs) -> Result<(), AllocError>
        requires { pairs_shown pairs.now ≡ pairs_behind_set (entry_of_record entry.now) }
        ensures { OnOk result (held self.new ≡ after_kind LineKind.Range (held self.old) (entry_of_record entry.now)) }
    {
        self.ranges.add(alloc, entry.line, pairs)
    }

    fn note_bound(&mut self, alloc: Global, entry: &Record) -> Result<(), AllocError>
        requires { has_fields (entry_of_record entry.now) 2 4 ≡ true }
        ensures { OnOk result (held self.new ≡ after_kind LineKind.Bound (held self.old) (entry_of_record entry.now)) }
    {
        let Some(kind) = BoundKind::of(first_word(entry)) else {
            return Ok(());
        };
        add_bound(alloc, &mut self.bounds, kind, entry)
    }

    /// What one more line states, which has no fault.
    #[tactic(auto, unfolding(crate::specs::private::Shown::held, crate::specs::Shown::after, crate::specs::Faults::code_in))]
    pub(crate) fn note(
        &mut self,
        alloc: Global,
        entry: &Record,
        kind: LineKind,
        pairs: &Pairs,
    ) -> Result<(), AllocError>
        requires kind { kind ≡ kind_of_line self.old.section (entry_of_record entry.now) }
        requires pairs { pairs_shown pairs.now ≡ pairs_on kind (entry_of_record entry.now) }
        requires clean { code_in (held self.old) (entry_of_record entry.now) ≡ None }
        ensures { OnOk result (held self.new ≡ after (held self.old) (entry_of_record entry.now)) }
    {
        match kind {
            LineKind::Header => self.note_header(entry),
            LineKind::SenseLine => self.note_sense(sense_of(first_word(entry))),
            LineKind::Row => self.note_row(alloc, entry),
            LineKind::Marker => {
                self.note_marker(entry);
                Ok(())
            }
            LineKind::Column => self.note_column(alloc, entry, pairs),
            LineKind::RightSide => self.note_rhs(alloc, entry, pairs),
            LineKind::Range => self.note_range(alloc, entry, pairs),
            LineKind::Bound => self.note_bound(alloc, entry),
            LineKind::Stray => Ok(()),
        }
    }

    /// The lists alone.
    pub(crate) fn into_sections(self) -> Result<Sections, AllocError>
        ensures { IfOk result (λ sections. sections ≡ sections_in (held self)) }
    {
        let Tables {
            section: _,
            headers,
            senses,
            rows,
            columns,
            marked: _,
            count: _,
            sides,
            ranges,
            bounds,
        } = self;
        drop(headers);
        let sense = first_sense(senses.as_slice());
        drop(senses);
        let Ok(columns) = columns.into_list() else {
            drop(rows);
            drop(sides);
            drop(ranges);
            drop(bounds);
            return Err(AllocError);
        };
        let (objectives, rows) = rows.into_lists();
        Ok(Sections {
            sense,
            objectives,
            rows,
            columns,
            sides: sides.into_list(),
            ranges: ranges.into_list(),
            bounds,
        })
    }
}
