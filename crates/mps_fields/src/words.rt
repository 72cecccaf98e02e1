// Key words, which are read in either case of letters, and the kinds of lines.
ghost use Rattle.std.specs.Prelude.{◌≡◌, ◌==◌, true, false, length, MatchOption};
ghost use Rattle.mps_text.specs.Reading.{entry_of_record};
ghost use Rattle.mps_fields.specs.Words.{is_key, upper_case, section_of, sense_of, row_kind, bound_kind, line_kind, is_marker, data_kind, word, section_rank, bars, is_rows, is_columns, is_name_section, is_sense_section, takes_number};
ghost use Rattle.mps_fields.specs.Fields.{header_sense, has_unknown_sense, is_end};

use lp_model::Sense;
use mps_text::{Fields, Record};

/// A section of the text, by the word of its header.
#[derive(Clone, Copy, Drop)]
pub enum Section {
    Name,
    Objsense,
    Rows,
    Columns,
    Rhs,
    Ranges,
    Bounds,
    Ended,
}

/// What a line is, by its first byte and the section that it stands in.
#[derive(Clone, Copy, Drop)]
pub enum LineKind {
    Header,
    SenseLine,
    Row,
    Marker,
    Column,
    RightSide,
    Range,
    Bound,
    /// A data line where no section takes one.
    Stray,
}

/// The type of a row: an objective, or a row with an upper side, a lower side, or two equal ones.
#[derive(Clone, Copy, Drop)]
pub enum RowKind {
    Free,
    AtMost,
    AtLeast,
    Equal,
}

/// The type of a bound line: a lower bound, an upper one, both, neither, no lower one, no upper one, 0 and 1 of an integer
/// column, and a lower or an upper one of an integer column.
#[derive(Clone, Copy, Drop)]
pub enum BoundKind {
    Lower,
    Upper,
    Fixed,
    Unbounded,
    NoLower,
    NoUpper,
    Binary,
    IntegerLower,
    IntegerUpper,
}

fn upper_letter(byte: u8) -> u8
    ensures { result ≡ upper_case byte }
{
    if b'a' <= byte && byte <= b'z' {
        byte - 32
    } else {
        byte
    }
}

/// Whether a word is the key word, which is written in capitals.
#[tactic(auto, unfolding(crate::specs::Words::is_key))]
pub fn is_key(key: &[u8], word: &[u8]) -> bool
    ensures { result ≡ is_key key.now word.now }
{
    match (word, key) {
        ([], []) => true,
        ([byte, more @ ..], [wanted, rest @ ..]) => {
            upper_letter(*byte) == *wanted && is_key(rest, more)
        }
        _ => false,
    }
}

impl Section {
    /// The section of a header's word.
    pub fn of(word: &[u8]) -> Option<Section>
        ensures { result ≡ section_of word.now }
    {
        if is_key(b"NAME", word) {
            Some(Section::Name)
        } else if is_key(b"OBJSENSE", word) {
            Some(Section::Objsense)
        } else if is_key(b"ROWS", word) {
            Some(Section::Rows)
        } else if is_key(b"COLUMNS", word) {
            Some(Section::Columns)
        } else if is_key(b"RHS", word) {
            Some(Section::Rhs)
        } else if is_key(b"RANGES", word) {
            Some(Section::Ranges)
        } else if is_key(b"BOUNDS", word) {
            Some(Section::Bounds)
        } else if is_key(b"ENDATA", word) {
            Some(Section::Ended)
        } else {
            None
        }
    }

    /// The place in the order of sections, which RHS, RANGES and BOUNDS share.
    pub fn rank(self) -> u8
        ensures { result ≡ section_rank self }
    {
        match self {
            Section::Name => 1,
            Section::Objsense => 2,
            Section::Rows => 3,
            Section::Columns => 4,
            Section::Rhs => 5,
            Section::Ranges => 5,
            Section::Bounds => 5,
            Section::Ended => 6,
        }
    }

    /// Whether the other section can no longer come where this one stands.
    pub fn bars(self, comes: Section) -> bool
        ensures { result ≡ bars self comes }
    {
        match (self, comes) {
            (Section::Rhs, Section::Ranges) => false,
            (Section::Rhs, Section::Bounds) => false,
            (Section::Ranges, Section::Rhs) => false,
            (Section::Ranges, Section::Bounds) => false,
            (Section::Bounds, Section::Rhs) => false,
            (Section::Bounds, Section::Ranges) => false,
            _ => comes.rank() <= self.rank(),
        }
    }

    pub fn is_rows(self) -> bool
        ensures { result ≡ is_rows self }
    {
        matches!(self, Section::Rows)
    }

    pub fn is_columns(self) -> bool
        ensures { result ≡ is_columns self }
    {
        matches!(self, Section::Columns)
    }

    pub fn is_name(self) -> bool
        ensures { result ≡ is_name_section self }
    {
        matches!(self, Section::Name)
    }

    pub fn is_sense(self) -> bool
        ensures { result ≡ is_sense_section self }
    {
        matches!(self, Section::Objsense)
    }
}

/// The sense of a word.
pub fn sense_of(word: &[u8]) -> Option<Sense>
    ensures { result ≡ sense_of word.now }
{
    if is_key(b"MIN", word) {
        Some(Sense::Min)
    } else if is_key(b"MINIMIZE", word) {
        Some(Sense::Min)
    } else if is_key(b"MAX", word) {
        Some(Sense::Max)
    } else if is_key(b"MAXIMIZE", word) {
        Some(Sense::Max)
    } else {
        None
    }
}

impl RowKind {
    /// The row type of a word.
    pub fn of(word: &[u8]) -> Option<RowKind>
        ensures { result ≡ row_kind word.now }
    {
        if is_key(b"N", word) {
            Some(RowKind::Free)
        } else if is_key(b"L", word) {
            Some(RowKind::AtMost)
        } else if is_key(b"G", word) {
            Some(RowKind::AtLeast)
        } else if is_key(b"E", word) {
            Some(RowKind::Equal)
        } else {
            None
        }
    }
}

impl BoundKind {
    /// The bound type of a word.
    pub fn of(word: &[u8]) -> Option<BoundKind>
        ensures { result ≡ bound_kind word.now }
    {
        if is_key(b"LO", word) {
            Some(BoundKind::Lower)
        } else if is_key(b"UP", word) {
            Some(BoundKind::Upper)
        } else if is_key(b"FX", word) {
            Some(BoundKind::Fixed)
        } else if is_key(b"FR", word) {
            Some(BoundKind::Unbounded)
        } else if is_key(b"MI", word) {
            Some(BoundKind::NoLower)
        } else if is_key(b"PL", word) {
            Some(BoundKind::NoUpper)
        } else if is_key(b"BV", word) {
            Some(BoundKind::Binary)
        } else if is_key(b"LI", word) {
            Some(BoundKind::IntegerLower)
        } else if is_key(b"UI", word) {
            Some(BoundKind::IntegerUpper)
        } else {
            None
        }
    }

    /// Whether its number is looked at.
    pub fn takes_number(self) -> bool
        ensures { result ≡ takes_number self }
    {
        match self {
            BoundKind::Unbounded => false,
            BoundKind::NoLower => false,
            BoundKind::NoUpper => false,
            BoundKind::Binary => false,
            _ => true,
        }
    }
}

/// The first field of a line.
pub fn first_word<'a>(entry: &Record<'a>) -> &'a [u8]
    ensures { result.now ≡ word 0 (entry_of_record entry.now) }
{
    match entry.fields {
        Fields::One(first) => first,
        Fields::Two(first, _) => first,
        Fields::Three(first, _, _) => first,
        Fields::Four(first, _, _, _) => first,
        Fields::Five(first, _, _, _, _) => first,
        Fields::More(first, _) => first,
    }
}

/// The second field of a line of two.
fn second_word<'a>(entry: &Record<'a>) -> Option<&'a [u8]>
    ensures { MatchOption result ((length (entry_of_record entry.now).words == 2) ≡ false) (λ second. ((length (entry_of_record entry.now).words == 2) ≡ true) × (second.now ≡ word 1 (entry_of_record entry.now))) }
{
    match entry.fields {
        Fields::Two(_, second) => Some(second),
        _ => None,
    }
}

/// Whether a header of two fields has a second one that is no sense.
pub fn has_unknown_sense(entry: &Record) -> bool
    ensures { result ≡ has_unknown_sense (entry_of_record entry.now) }
{
    match second_word(entry) {
        Some(word) => matches!(sense_of(word), None),
        None => false,
    }
}

/// The sense behind the section's word, if there is one.
pub fn header_sense(section: Option<Section>, entry: &Record) -> Option<Sense>
    ensures { result ≡ header_sense section (entry_of_record entry.now) }
{
    match section {
        Some(Section::Objsense) => match second_word(entry) {
            Some(word) => sense_of(word),
            None => None,
        },
        _ => None,
    }
}

fn is_marker_line(entry: &Record) -> bool
    ensures { result ≡ is_marker (entry_of_record entry.now) }
{
    match entry.fields {
        Fields::Three(_, second, _) => is_key(b"'MARKER'", second),
        _ => false,
    }
}

/// What a data line of a section is.
fn data_kind(section: Option<Section>, entry: &Record) -> LineKind
    ensures { result ≡ data_kind section (entry_of_record entry.now) }
{
    match section {
        Some(Section::Objsense) => LineKind::SenseLine,
        Some(Section::Rows) => LineKind::Row,
        Some(Section::Columns) => {
            if is_marker_line(entry) {
                LineKind::Marker
            } else {
                LineKind::Column
            }
        }
        Some(Section::Rhs) => LineKind::RightSide,
        Some(Section::Ranges) => LineKind::Range,
        Some(Section::Bounds) => LineKind::Bound,
        _ => LineKind::Stray,
    }
}

/// What a line that follows the section's header is.
pub fn kind_in(section: Option<Section>, entry: &Record) -> LineKind
    ensures { result ≡ line_kind section (entry_of_record entry.now) }
{
    if entry.header {
        LineKind::Header
    } else {
        data_kind(section, entry)
    }
}

/// Whether the line is the header ENDATA.
#[tactic(auto, unfolding(crate::specs::Fields::is_end))]
pub fn is_end(entry: &Record) -> bool
    ensures { result ≡ is_end (entry_of_record entry.now) }
{
    entry.header && matches!(Section::of(first_word(entry)), Some(Section::Ended))
}
