// What lines state: rows, numbers beside rows, columns and bounds.
use frac128::Frac;
use lp_model::{List, Name, Sense};
use mps_fields::{BoundKind, Limit, RowKind};

/// A row with sides.
#[derive(Drop)]
pub struct RowLine {
    pub name: Name,
    pub kind: RowKind,
}

/// A row's name and the number that stands beside it.
#[derive(Drop)]
pub struct RowNumber {
    pub row: Name,
    pub number: Frac,
}

/// A row's name, the number of RANGES that stands beside it, and the line.
#[derive(Drop)]
pub struct RangeLine {
    pub row: Name,
    pub number: Frac,
    pub line: u64,
}

/// A column with the numbers of all its lines, the line of its first, and whether that stands between markers.
#[derive(Drop)]
pub struct ColumnLines {
    pub name: Name,
    pub line: u64,
    pub marked: bool,
    pub numbers: List<RowNumber>,
}

/// What a bound line states of a column.
#[derive(Drop)]
pub struct BoundLine {
    pub column: Name,
    pub kind: BoundKind,
    pub limit: Limit,
}

/// What the sections of a text state: the sense, MIN where none stands; the names of the rows of type N, the rows with
/// sides, the columns, the numbers of RHS and of RANGES and the bound lines, each in the order of their lines.
#[derive(Drop)]
pub struct Sections {
    pub sense: Sense,
    pub objectives: List<Name>,
    pub rows: List<RowLine>,
    pub columns: List<ColumnLines>,
    pub sides: List<RowNumber>,
    pub ranges: List<RangeLine>,
    pub bounds: List<BoundLine>,
}
