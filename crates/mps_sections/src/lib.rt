//! What the sections of a free MPS text state, or its first faulty line with the least of its codes.
//!
//! A header names a section (NAME, OBJSENSE, ROWS, COLUMNS, RHS, RANGES, BOUNDS, ENDATA), and each data line states
//! something of its section: a sense; a row of type N, L, G or E; numbers of a column beside rows, or a marker; numbers of RHS
//! or RANGES beside rows; a bound of type LO, UP, FX, FR, MI, PL, BV, LI or UI. `Statements` gathers what lines state, each
//! list by itself from all of them. `Faults` has for each kind of line one test a code over what the lines before it state, of
//! which the least counts. A text is whole up to ENDATA, has a first fault, or is cut.
//!
//! `read_sections` answers exactly the lists that a whole text states, or its first fault. They have at most 1,000 rows, 4,000
//! columns and 50,000 non-zero numbers beside rows, and names that differ.
//!
//! Below stand `mps_text` (lines and fields) and `mps_fields` (what one line says by itself); `mps_model` makes models of the
//! lists.
#![tactic(auto)]

mod clearing;
mod columns;
mod name_set;
mod names;
mod numbered;
mod ranges;
mod reading;
mod rows;
mod statements;
mod tables;

pub use names::copied;
pub use reading::{Stop, read_sections};
pub use statements::{BoundLine, ColumnLines, RangeLine, RowLine, RowNumber, Sections};
