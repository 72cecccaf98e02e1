//! Tests of what no script can say: readers and writers that take their bytes in pieces or break, the folder that the
//! program runs in, and machines for whose replies memory is wanting.
//!
//! They stand apart so that `sym_io`, `memory_ends` and `script_session` are proved once. All that a script can say stands in
//! the rows of `script_rows`.
#![tactic(auto)]

#[cfg(test)]
mod echo;
#[cfg(test)]
mod ends;
#[cfg(test)]
mod pieces;
