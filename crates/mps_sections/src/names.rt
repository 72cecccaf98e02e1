// Names of rows, and the numbers beside them that count.
ghost use Rattle.std.specs.Prelude.{◌≡◌, ◌≤◌, IfOk, map, length};
ghost use Rattle.mps_sections.specs.Statements.{read_pair, is_coefficient, coefficients_in};
ghost use Rattle.mps_fields.specs.Fields.{pair_shown, pairs_shown};

use crate::rows::Rows;
use lp_model::{List, Name, is_zero};
use mps_fields::{Pair, Pairs};
use std::alloc::{AllocError, Global};

/// A copy of a name.
pub fn copied(alloc: Global, name: &[u8]) -> Result<Name, AllocError>
    ensures { IfOk result (λ copy. copy ≡ name.now) }
{
    let Ok(bytes) = Vec::from_slice(alloc, name) else {
        return Err(AllocError);
    };
    Ok(List::from_vec(bytes))
}

fn is_coefficient(rows: &Rows, pair: &Pair) -> bool
    ensures { result ≡ is_coefficient rows.now.sided (read_pair (pair_shown pair.now)) }
{
    rows.is_row(pair.row) && !is_zero(&pair.number_or_zero())
}

/// How many of the pairs have a non-zero number beside a row with sides.
pub(crate) fn count_coefficients(rows: &Rows, pairs: &Pairs) -> u64
    ensures count { result ≡ length (coefficients_in rows.now.sided (map read_pair (pairs_shown pairs.now))) }
    ensures few { result ≤ 2 }
{
    match pairs {
        Pairs::Nothing => 0,
        Pairs::One(p) => u64::from(is_coefficient(rows, p)),
        Pairs::Two(p, q) => u64::from(is_coefficient(rows, p)) + u64::from(is_coefficient(rows, q)),
    }
}
