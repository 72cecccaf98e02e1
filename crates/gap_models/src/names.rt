// The names of the new column and the new rows.
ghost use Rattle.std.specs.Prelude.{◌≡◌, ◌↔◌, map, IsTrue, IfOk, Contains};
ghost use Rattle.lp_model.specs.Lawful.{row_names, column_names};
ghost use Rattle.inner_models.specs.Names.{free_name};
ghost use Rattle.inner_models.specs.Inner.{z_name, g1_name, g2_name};
ghost use Rattle.gap_models.specs.private.Spaces.{names_of_space};

use lp_model::{List, Model, Name};
use std::alloc::{AllocError, Global};

/// The names that a new one has to differ from: those of the columns, or those of the objectives and the rows.
#[derive(Clone, Copy, Drop)]
pub(crate) enum NameSpace {
    Columns,
    Rows,
}

/// Whether a column has the name.
fn has_col(model: &Model, name: &[u8]) -> bool
    ensures { IsTrue result ↔ Contains (column_names model.now) name.now }
{
    match model.find_col(name) {
        Some(_) => true,
        None => false,
    }
}

/// Whether a row has the name.
fn has_row(model: &Model, name: &[u8]) -> bool
    ensures { IsTrue result ↔ Contains (map (λ r. r.name) model.now.rows) name.now }
{
    model.find_row(name).is_some()
}

/// Whether an objective or a row has the name.
fn is_row_name(model: &Model, name: &[u8]) -> bool
    ensures { IsTrue result ↔ Contains (row_names model.now) name.now }
{
    if model.objective_name(1).as_slice() == name {
        return true;
    }
    if model.objective_name(2).as_slice() == name {
        return true;
    }
    has_row(model, name)
}

/// Whether the name is taken.
fn is_taken(model: &Model, space: NameSpace, name: &[u8]) -> bool
    ensures { IsTrue result ↔ Contains (names_of_space space model.now) name.now }
{
    match space {
        NameSpace::Columns => has_col(model, name),
        NameSpace::Rows => is_row_name(model, name),
    }
}

/// The base with as few underscores behind it as make it free. No name is as long as memory, so that memory ends before the
/// turns do.
fn free_name(
    alloc: Global,
    model: &Model,
    space: NameSpace,
    base: &[u8],
) -> Result<Name, AllocError>
    ensures { IfOk result (λ name. name ≡ free_name (names_of_space space model.now) base.now) }
{
    let mut name = List::from_slice(alloc, base)?;
    'tries: for _ in 0..u64::MAX {
        if !is_taken(model, space, name.as_slice()) {
            return Ok(name);
        }
        name.push(b'_')?;
    }
    Err(AllocError)
}

/// The name of the column of a gap.
pub fn z_name(alloc: Global, model: &Model) -> Result<Name, AllocError>
    ensures { IfOk result (λ name. name ≡ z_name model.now) }
{
    free_name(alloc, model, NameSpace::Columns, b"Z")
}

/// The name of the first new row.
pub fn g1_name(alloc: Global, model: &Model) -> Result<Name, AllocError>
    ensures { IfOk result (λ name. name ≡ g1_name model.now) }
{
    free_name(alloc, model, NameSpace::Rows, b"G1")
}

/// The name of the second new row.
pub fn g2_name(alloc: Global, model: &Model) -> Result<Name, AllocError>
    ensures { IfOk result (λ name. name ≡ g2_name model.now) }
{
    free_name(alloc, model, NameSpace::Rows, b"G2")
}
