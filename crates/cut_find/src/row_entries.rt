// The entries of the rows.
ghost use Rattle.std.specs.Prelude.{◌≡◌, ◌<◌, [], suc, length, replicate, IfOk};
ghost use Rattle.cut_find.specs.RowEntries.{AreRowsTo};

use frac128::Frac;
use lp_model::{List, Model};
use std::alloc::{AllocError, Global};

/// The columns that each row has a coefficient for, with it, in column order: one pass over the model's entries.
pub fn row_entries(alloc: Global, model: &Model) -> Result<Vec<List<(usize, Frac)>>, AllocError>
    ensures long { IfOk result (λ v. length v.items ≡ length model.now.rows) }
    ensures entries { IfOk result (λ v. AreRowsTo model.now (length model.now.cols) v.items) }
{
    let mut rows = match empty_lists(alloc, model.rows().len()) {
        Ok(rows) => rows,
        Err(error) => return Err(error),
    };
    for col in 0..model.cols().len() {
        match add_column(model, col, &mut rows) {
            Ok(()) => {}
            Err(error) => {
                drop(rows);
                return Err(error);
            }
        }
    }
    Ok(rows)
}

/// So many empty lists.
fn empty_lists(alloc: Global, count: usize) -> Result<Vec<List<(usize, Frac)>>, AllocError>
    ensures { IfOk result (λ v. v.items ≡ replicate count []) }
{
    let mut lists = Vec::new(alloc);
    for _ in 0..count {
        match lists.push(List::new(alloc)) {
            Ok(()) => {}
            Err(error) => {
                drop(lists);
                return Err(error.into());
            }
        }
    }
    Ok(lists)
}

/// Adds the entries of a column to their rows.
fn add_column(model: &Model, col: usize, rows: &mut [List<(usize, Frac)>]) -> Result<(), AllocError>
    requires within { col < length model.now.cols }
    requires long { length rows.old ≡ length model.now.rows }
    requires before { AreRowsTo model.now col rows.old }
    ensures { IfOk result (λ _. AreRowsTo model.now (suc col) rows.new) }
{
    for entry in model.cols()[col].rows.as_slice() {
        let row = &mut rows[entry.0.0 as usize];
        match row.push((col, entry.1)) {
            Ok(()) => {}
            Err(error) => return Err(error),
        }
    }
    Ok(())
}
