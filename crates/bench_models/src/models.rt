// The model of a seed.
ghost use Rattle.std.specs.Prelude.{◌≡◌, IfOk};
ghost use Rattle.bench_models.specs.BenchModels.{empty_program, bench_program};

use crate::columns::add_columns;
use crate::rows::add_rows;
use frac128::Frac;
use lp_model::{List, Model, Sense};
use std::alloc::{AllocError, Global};
use turn_order::words_of;

/// A model without rows and columns.
fn empty_model(alloc: Global) -> Result<Model, AllocError>
    ensures { IfOk result (λ model. model ≡ empty_program) }
{
    let first = List::from_slice(alloc, b"OBJ")?;
    let second = List::from_slice(alloc, b"OBJ2")?;
    let constants = [Frac::whole(0), Frac::whole(0)];
    Ok(Model::empty(alloc, Sense::Min, first, second, constants))
}

/// The model of so many rows and columns by the words of a seed.
///
/// # Errors
///
/// Where there is no memory. A model past the limits of models is none either, and is answered so.
pub fn bench_model(alloc: Global, seed: u64, rows: u64, cols: u64) -> Result<Model, AllocError>
    ensures { IfOk result (λ model. model ≡ bench_program seed rows cols) }
{
    let mut model = empty_model(alloc)?;
    let mut words = words_of(seed);
    match add_columns(alloc, &mut model, &mut words, cols) {
        Ok(()) => {}
        Err(error) => {
            drop(model);
            return Err(error);
        }
    }
    match add_rows(alloc, &mut model, &mut words, rows, cols) {
        Ok(()) => Ok(model),
        Err(error) => {
            drop(model);
            Err(error)
        }
    }
}
