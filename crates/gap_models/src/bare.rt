// The model that the inner models of a front stand on.
ghost use Rattle.std.specs.Prelude.{◌≡◌, ◌∷◌, [], map, pos, true, false, IfOk};
ghost use Rattle.frac128.specs.Rational.{int};
ghost use Rattle.lp_model.specs.declared.types.Sense.TheVariants.{Min};
ghost use Rattle.inner_models.specs.Inner.{least_col, bare_model};

use frac128::Frac;
use lp_model::{Col, List, Model, Sense, copy_name};
use std::alloc::{AllocError, Global};

/// The column with its costs in least form.
fn least_column(sense: Sense, col: &Col) -> Result<Col, AllocError>
    ensures { IfOk result (λ c. c ≡ least_col sense col.now) }
{
    match col.with_cost(sense.least_form(&col.cost)) {
        Ok(least) => {
            let mut least = least;
            least.cost2 = sense.least_form(&col.cost2);
            Ok(least)
        }
        Err(error) => Err(error),
    }
}

/// The columns with their costs in least form.
fn least_columns(alloc: Global, sense: Sense, cols: &[Col]) -> Result<List<Col>, AllocError>
    ensures { IfOk result (λ list. list ≡ map (least_col sense) cols.now) }
{
    let mut list = List::new(alloc);
    for col in cols {
        let Ok(least) = least_column(sense, col) else {
            drop(list);
            return Err(AllocError);
        };
        let Ok(()) = list.push(least) else {
            drop(list);
            return Err(AllocError);
        };
    }
    Ok(list)
}

/// The model with its costs in least form, and all else as it is.
fn with_least_costs(alloc: Global, model: &Model) -> Result<Model, AllocError>
    ensures { IfOk result (λ m. m ≡ record model.now { cols = map (least_col model.now.sense) model.now.cols }) }
{
    match least_columns(alloc, model.sense(), model.cols()) {
        Ok(cols) => model.with_cols(cols),
        Err(error) => Err(error),
    }
}

/// The model as one that is minimized, with constants 0 and with room for an inner model.
fn minimized(alloc: Global, model: Model) -> Result<Model, AllocError>
    requires { model.wide ≡ false }
    ensures { IfOk result (λ m. m ≡ record model { sense = Min; consts = int (pos 0) ∷ int (pos 0) ∷ []; wide = true }) }
{
    let mut model = model;
    let obj = match copy_name(model.objective_name(1)) {
        Ok(obj) => obj,
        Err(error) => {
            drop(model);
            return Err(error);
        }
    };
    let obj2 = match copy_name(model.objective_name(2)) {
        Ok(obj2) => obj2,
        Err(error) => {
            drop(obj);
            drop(model);
            return Err(error);
        }
    };
    let (rows, cols) = model.take_lists(alloc);
    drop(model);
    let zeros = [Frac::whole(0), Frac::whole(0)];
    let mut bare = Model::of_parts(Sense::Min, obj, obj2, zeros, rows, cols);
    bare.widen();
    Ok(bare)
}

/// The model in least form with constants 0, and with room for the rows and the column of an inner model.
pub fn bare_model(alloc: Global, model: &Model) -> Result<Model, AllocError>
    requires { model.now.wide ≡ false }
    ensures { IfOk result (λ m. m ≡ bare_model model.now) }
{
    match with_least_costs(alloc, model) {
        Ok(least) => minimized(alloc, least),
        Err(error) => Err(error),
    }
}
