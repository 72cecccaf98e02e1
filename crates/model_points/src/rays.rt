// Whether a direction is a ray, and the model without costs.
ghost use Rattle.std.specs.Prelude.{◌≡◌, ◌↔◌, ◌++◌, [], ◌∷◌, length, map, pos, IsTrue, IfOk};
ghost use Rattle.frac128.specs.Rational.{int};
ghost use Rattle.model_points.specs.Rays.{GoesOn, ColumnsGoOn, IsDirectionCostAnswer, IsRayJudged, without_cost, without_costs};
ghost use Rattle.model_points.specs.private.Rays.{AreRowsJudged};

use crate::points::{activity, costs_from};
use frac128::Frac;
use lp_model::{Bound, Col, List, Model, Point, WideStep};
use std::alloc::{AllocError, Global};

/// Whether neither side is ever passed by adding the number again and again.
fn goes_on(low: &Bound, high: &Bound, number: &Frac) -> bool
    ensures { IsTrue result ↔ GoesOn low.now high.now number.now }
{
    if number.is_negative() {
        return low.is_none();
    }
    if number.is_positive() {
        return high.is_none();
    }
    true
}

/// Whether a direction may have the number in the column: 0 where the column is integer, and no bound is ever passed.
fn column_goes_on(col: &Col, number: &Frac) -> bool
    ensures { IsTrue result ↔ (IsTrue col.now.int → number.now ≡ int (pos 0)) × GoesOn col.now.lo col.now.up number.now }
{
    (!col.int || number.is_zero()) && goes_on(&col.lo, &col.up, number)
}

/// The column with the cost 0 in objective 1, behind the others.
fn push_without_cost(list: &mut List<Col>, col: &Col) -> Result<(), AllocError>
    ensures { IfOk result (λ _. list.new ≡ list.old ++ without_cost col.now ∷ []) }
{
    match col.with_cost(Frac::whole(0)) {
        Ok(col) => list.push(col),
        Err(error) => Err(error),
    }
}

/// The columns with costs 0 in objective 1.
fn cols_without_costs(alloc: Global, cols: &[Col]) -> Result<List<Col>, AllocError>
    ensures { IfOk result (λ l. l ≡ map without_cost cols.now) }
{
    let mut list = List::new(alloc);
    for col in cols {
        match push_without_cost(&mut list, col) {
            Ok(()) => {}
            Err(error) => {
                drop(list);
                return Err(error);
            }
        }
    }
    Ok(list)
}

/// What objective 1 gains by a direction, in least form and without the constant, or the first step that has no room.
pub fn direction_cost(model: &Model, direction: &Point) -> Result<Frac, WideStep>
    ensures { IsDirectionCostAnswer model.now direction.now result }
{
    match costs_from(model, &Frac::whole(0), 1, direction) {
        Ok(cost) => Ok(model.sense().least_form(&cost)),
        Err(step) => Err(step),
    }
}

/// Whether each column may go on along a direction.
fn columns_go_on(model: &Model, direction: &Point) -> bool
    requires { length direction.now ≡ length model.now.cols }
    ensures { IsTrue result ↔ ColumnsGoOn model.now direction.now }
{
    let numbers = direction.as_slice();
    for (index, col) in model.cols().iter().enumerate() {
        if !column_goes_on(col, &numbers[index]) {
            return false;
        }
    }
    true
}

/// Whether each row goes on along a direction: the first that does not, or step without room, decides.
fn rows_go_on(model: &Model, direction: &Point) -> Result<bool, WideStep>
    ensures { AreRowsJudged model.now direction.now result }
{
    for (index, row) in model.rows().iter().enumerate() {
        match activity(model, index as u32, direction) {
            Err(step) => return Err(step),
            Ok(activity) => {
                if !goes_on(&row.lo, &row.hi, &activity) {
                    return Ok(false);
                }
            }
        }
    }
    Ok(true)
}

/// Whether the direction is a ray: one number for each column, 0 where it is integer, no side and no bound ever passed,
/// and an objective 1 that improves. Columns come first, then rows, then the cost: the first breach or step without room
/// decides.
pub fn is_ray(model: &Model, direction: &Point) -> Result<bool, WideStep>
    ensures { IsRayJudged model.now direction.now result }
{
    if direction.as_slice().len() != model.cols().len() {
        return Ok(false);
    }
    if !columns_go_on(model, direction) {
        return Ok(false);
    }
    match rows_go_on(model, direction) {
        Err(step) => return Err(step),
        Ok(false) => return Ok(false),
        Ok(true) => {}
    }
    match direction_cost(model, direction) {
        Err(step) => Err(step),
        Ok(cost) => Ok(cost.is_negative()),
    }
}

/// The model with costs 0 in objective 1. Its constants and objective 2 stay.
pub fn without_costs(model: &Model, alloc: Global) -> Result<Model, AllocError>
    ensures { IfOk result (λ m. m ≡ without_costs model.now) }
{
    match cols_without_costs(alloc, model.cols()) {
        Ok(cols) => model.with_cols(cols),
        Err(error) => Err(error),
    }
}
