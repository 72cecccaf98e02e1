// Copies of a model with other sides, or with other costs.
ghost use Rattle.std.specs.Prelude.{◌≡◌, ◌↔◌, ◌<◌, All, length, IsTrue, IfOk};
ghost use Rattle.std.specs.Option.{option_map};
ghost use Rattle.frac128.specs.Rational.{ℚ};
ghost use Rattle.lp_model.specs.Elements.{changed_at};
ghost use Rattle.lp_model.specs.declared.types.RowId.{RowId as RowPlace};
ghost use Rattle.lp_model.specs.declared.types.ColId.{ColId as ColPlace};
ghost use Rattle.dual_bounds.specs.NewNumbers.{changed_all, with_side, with_cost, row_index, col_index, with_new_sides, with_new_costs, with_new_numbers, HasEqualSides, AreNewSides, AreNewCosts, AreNewNumbers};

use frac128::Frac;
use lp_model::{Bound, Col, ColId, List, Model, Row, RowId, show_all};
use std::alloc::{AllocError, Global};

/// Other numbers for a model.
#[derive(Drop)]
pub enum OtherNumbers {
    /// Numbers for the sides of rows.
    Sides(List<(RowId, Frac)>),
    /// Costs of columns in objective 1, in the model's own sense.
    Costs(List<(ColId, Frac)>),
}

/// Whether a row with these sides has one of them, or two equal ones, so that another number can stand for them.
#[tactic(auto, using(frac128::proofs::Comparison::comparisons))]
pub fn has_equal_sides(lo: &Bound, hi: &Bound) -> bool
    ensures { IsTrue result ↔ HasEqualSides lo.now hi.now }
{
    match (lo, hi) {
        (Some(low), Some(high)) => *low == *high,
        _ => true,
    }
}

/// The number for a side that is there.
fn side_with(side: &Bound, number: &Frac) -> Bound
    ensures { result ≡ option_map (λ _. number.now) side.now }
{
    match side {
        Some(_) => Some(*number),
        None => None,
    }
}

/// Gives a row the number for each side that it has.
fn set_side(row: &mut Row, number: &Frac)
    ensures { row.new ≡ with_side number.now row.old }
{
    row.lo = side_with(&row.lo, number);
    row.hi = side_with(&row.hi, number);
}

/// Gives the row at a place the number for each side that it has.
fn set_side_at(rows: &mut [Row], place: usize, number: &Frac)
    requires { place < length rows.old }
    ensures { rows.new ≡ changed_at (with_side number.now) rows.old place }
{
    set_side(&mut rows[place], number);
}

/// Gives each named row its number for each side that it has.
fn set_sides(rows: &mut [Row], sides: &[(RowId, Frac)])
    requires { All (λ (e : RowPlace × ℚ). e.0.0 < length rows.old) sides.now }
    ensures { rows.new ≡ changed_all row_index with_side sides.now rows.old }
{
    for side in sides {
        set_side_at(rows, side.0.0 as usize, &side.1);
    }
}

/// The rows with the numbers for the sides of those that are named.
fn rows_with(rows: List<Row>, sides: &[(RowId, Frac)]) -> List<Row>
    requires { All (λ (e : RowPlace × ℚ). e.0.0 < length rows) sides.now }
    ensures { result ≡ changed_all row_index with_side sides.now rows }
{
    let mut items = rows.into_vec();
    set_sides(items.as_mut_slice(), sides);
    List::from_vec(items)
}

/// Gives a column another cost in objective 1.
fn set_cost(col: &mut Col, number: &Frac)
    ensures { col.new ≡ with_cost number.now col.old }
{
    col.cost = *number;
}

/// Gives the column at a place another cost in objective 1.
fn set_cost_at(cols: &mut [Col], place: usize, number: &Frac)
    requires { place < length cols.old }
    ensures { cols.new ≡ changed_at (with_cost number.now) cols.old place }
{
    set_cost(&mut cols[place], number);
}

/// Gives each named column its cost in objective 1.
fn set_costs(cols: &mut [Col], costs: &[(ColId, Frac)])
    requires { All (λ (e : ColPlace × ℚ). e.0.0 < length cols.old) costs.now }
    ensures { cols.new ≡ changed_all col_index with_cost costs.now cols.old }
{
    for cost in costs {
        set_cost_at(cols, cost.0.0 as usize, &cost.1);
    }
}

/// The columns with the costs of those that are named.
fn cols_with(cols: List<Col>, costs: &[(ColId, Frac)]) -> List<Col>
    requires { All (λ (e : ColPlace × ℚ). e.0.0 < length cols) costs.now }
    ensures { result ≡ changed_all col_index with_cost costs.now cols }
{
    let mut items = cols.into_vec();
    set_costs(items.as_mut_slice(), costs);
    List::from_vec(items)
}

/// A copy of the model with these numbers for the sides of the named rows.
fn model_with_sides(
    alloc: Global,
    model: &Model,
    sides: &[(RowId, Frac)],
) -> Result<Model, AllocError>
    requires { AreNewSides model.now sides.now }
    ensures { IfOk result (λ m. m ≡ with_new_sides model.now sides.now) }
{
    show_all(sides);
    let mut changed = model.copy()?;
    let (rows, cols) = changed.take_lists(alloc);
    changed.put_lists(rows_with(rows, sides), cols);
    Ok(changed)
}

/// A copy of the model with these costs of the named columns.
fn model_with_costs(
    alloc: Global,
    model: &Model,
    costs: &[(ColId, Frac)],
) -> Result<Model, AllocError>
    requires { AreNewCosts model.now costs.now }
    ensures { IfOk result (λ m. m ≡ with_new_costs model.now costs.now) }
{
    let mut changed = model.copy()?;
    let (rows, cols) = changed.take_lists(alloc);
    changed.put_lists(rows, cols_with(cols, costs));
    Ok(changed)
}

/// A copy of the model with these numbers.
pub(crate) fn model_with_numbers(
    alloc: Global,
    model: &Model,
    numbers: &OtherNumbers,
) -> Result<Model, AllocError>
    requires { AreNewNumbers model.now numbers.now }
    ensures { IfOk result (λ m. m ≡ with_new_numbers model.now numbers.now) }
{
    match numbers {
        OtherNumbers::Sides(sides) => model_with_sides(alloc, model, sides.as_slice()),
        OtherNumbers::Costs(costs) => model_with_costs(alloc, model, costs.as_slice()),
    }
}
