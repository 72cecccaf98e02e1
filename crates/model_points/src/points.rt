// What a model says of a point.
ghost use Rattle.std.specs.Prelude.{◌≡◌, ◌⊎◌, ◌↔◌, length, IsTrue, if◌then◌else◌, nat_eq};
ghost use Rattle.checked_sum.specs.Steps.{IsCheckedSum};
ghost use Rattle.lp_model.specs.Program.{IsWholeCost, HasWholeObjective, cost, coefficient, coordinate};
ghost use Rattle.model_points.specs.Answers.{value_step, IsValueAnswer, IsActivityAnswer, ColumnsHold, IsFeasibilityAnswer, IsWholeAnswer};

use checked_sum::{Terms, checked_sum};
use frac128::Frac;
use lp_model::{Col, ColId, Model, NotWhole, Point, RowId, WideStep, is_within, is_zero};

/// Whether the column's cost is whole, and 0 where the column is not integer.
fn has_whole_cost(col: &Col, which: u8) -> bool
    ensures { IsTrue result ↔ IsWholeCost col.now.int (if nat_eq which 2 then col.now.cost2 else col.now.cost) }
{
    let cost = col.cost_in(which);
    cost.is_whole() && (col.int || is_zero(cost))
}

/// The terms of a row's sum at a point.
#[derive(Drop)]
struct RowTerms<'a> {
    model: &'a Model,
    row: u32,
    numbers: &'a [Frac],
}

impl Terms for RowTerms<'_> {
    ghost count = { λ t. length t.model.now.cols };

    ghost factor = { λ t j. coefficient t.model.now t.row j };

    ghost number = { λ t j. coordinate t.numbers.now j };

    fn count(&self) -> usize {
        self.model.cols().len()
    }

    fn number(&self, index: usize) -> Frac {
        number_at(self.numbers, index)
    }

    fn factor(&self, index: usize) -> Frac {
        self.model.coefficient(self.row, index)
    }
}

/// The terms of an objective at a point.
#[derive(Drop)]
struct ValueTerms<'a> {
    model: &'a Model,
    which: u8,
    numbers: &'a [Frac],
}

impl Terms for ValueTerms<'_> {
    ghost count = { λ t. length t.model.now.cols };

    ghost factor = { λ t j. cost t.model.now t.which j };

    ghost number = { λ t j. coordinate t.numbers.now j };

    fn count(&self) -> usize {
        self.model.cols().len()
    }

    fn number(&self, index: usize) -> Frac {
        number_at(self.numbers, index)
    }

    fn factor(&self, index: usize) -> Frac {
        *self.model.cost_at(self.which, index)
    }
}

/// The number at a place, 0 past the end.
fn number_at(numbers: &[Frac], index: usize) -> Frac
    ensures { result ≡ coordinate numbers.now index }
{
    match numbers.get(index) {
        Some(number) => *number,
        None => Frac::whole(0),
    }
}

/// The sum of a point's costs in objective 1 or 2 from a start, or the first step that has no room.
pub(crate) fn costs_from(
    model: &Model,
    start: &Frac,
    which: u8,
    point: &Point,
) -> Result<Frac, WideStep>
    ensures { IsCheckedSum start.now (λ j. cost model.now which j) (λ j. coordinate point.now j) (length model.now.cols) value_step result }
{
    let terms = ValueTerms {
        model,
        which,
        numbers: point.as_slice(),
    };
    let _lawful = model.cols();
    match checked_sum(start, &terms) {
        Ok(sum) => Ok(sum),
        Err(index) => Err(WideStep::Value {
            col: Some(ColId(index as u32)),
        }),
    }
}

/// The value of a point in objective 1 or 2, or the first step that has no room.
pub fn value(model: &Model, which: u8, point: &Point) -> Result<Frac, WideStep>
    requires { (which ≡ 1) ⊎ (which ≡ 2) }
    ensures { IsValueAnswer model.now which point.now result }
{
    costs_from(model, model.constant(which), which, point)
}

/// The sum of a row at a point, or the first step that has no room.
pub fn activity(model: &Model, row: u32, point: &Point) -> Result<Frac, WideStep>
    ensures { IsActivityAnswer model.now point.now row result }
{
    let terms = RowTerms {
        model,
        row,
        numbers: point.as_slice(),
    };
    let _lawful = model.cols();
    match checked_sum(&Frac::whole(0), &terms) {
        Ok(activity) => Ok(activity),
        Err(index) => Err(WideStep::Act {
            row: RowId(row),
            col: ColId(index as u32),
        }),
    }
}

/// Whether each number is one that its column may have.
fn columns_hold(model: &Model, point: &Point) -> bool
    requires { length point.now ≡ length model.now.cols }
    ensures { IsTrue result ↔ ColumnsHold model.now point.now }
{
    let numbers = point.as_slice();
    for (index, col) in model.cols().iter().enumerate() {
        if !col.allows(&numbers[index]) {
            return false;
        }
    }
    true
}

/// Whether the point is feasible. It has one number for each column; columns come first, then rows: the first breach or
/// step without room decides.
pub fn is_feasible(model: &Model, point: &Point) -> Result<bool, WideStep>
    ensures { IsFeasibilityAnswer model.now point.now result }
{
    if point.as_slice().len() != model.cols().len() {
        return Ok(false);
    }
    if !columns_hold(model, point) {
        return Ok(false);
    }
    for (index, row) in model.rows().iter().enumerate() {
        match activity(model, index as u32, point) {
            Err(step) => return Err(step),
            Ok(activity) => {
                if !is_within(&row.lo, &row.hi, &activity) {
                    return Ok(false);
                }
            }
        }
    }
    Ok(true)
}

/// Whether objective 1 or 2 is whole: each column with a cost in it is integer, and these costs and the constant are
/// whole.
pub fn has_whole_objective(model: &Model, which: u8) -> bool
    requires { (which ≡ 1) ⊎ (which ≡ 2) }
    ensures { IsTrue result ↔ HasWholeObjective model.now which }
{
    whole_objective(model, which).is_ok()
}

/// Whether each column with a cost in objective 1 or 2 is integer, and these costs and the constant are whole.
/// Refused with the first column that is not so, else for the constant.
pub fn whole_objective(model: &Model, which: u8) -> Result<(), NotWhole>
    requires { (which ≡ 1) ⊎ (which ≡ 2) }
    ensures { IsWholeAnswer model.now which result }
{
    for (index, col) in model.cols().iter().enumerate() {
        if !has_whole_cost(col, which) {
            return Err(NotWhole {
                col: Some(ColId(index as u32)),
            });
        }
    }
    if model.constant(which).is_whole() {
        Ok(())
    } else {
        Err(NotWhole { col: None })
    }
}
