// Edits of a model that change one column, or the sides of one row.
ghost use Rattle.std.specs.Prelude.{◌≡◌, ◌⊎◌, ◌↔◌, ◌<◌, length, IsTrue, IfOk, IfErr, Contains};
ghost use Rattle.lp_model.specs.declared.types.Edit.TheVariants.{SetRow};
ghost use Rattle.lp_model.specs.Elements.{changed_at};
ghost use Rattle.lp_model.specs.Lawful.{column_names};
ghost use Rattle.lp_model.specs.Edits.{side_or, with_sides, only_row_names, IsPlaceOf};
ghost use Rattle.model_edits.specs.declared.faults.EditFault.TheVariants.{NoSuch, Memory};
ghost use Rattle.model_edits.specs.private.Changes.{column_changed, column_edit, IsBoundedAfter};
ghost use Rattle.model_edits.specs.private.Answers.{IsPlaceCheck, IsEditAnswer};

use crate::faults::{EditFault, integer_unbounded, no_such, ranged};
use frac128::Frac;
use lp_model::{Bound, Col, List, Model, Name, Row, is_range, place_of};
use std::alloc::Global;

/// What changes of one column.
#[derive(Drop)]
pub(crate) enum ColChange {
    Cost(Frac),
    Cost2(Frac),
    Bounds(Bound, Bound),
    Kind(bool),
}

impl ColChange {
    /// Whether the column has two bounds after the change, if it is integer.
    fn keeps_bounded(&self, col: &Col) -> bool
        ensures { IsTrue result ↔ IsBoundedAfter self.now col.now }
    {
        match self {
            ColChange::Cost(_) => true,
            ColChange::Cost2(_) => true,
            ColChange::Bounds(lo, up) => !col.int || (lo.is_some() && up.is_some()),
            ColChange::Kind(int) => !*int || (col.lo.is_some() && col.up.is_some()),
        }
    }

    /// Makes the change.
    fn make(self, col: &mut Col)
        ensures { col.new ≡ column_changed self col.old }
    {
        match self {
            ColChange::Cost(v) => col.cost = v,
            ColChange::Cost2(v) => col.cost2 = v,
            ColChange::Bounds(lo, up) => {
                col.lo = lo;
                col.up = up;
            }
            ColChange::Kind(int) => col.int = int,
        }
    }
}

/// The side that is given, and else the one that there is.
fn side_or(given: &Option<Bound>, side: &Bound) -> Bound
    ensures { result ≡ side_or given.now side.now }
{
    match given {
        None => *side,
        Some(given) => *given,
    }
}

/// Gives a row the sides that are given.
fn set_sides(row: &mut Row, lo: &Option<Bound>, hi: &Option<Bound>)
    ensures { row.new ≡ with_sides lo.now hi.now row.old }
{
    row.lo = side_or(lo, &row.lo);
    row.hi = side_or(hi, &row.hi);
}

/// The columns with a change of the one at a place.
fn change_col(cols: List<Col>, place: usize, change: ColChange) -> List<Col>
    requires { place < length cols }
    ensures { result ≡ changed_at (column_changed change) cols place }
{
    let mut items = cols.into_vec();
    change.make(&mut items[place]);
    List::from_vec(items)
}

/// The rows with the sides that are given of the one at a place.
pub(crate) fn change_row(
    rows: List<Row>,
    place: usize,
    lo: &Option<Bound>,
    hi: &Option<Bound>,
) -> List<Row>
    requires { place < length rows }
    ensures { result ≡ changed_at (with_sides lo.now hi.now) rows place }
{
    let mut items = rows.into_vec();
    set_sides(&mut items[place], lo, hi);
    List::from_vec(items)
}

/// The place of the column with the name.
pub(crate) fn col_at(model: &Model, name: &Name) -> Result<usize, EditFault>
    ensures found { IfOk result (λ k. IsPlaceOf (column_names model.now) name.now k) }
    ensures fault { IfErr result (λ f. (f ≡ Memory) ⊎ ((f ≡ NoSuch name.now) × (¬ Contains (column_names model.now) name.now))) }
{
    match place_of(model.cols(), name.as_slice()) {
        Some(place) => Ok(place),
        None => Err(no_such(name)),
    }
}

/// The place of the row with the name.
pub(crate) fn row_at(model: &Model, name: &Name) -> Result<usize, EditFault>
    ensures found { IfOk result (λ k. IsPlaceOf (only_row_names model.now) name.now k) }
    ensures fault { IfErr result (λ f. (f ≡ Memory) ⊎ ((f ≡ NoSuch name.now) × (¬ Contains (only_row_names model.now) name.now))) }
{
    match place_of(model.rows(), name.as_slice()) {
        Some(place) => Ok(place),
        None => Err(no_such(name)),
    }
}

/// Refused with what is wrong with a change of a column, and else the column's place.
fn check_change(model: &Model, name: &Name, change: &ColChange) -> Result<usize, EditFault>
    ensures { IsPlaceCheck model.now (column_edit name.now change.now) (column_names model.now) name.now result }
{
    let place = match col_at(model, name) {
        Ok(place) => place,
        Err(fault) => return Err(fault),
    };
    if !change.keeps_bounded(&model.cols()[place]) {
        return Err(integer_unbounded(name));
    }
    Ok(place)
}

/// Changes a column.
pub(crate) fn set_col(
    model: &mut Model,
    alloc: Global,
    name: &Name,
    change: ColChange,
) -> Result<(), EditFault>
    ensures { IsEditAnswer model.old (column_edit name.now change) result model.new }
{
    let place = match check_change(model, name, &change) {
        Ok(place) => place,
        Err(fault) => return Err(fault),
    };
    let (rows, cols) = model.take_lists(alloc);
    model.put_lists(rows, change_col(cols, place, change));
    Ok(())
}

/// The place of a row that is to get the sides that are given. Refused where they are no range.
fn check_sides(
    model: &Model,
    name: &Name,
    lo: &Option<Bound>,
    hi: &Option<Bound>,
) -> Result<usize, EditFault>
    ensures { IsPlaceCheck model.now (SetRow name.now lo.now hi.now) (only_row_names model.now) name.now result }
{
    let place = match row_at(model, name) {
        Ok(place) => place,
        Err(fault) => return Err(fault),
    };
    let row = &model.rows()[place];
    if !is_range(&side_or(lo, &row.lo), &side_or(hi, &row.hi)) {
        return Err(ranged(name));
    }
    Ok(place)
}

/// Gives a row other sides.
pub(crate) fn set_row(
    model: &mut Model,
    alloc: Global,
    name: &Name,
    lo: &Option<Bound>,
    hi: &Option<Bound>,
) -> Result<(), EditFault>
    ensures { IsEditAnswer model.old (SetRow name.now lo.now hi.now) result model.new }
{
    let place = match check_sides(model, name, lo, hi) {
        Ok(place) => place,
        Err(fault) => return Err(fault),
    };
    let (rows, cols) = model.take_lists(alloc);
    model.put_lists(change_row(rows, place, lo, hi), cols);
    Ok(())
}
