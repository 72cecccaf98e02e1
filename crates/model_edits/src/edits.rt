// Edits of a model, a further row or column among them, and why one is refused.
ghost use Rattle.std.specs.Prelude.{◌≡◌, ◌↔◌, ◌<◌, ◌^◌, length, sum_by, map, Contains, IsTrue, IfOk, OnOk, OnErr, IfErr, IsSome, MatchOption};
ghost use Rattle.lp_model.specs.declared.types.Edit.TheVariants.{AddCol, AddRow};
ghost use Rattle.lp_model.specs.Lawful.{AreWithinLimits, row_names};
ghost use Rattle.lp_model.specs.Edits.{with_entry, number_beside, edited, adds_col, adds_row, EditFits};
ghost use Rattle.model_edits.specs.Faults.{PassesLimit, IsEditFault};
ghost use Rattle.model_edits.specs.private.Answers.{IsEditCheck, IsEditAnswer};

use crate::changing::{ColChange, set_col, set_row};
use crate::faults::{EditFault, duplicate, integer_unbounded, ranged};
use crate::names::{count_beside, entries_beside, has_name, is_same, number_beside, unknown_name};
use crate::removing::{del_col, del_row, replace_row};
use frac128::Frac;
use lp_model::{
    Bound, COL_LIMIT, Col, ENTRY_LIMIT, Edit, List, Model, Name, ROW_LIMIT, Row, RowId, copy_name,
    is_range, is_zero,
};
use std::alloc::{AllocError, Global};

/// The model after an edit. A refused edit leaves the model as it was.
pub fn apply(model: &mut Model, alloc: Global, edit: Edit) -> Result<(), EditFault>
    ensures edited { IfOk result (λ _. model.new ≡ edited model.old edit) }
    ensures fits { OnOk result (EditFits model.old edit) }
    ensures kept { OnErr result (model.new ≡ model.old) }
    ensures fault { IfErr result (λ f. IsEditFault model.old edit f) }
{
    let result = apply_lent(model, alloc, &edit);
    drop(edit);
    result
}

/// The same of an edit that the caller keeps.
pub fn apply_lent(model: &mut Model, alloc: Global, edit: &Edit) -> Result<(), EditFault>
    ensures edited { IfOk result (λ _. model.new ≡ edited model.old edit.now) }
    ensures fits { OnOk result (EditFits model.old edit.now) }
    ensures kept { OnErr result (model.new ≡ model.old) }
    ensures fault { IfErr result (λ f. IsEditFault model.old edit.now f) }
{
    make_edit(model, alloc, edit)
}

/// Makes an edit.
fn make_edit(model: &mut Model, alloc: Global, edit: &Edit) -> Result<(), EditFault>
    ensures { IsEditAnswer model.old edit.now result model.new }
{
    match edit {
        Edit::SetCost { col, v } => set_col(model, alloc, col, ColChange::Cost(*v)),
        Edit::SetCost2 { col, v } => set_col(model, alloc, col, ColChange::Cost2(*v)),
        Edit::SetRow { row, lo, hi } => set_row(model, alloc, row, lo, hi),
        Edit::SetColBounds { col, lo, up } => {
            set_col(model, alloc, col, ColChange::Bounds(*lo, *up))
        }
        Edit::SetKind { col, int } => set_col(model, alloc, col, ColChange::Kind(*int)),
        Edit::AddCol {
            name,
            int,
            lo,
            up,
            cost,
            cost2,
            entries,
        } => { add_col_of(model, alloc, name, *int, lo, up, cost, cost2, entries) }
        Edit::DelCol { col } => del_col(model, alloc, col),
        Edit::AddRow {
            name,
            lo,
            hi,
            entries,
        } => { add_row_of(model, alloc, name, lo, hi, entries) }
        Edit::DelRow { row } => del_row(model, alloc, row),
        Edit::ReplaceRow {
            row,
            lo,
            hi,
            entries,
        } => replace_row(model, alloc, row, *lo, *hi, entries),
    }
}

/// Adds a column that is given by its parts.
fn add_col_of(
    model: &mut Model,
    alloc: Global,
    name: &Name,
    int: bool,
    lo: &Bound,
    up: &Bound,
    cost: &Frac,
    cost2: &Frac,
    named: &List<(Name, Frac)>,
) -> Result<(), EditFault>
    ensures { IsEditAnswer model.old (AddCol name.now int lo.now up.now cost.now cost2.now named.now) result model.new }
{
    let Ok(name) = copy_name(name) else {
        return Err(EditFault::Memory);
    };
    let col = Col {
        name,
        int,
        lo: *lo,
        up: *up,
        cost: *cost,
        cost2: *cost2,
        rows: List::new(alloc),
    };
    add_col(model, alloc, col, named.as_slice())
}

/// Adds a row that is given by its parts.
fn add_row_of(
    model: &mut Model,
    alloc: Global,
    name: &Name,
    lo: &Bound,
    hi: &Bound,
    named: &List<(Name, Frac)>,
) -> Result<(), EditFault>
    ensures { IsEditAnswer model.old (AddRow name.now lo.now hi.now named.now) result model.new }
{
    let Ok(name) = copy_name(name) else {
        return Err(EditFault::Memory);
    };
    let row = Row {
        name,
        lo: *lo,
        hi: *hi,
    };
    add_row(model, alloc, row, named.as_slice())
}

/// The limit of the first count that passes its own.
pub(crate) fn passed_limit(wide: bool, rows: usize, columns: usize, entries: usize) -> Option<u64>
    ensures { MatchOption result (AreWithinLimits wide rows columns entries) (PassesLimit wide rows columns entries) }
{
    let row_limit = if wide { ROW_LIMIT + 2 } else { ROW_LIMIT };
    if rows > row_limit {
        return Some(row_limit as u64);
    }
    let col_limit = if wide { COL_LIMIT + 1 } else { COL_LIMIT };
    if columns > col_limit {
        return Some(col_limit as u64);
    }
    let entry_limit = if wide {
        ENTRY_LIMIT + 8_002
    } else {
        ENTRY_LIMIT
    };
    if entries > entry_limit {
        return Some(entry_limit as u64);
    }
    None
}

/// Whether the column has two bounds, if it is integer.
fn is_bounded(col: &Col) -> bool
    ensures { IsTrue result ↔ (IsTrue col.now.int → IsSome col.now.lo × IsSome col.now.up) }
{
    !col.int || (col.lo.is_some() && col.up.is_some())
}

/// How many entries the columns have.
pub(crate) fn count_entries(cols: &[Col]) -> usize
    requires { sum_by (λ c. length c.rows) cols.now < 2 ^ 32 }
    ensures { result ≡ sum_by (λ c. length c.rows) cols.now }
{
    cols.iter().map(|col| col.rows.as_slice().len()).sum()
}

/// A copy of the column with other entries.
pub(crate) fn with_entries(col: &Col, rows: List<(RowId, Frac)>) -> Result<Col, AllocError>
    ensures { IfOk result (λ c. c ≡ record col.now { rows = rows }) }
{
    match copy_name(&col.name) {
        Ok(name) => Ok(Col {
            name,
            int: col.int,
            lo: col.lo,
            up: col.up,
            cost: col.cost,
            cost2: col.cost2,
            rows,
        }),
        Err(error) => {
            drop(rows);
            Err(error)
        }
    }
}

/// A copy of the column with one more entry, where its number is not 0.
fn with_entry(alloc: Global, col: &Col, row: RowId, number: Frac) -> Result<Col, AllocError>
    ensures { IfOk result (λ c. c ≡ with_entry row.0 number col.now) }
{
    let mut rows = match col.rows.copy(alloc) {
        Ok(rows) => rows,
        Err(error) => return Err(error),
    };
    if is_zero(&number) {
        return with_entries(col, rows);
    }
    match rows.push((row, number)) {
        Ok(()) => with_entries(col, rows),
        Err(error) => {
            drop(rows);
            Err(error)
        }
    }
}

/// The columns with a further row's coefficients.
fn with_row(
    alloc: Global,
    cols: &[Col],
    row: RowId,
    named: &[(Name, Frac)],
) -> Result<List<Col>, AllocError>
    ensures { IfOk result (λ cs. cs ≡ map (λ c. with_entry row.0 (number_beside c.name named.now) c) cols.now) }
{
    let mut changed = List::new(alloc);
    for col in cols {
        let number = number_beside(&col.name, named);
        let Ok(longer) = with_entry(alloc, col, row, number) else {
            drop(changed);
            return Err(AllocError);
        };
        let Ok(()) = changed.push(longer) else {
            drop(changed);
            return Err(AllocError);
        };
    }
    Ok(changed)
}

fn add_col(
    model: &mut Model,
    alloc: Global,
    col: Col,
    named: &[(Name, Frac)],
) -> Result<(), EditFault>
    ensures { IsEditAnswer model.old (adds_col col named.now) result model.new }
{
    match check_col(model, &col, named) {
        Ok(()) => {}
        Err(fault) => {
            drop(col);
            return Err(fault);
        }
    }
    match insert_col(model, alloc, col, named) {
        Ok(()) => Ok(()),
        Err(_) => Err(EditFault::Memory),
    }
}

fn add_row(
    model: &mut Model,
    alloc: Global,
    row: Row,
    named: &[(Name, Frac)],
) -> Result<(), EditFault>
    ensures { IsEditAnswer model.old (adds_row row named.now) result model.new }
{
    match check_row(model, &row, named) {
        Ok(()) => {}
        Err(fault) => {
            drop(row);
            return Err(fault);
        }
    }
    match insert_row(model, alloc, row, named) {
        Ok(()) => Ok(()),
        Err(_) => Err(EditFault::Memory),
    }
}

/// Refused with what is wrong with a new column, its own entries aside.
fn check_col(model: &Model, col: &Col, named: &[(Name, Frac)]) -> Result<(), EditFault>
    ensures { IsEditCheck model.now (adds_col col.now named.now) result }
{
    let rows = model.rows();
    let cols = model.cols();
    if let Some(fault) = unknown_name(rows, named) {
        return Err(fault);
    }
    if has_name(cols, &col.name) {
        return Err(duplicate(&col.name));
    }
    let entries = count_entries(cols) + count_beside(rows, named);
    if let Some(limit) = passed_limit(model.is_wide(), rows.len(), cols.len() + 1, entries) {
        return Err(EditFault::Limit(limit));
    }
    if !is_bounded(col) {
        return Err(integer_unbounded(&col.name));
    }
    Ok(())
}

/// Refused with what is wrong with a new row.
fn check_row(model: &Model, row: &Row, named: &[(Name, Frac)]) -> Result<(), EditFault>
    ensures { IsEditCheck model.now (adds_row row.now named.now) result }
{
    let rows = model.rows();
    let cols = model.cols();
    if let Some(fault) = unknown_name(cols, named) {
        return Err(fault);
    }
    if has_row_name(model, &row.name) {
        return Err(duplicate(&row.name));
    }
    let entries = count_entries(cols) + count_beside(cols, named);
    if let Some(limit) = passed_limit(model.is_wide(), rows.len() + 1, cols.len(), entries) {
        return Err(EditFault::Limit(limit));
    }
    if !is_range(&row.lo, &row.hi) {
        return Err(ranged(&row.name));
    }
    Ok(())
}

/// Whether an objective or a row has the name.
fn has_row_name(model: &Model, name: &Name) -> bool
    ensures { IsTrue result ↔ Contains (row_names model.now) name.now }
{
    if is_same(model.objective_name(1), name) {
        return true;
    }
    if is_same(model.objective_name(2), name) {
        return true;
    }
    has_name(model.rows(), name)
}

/// The model with one more column.
fn insert_col(
    model: &mut Model,
    alloc: Global,
    col: Col,
    named: &[(Name, Frac)],
) -> Result<(), AllocError>
    requires { EditFits model.old (adds_col col named.now) }
    ensures edited { IfOk result (λ _. model.new ≡ edited model.old (adds_col col named.now)) }
    ensures kept { OnErr result (model.new ≡ model.old) }
{
    let Ok(entries) = entries_beside(alloc, model.rows(), named) else {
        drop(col);
        return Err(AllocError);
    };
    let mut col = col;
    col.rows = entries;
    let (rows, mut cols) = model.take_lists(alloc);
    match cols.push(col) {
        Ok(()) => {
            model.put_lists(rows, cols);
            Ok(())
        }
        Err(error) => {
            model.put_lists(rows, cols);
            Err(error)
        }
    }
}

/// The model with one more row.
fn insert_row(
    model: &mut Model,
    alloc: Global,
    row: Row,
    named: &[(Name, Frac)],
) -> Result<(), AllocError>
    requires { EditFits model.old (adds_row row named.now) }
    ensures edited { IfOk result (λ _. model.new ≡ edited model.old (adds_row row named.now)) }
    ensures kept { OnErr result (model.new ≡ model.old) }
{
    let place = RowId(model.rows().len() as u32);
    let Ok(changed) = with_row(alloc, model.cols(), place, named) else {
        drop(row);
        return Err(AllocError);
    };
    let (mut rows, cols) = model.take_lists(alloc);
    match rows.push(row) {
        Ok(()) => {
            drop(cols);
            model.put_lists(rows, changed);
            Ok(())
        }
        Err(error) => {
            drop(changed);
            model.put_lists(rows, cols);
            Err(error)
        }
    }
}
