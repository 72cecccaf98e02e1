// Edits of a model that take out a column or a row, or give a row other coefficients.
ghost use Rattle.std.specs.Prelude.{◌≡◌, ◌⊎◌, ◌++◌, ◌∷◌, [], map, filter, nat_lt, Contains, IfOk, OnOk, IfErr};
ghost use Rattle.frac128.specs.Rational.{ℚ};
ghost use Rattle.lp_model.specs.declared.types.RowId.{RowId as Place};
ghost use Rattle.lp_model.specs.declared.types.Edit.TheVariants.{DelCol, DelRow, ReplaceRow};
ghost use Rattle.lp_model.specs.Edits.{number_beside, entry_at, entries_without, without_entry, entries_with, replaced_entry, only_row_names, IsPlaceOf};
ghost use Rattle.model_edits.specs.declared.faults.EditFault.TheVariants.{NoSuch, Memory};
ghost use Rattle.model_edits.specs.private.Answers.{IsReplacementCheck, IsEditAnswer};

use crate::changing::{change_row, col_at, row_at};
use crate::edits::{count_entries, passed_limit, with_entries};
use crate::faults::{EditFault, ranged};
use crate::names::{number_beside, unknown_name};
use frac128::Frac;
use lp_model::{Bound, Col, List, Model, Name, RowId, is_range, is_zero, place_after};
use std::alloc::{AllocError, Global};

/// The entries without that of a row, which is taken out.
fn entries_without(
    alloc: Global,
    entries: &[(RowId, Frac)],
    row: u32,
) -> Result<List<(RowId, Frac)>, AllocError>
    ensures { IfOk result (λ es. es ≡ entries_without row entries.now) }
{
    let mut kept = List::new(alloc);
    for (place, number) in entries {
        if place.0 != row {
            let Ok(()) = kept.push((RowId(place_after(row, place.0)), *number)) else {
                drop(kept);
                return Err(AllocError);
            };
        }
    }
    Ok(kept)
}

/// Puts the entries of earlier rows behind those in the list.
fn push_earlier(
    list: &mut List<(RowId, Frac)>,
    entries: &[(RowId, Frac)],
    row: u32,
) -> Result<(), AllocError>
    ensures { OnOk result (list.new ≡ list.old ++ filter (λ (e : Place × ℚ). nat_lt e.0.0 row) entries.now) }
{
    for (place, number) in entries {
        if place.0 < row {
            let Ok(()) = list.push((*place, *number)) else {
                return Err(AllocError);
            };
        }
    }
    Ok(())
}

/// Puts the entries of later rows behind those in the list.
fn push_later(
    list: &mut List<(RowId, Frac)>,
    entries: &[(RowId, Frac)],
    row: u32,
) -> Result<(), AllocError>
    ensures { OnOk result (list.new ≡ list.old ++ filter (λ (e : Place × ℚ). nat_lt row e.0.0) entries.now) }
{
    for (place, number) in entries {
        if row < place.0 {
            let Ok(()) = list.push((*place, *number)) else {
                return Err(AllocError);
            };
        }
    }
    Ok(())
}

/// Puts a number as the entry of a row behind those in the list, where it is not 0.
fn push_entry(list: &mut List<(RowId, Frac)>, row: u32, number: &Frac) -> Result<(), AllocError>
    ensures { OnOk result (list.new ≡ list.old ++ entry_at row number.now) }
{
    if is_zero(number) {
        return Ok(());
    }
    let Ok(()) = list.push((RowId(row), *number)) else {
        return Err(AllocError);
    };
    Ok(())
}

/// The entries with that of a row made another.
fn entries_with(
    alloc: Global,
    entries: &[(RowId, Frac)],
    row: u32,
    number: &Frac,
) -> Result<List<(RowId, Frac)>, AllocError>
    ensures { IfOk result (λ es. es ≡ entries_with row number.now entries.now) }
{
    let mut list = List::new(alloc);
    let Ok(()) = push_earlier(&mut list, entries, row) else {
        drop(list);
        return Err(AllocError);
    };
    let Ok(()) = push_entry(&mut list, row, number) else {
        drop(list);
        return Err(AllocError);
    };
    let Ok(()) = push_later(&mut list, entries, row) else {
        drop(list);
        return Err(AllocError);
    };
    Ok(list)
}

/// A copy of the column without the entry of a row, which is taken out.
fn without_entry(alloc: Global, col: &Col, row: u32) -> Result<Col, AllocError>
    ensures { IfOk result (λ c. c ≡ without_entry row col.now) }
{
    let Ok(rows) = entries_without(alloc, col.rows.as_slice(), row) else {
        return Err(AllocError);
    };
    with_entries(col, rows)
}

/// A copy of the column with another entry of a row.
fn replaced_entry(alloc: Global, col: &Col, row: u32, number: &Frac) -> Result<Col, AllocError>
    ensures { IfOk result (λ c. c ≡ replaced_entry row number.now col.now) }
{
    let Ok(rows) = entries_with(alloc, col.rows.as_slice(), row, number) else {
        return Err(AllocError);
    };
    with_entries(col, rows)
}

/// The columns without the entries of a row, which is taken out.
fn without_row(alloc: Global, cols: &[Col], row: u32) -> Result<List<Col>, AllocError>
    ensures { IfOk result (λ cs. cs ≡ map (λ c. without_entry row c) cols.now) }
{
    let mut changed = List::new(alloc);
    for col in cols {
        let Ok(shorter) = without_entry(alloc, col, row) else {
            drop(changed);
            return Err(AllocError);
        };
        let Ok(()) = changed.push(shorter) else {
            drop(changed);
            return Err(AllocError);
        };
    }
    Ok(changed)
}

/// Puts a copy of the column with another coefficient of a row behind those in the list.
fn push_replaced(
    alloc: Global,
    list: &mut List<Col>,
    col: &Col,
    row: u32,
    named: &[(Name, Frac)],
) -> Result<(), AllocError>
    ensures { IfOk result (λ _. list.new ≡ list.old ++ replaced_entry row (number_beside col.now.name named.now) col.now ∷ []) }
{
    let number = number_beside(&col.name, named);
    let Ok(changed) = replaced_entry(alloc, col, row, &number) else {
        return Err(AllocError);
    };
    list.push(changed)
}

/// The columns with other coefficients of a row.
fn with_numbers(
    alloc: Global,
    cols: &[Col],
    row: u32,
    named: &[(Name, Frac)],
) -> Result<List<Col>, AllocError>
    ensures { IfOk result (λ cs. cs ≡ map (λ c. replaced_entry row (number_beside c.name named.now) c) cols.now) }
{
    let mut changed = List::new(alloc);
    for col in cols {
        let Ok(()) = push_replaced(alloc, &mut changed, col, row, named) else {
            drop(changed);
            return Err(AllocError);
        };
    }
    Ok(changed)
}

/// The place of the row with the name, as its id.
fn row_id_at(model: &Model, name: &Name) -> Result<u32, EditFault>
    ensures found { IfOk result (λ k. IsPlaceOf (only_row_names model.now) name.now k) }
    ensures fault { IfErr result (λ f. (f ≡ Memory) ⊎ ((f ≡ NoSuch name.now) × (¬ Contains (only_row_names model.now) name.now))) }
{
    let place = match row_at(model, name) {
        Ok(place) => place,
        Err(fault) => return Err(fault),
    };
    let _lawful = model.rows();
    Ok(place as u32)
}

/// Takes a column out.
pub(crate) fn del_col(model: &mut Model, alloc: Global, name: &Name) -> Result<(), EditFault>
    ensures { IsEditAnswer model.old (DelCol name.now) result model.new }
{
    let place = match col_at(model, name) {
        Ok(place) => place,
        Err(fault) => return Err(fault),
    };
    let (rows, mut cols) = model.take_lists(alloc);
    cols.remove(place);
    model.put_lists(rows, cols);
    Ok(())
}

/// Takes a row out.
pub(crate) fn del_row(model: &mut Model, alloc: Global, name: &Name) -> Result<(), EditFault>
    ensures { IsEditAnswer model.old (DelRow name.now) result model.new }
{
    let row = match row_id_at(model, name) {
        Ok(row) => row,
        Err(fault) => return Err(fault),
    };
    let Ok(changed) = without_row(alloc, model.cols(), row) else {
        return Err(EditFault::Memory);
    };
    let (mut rows, cols) = model.take_lists(alloc);
    drop(cols);
    rows.remove(row as usize);
    model.put_lists(rows, changed);
    Ok(())
}

/// The place of a row and the columns with its new coefficients, or what is wrong with them.
fn check_replacement(
    model: &Model,
    alloc: Global,
    name: &Name,
    lo: &Bound,
    hi: &Bound,
    named: &List<(Name, Frac)>,
) -> Result<(u32, List<Col>), EditFault>
    ensures { IsReplacementCheck model.now name.now lo.now hi.now named.now result }
{
    let row = match row_id_at(model, name) {
        Ok(row) => row,
        Err(fault) => return Err(fault),
    };
    let rows = model.rows();
    let cols = model.cols();
    let named = named.as_slice();
    if let Some(fault) = unknown_name(cols, named) {
        return Err(fault);
    }
    let Ok(changed) = with_numbers(alloc, cols, row, named) else {
        return Err(EditFault::Memory);
    };
    let entries = count_entries(changed.as_slice());
    if let Some(limit) = passed_limit(model.is_wide(), rows.len(), cols.len(), entries) {
        drop(changed);
        return Err(EditFault::Limit(limit));
    }
    if !is_range(lo, hi) {
        drop(changed);
        return Err(ranged(name));
    }
    Ok((row, changed))
}

/// Gives a row other sides and coefficients.
pub(crate) fn replace_row(
    model: &mut Model,
    alloc: Global,
    name: &Name,
    lo: Bound,
    hi: Bound,
    named: &List<(Name, Frac)>,
) -> Result<(), EditFault>
    ensures { IsEditAnswer model.old (ReplaceRow name.now lo hi named.now) result model.new }
{
    match check_replacement(model, alloc, name, &lo, &hi, named) {
        Ok((row, changed)) => {
            let (rows, cols) = model.take_lists(alloc);
            drop(cols);
            model.put_lists(
                change_row(rows, row as usize, &Some(lo), &Some(hi)),
                changed,
            );
            Ok(())
        }
        Err(fault) => Err(fault),
    }
}
