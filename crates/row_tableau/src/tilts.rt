// How costs are tilted, by the sides that variables have in the model.
ghost use Rattle.std.specs.Prelude.{◌≡◌, ◌<◌, ◌+◌, ◌++◌, ℕ, length, get_or, IfOk};
ghost use Rattle.table_entries.specs.declared.stand.Stand.TheVariants.{Free};
ghost use Rattle.row_tableau.specs.Activities.{activity_count};
ghost use Rattle.row_tableau.specs.Relaxations.{HasFewCuts, form_of};
ghost use Rattle.row_tableau.specs.Tilts.{model_low, model_high, stand_by_sides, free_tilt, tilt_of, has_side, is_sided, sided, unsided, order_of};

use crate::relax::{Relax, RelaxKind};
use lp_model::Bound;
use std::alloc::{AllocError, Global};
use table_entries::Stand;

/// The low side that a variable has in the model.
fn model_low(relax: &Relax<'_>, variable: usize) -> Bound
    requires { variable < length relax.now.model.now.cols + activity_count (form_of relax.now) }
    ensures { result ≡ model_low (form_of relax.now) variable }
{
    let columns = relax.model.cols().len();
    if variable < columns {
        relax.model.cols()[variable].lo
    } else {
        relax.activity_low(variable - columns)
    }
}

/// The high side that a variable has in the model.
fn model_high(relax: &Relax<'_>, variable: usize) -> Bound
    requires { variable < length relax.now.model.now.cols + activity_count (form_of relax.now) }
    ensures { result ≡ model_high (form_of relax.now) variable }
{
    let columns = relax.model.cols().len();
    if variable < columns {
        relax.model.cols()[variable].up
    } else {
        relax.activity_high(variable - columns)
    }
}

/// The low side where there is one, else the high one, else what is given.
fn stand_by_sides(none: Stand, low: &Bound, high: &Bound) -> Stand
    ensures { result ≡ stand_by_sides none low.now high.now }
{
    match (low, high) {
        (Some(_), _) => Stand::Low,
        (None, Some(_)) => Stand::High,
        (None, None) => none,
    }
}

/// How a variable without sides is tilted.
fn free_tilt(relax: &Relax<'_>, variable: usize) -> Stand
    ensures { result ≡ free_tilt relax.now.kind (length relax.now.model.now.cols) variable }
{
    match relax.kind {
        RelaxKind::Plain => Stand::Free,
        RelaxKind::CostsZero => Stand::Free,
        RelaxKind::Directions => {
            if variable < relax.model.cols().len() {
                Stand::Low
            } else {
                Stand::Free
            }
        }
    }
}

/// The tilt of a variable.
fn tilt_of(relax: &Relax<'_>, variable: usize) -> Stand
    requires { variable < length relax.now.model.now.cols + activity_count (form_of relax.now) }
    ensures { result ≡ tilt_of relax.now.kind (form_of relax.now) variable }
{
    stand_by_sides(
        free_tilt(relax, variable),
        &model_low(relax, variable),
        &model_high(relax, variable),
    )
}

/// The tilts of all variables.
pub fn tilts(alloc: Global, relax: &Relax<'_>) -> Result<Vec<Stand>, AllocError>
    requires few { HasFewCuts relax.now }
    ensures length { IfOk result (λ v. length v.items ≡ length relax.now.model.now.cols + activity_count (form_of relax.now)) }
    ensures items { IfOk result (λ v. (u : ℕ) → u < length relax.now.model.now.cols + activity_count (form_of relax.now) → get_or v.items u Free ≡ tilt_of relax.now.kind (form_of relax.now) u) }
{
    let variables = relax.variables();
    let mut list = match Vec::with_capacity(alloc, variables) {
        Ok(list) => list,
        Err(error) => return Err(error),
    };
    for variable in 0..variables {
        match list.push(tilt_of(relax, variable)) {
            Ok(()) => {}
            Err(error) => return Err(error.into()),
        }
    }
    Ok(list)
}

/// Whether there is a side.
fn has_side(low: &Bound, high: &Bound) -> bool
    ensures { result ≡ has_side low.now high.now }
{
    match (low, high) {
        (Some(_), _) => true,
        (None, Some(_)) => true,
        (None, None) => false,
    }
}

/// Whether a variable has a side in the model.
pub fn is_sided(relax: &Relax<'_>, variable: usize) -> bool
    requires { variable < length relax.now.model.now.cols + activity_count (form_of relax.now) }
    ensures { result ≡ is_sided (form_of relax.now) variable }
{
    has_side(&model_low(relax, variable), &model_high(relax, variable))
}

/// The variables that have a side in the model, rising.
fn sided(alloc: Global, relax: &Relax<'_>) -> Result<Vec<usize>, AllocError>
    requires few { HasFewCuts relax.now }
    ensures { IfOk result (λ v. v.items ≡ sided (form_of relax.now)) }
{
    let variables = relax.variables();
    let mut list = match Vec::with_capacity(alloc, variables) {
        Ok(list) => list,
        Err(error) => return Err(error),
    };
    for variable in 0..variables {
        if is_sided(relax, variable) {
            match list.push(variable) {
                Ok(()) => {}
                Err(error) => return Err(error.into()),
            }
        }
    }
    Ok(list)
}

/// The list, and behind it the columns that have no side in the model, rising.
fn with_unsided(list: Vec<usize>, relax: &Relax<'_>) -> Result<Vec<usize>, AllocError>
    ensures { IfOk result (λ v. v.items ≡ list.items ++ unsided (form_of relax.now)) }
{
    let mut list = list;
    for column in 0..relax.model.cols().len() {
        if !is_sided(relax, column) {
            match list.push(column) {
                Ok(()) => {}
                Err(error) => return Err(error.into()),
            }
        }
    }
    Ok(list)
}

/// The variables that have a part, in the order of the parts.
pub fn order(alloc: Global, relax: &Relax<'_>) -> Result<Vec<usize>, AllocError>
    requires few { HasFewCuts relax.now }
    ensures { IfOk result (λ v. v.items ≡ order_of relax.now.kind (form_of relax.now)) }
{
    let list = match sided(alloc, relax) {
        Ok(list) => list,
        Err(error) => return Err(error),
    };
    match relax.kind {
        RelaxKind::Plain => Ok(list),
        RelaxKind::CostsZero => Ok(list),
        RelaxKind::Directions => with_unsided(list, relax),
    }
}
