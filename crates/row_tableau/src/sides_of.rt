// Sides and costs of the variables of a relaxation.
ghost use Rattle.std.specs.Prelude.{◌≡◌, ◌<◌, ◌+◌, ℕ, length, get_or, pos, IfOk, None};
ghost use Rattle.frac128.specs.Rational.{int};
ghost use Rattle.lp_model.specs.Regions.{AreNarrow};
ghost use Rattle.row_tableau.specs.Activities.{activity_count, activity_low, activity_high};
ghost use Rattle.row_tableau.specs.Relaxations.{HasFewCuts, form_of, plain, relaxation_of};
ghost use Rattle.table_entries.specs.Directions.{direction_side};

use crate::relax::{Relax, RelaxKind};
use frac128::Frac;
use lp_model::Bound;
use std::alloc::{AllocError, Global};

/// The low side that a variable has in the model's relaxation.
fn plain_low(relax: &Relax<'_>, variable: usize) -> Bound
    requires within { variable < length relax.now.model.now.cols + activity_count (form_of relax.now) }
    requires narrow { AreNarrow relax.now.region.now }
    ensures { result ≡ (plain (form_of relax.now) relax.now.region.now).low variable }
{
    let columns = relax.model.cols().len();
    if variable < columns {
        relax.model.region_low(relax.region, variable)
    } else {
        relax.activity_low(variable - columns)
    }
}

/// The high side that a variable has in the model's relaxation.
fn plain_high(relax: &Relax<'_>, variable: usize) -> Bound
    requires within { variable < length relax.now.model.now.cols + activity_count (form_of relax.now) }
    requires narrow { AreNarrow relax.now.region.now }
    ensures { result ≡ (plain (form_of relax.now) relax.now.region.now).high variable }
{
    let columns = relax.model.cols().len();
    if variable < columns {
        relax.model.region_high(relax.region, variable)
    } else {
        relax.activity_high(variable - columns)
    }
}

/// The side of the directions: 0 where there is one, and else a bound for a column alone.
fn direction_side(is_column: bool, bound: i64, side: &Bound) -> Bound
    ensures { result ≡ direction_side is_column (int bound) side.now }
{
    match side {
        Some(_) => Some(Frac::whole(0)),
        None if is_column => Some(Frac::whole(bound)),
        None => None,
    }
}

/// The low side of a variable.
pub fn low_of(relax: &Relax<'_>, variable: usize) -> Bound
    requires within { variable < length relax.now.model.now.cols + activity_count (form_of relax.now) }
    requires narrow { AreNarrow relax.now.region.now }
    ensures { result ≡ (relaxation_of relax.now).low variable }
{
    let side = plain_low(relax, variable);
    match relax.kind {
        RelaxKind::Plain => side,
        RelaxKind::CostsZero => side,
        RelaxKind::Directions => direction_side(variable < relax.model.cols().len(), -1, &side),
    }
}

/// The high side of a variable.
pub fn high_of(relax: &Relax<'_>, variable: usize) -> Bound
    requires within { variable < length relax.now.model.now.cols + activity_count (form_of relax.now) }
    requires narrow { AreNarrow relax.now.region.now }
    ensures { result ≡ (relaxation_of relax.now).high variable }
{
    let side = plain_high(relax, variable);
    match relax.kind {
        RelaxKind::Plain => side,
        RelaxKind::CostsZero => side,
        RelaxKind::Directions => direction_side(variable < relax.model.cols().len(), 1, &side),
    }
}

/// The low sides of all variables.
pub fn lows(alloc: Global, relax: &Relax<'_>) -> Result<Vec<Bound>, AllocError>
    requires narrow { AreNarrow relax.now.region.now }
    requires few { HasFewCuts relax.now }
    ensures length { IfOk result (λ v. length v.items ≡ length relax.now.model.now.cols + activity_count (form_of relax.now)) }
    ensures items { IfOk result (λ v. (u : ℕ) → u < length relax.now.model.now.cols + activity_count (form_of relax.now) → get_or v.items u None ≡ (relaxation_of relax.now).low u) }
{
    let variables = relax.variables();
    let mut list = match Vec::with_capacity(alloc, variables) {
        Ok(list) => list,
        Err(error) => return Err(error),
    };
    for variable in 0..variables {
        match list.push(low_of(relax, variable)) {
            Ok(()) => {}
            Err(error) => return Err(error.into()),
        }
    }
    Ok(list)
}

/// The high sides of all variables.
pub fn highs(alloc: Global, relax: &Relax<'_>) -> Result<Vec<Bound>, AllocError>
    requires narrow { AreNarrow relax.now.region.now }
    requires few { HasFewCuts relax.now }
    ensures length { IfOk result (λ v. length v.items ≡ length relax.now.model.now.cols + activity_count (form_of relax.now)) }
    ensures items { IfOk result (λ v. (u : ℕ) → u < length relax.now.model.now.cols + activity_count (form_of relax.now) → get_or v.items u None ≡ (relaxation_of relax.now).high u) }
{
    let variables = relax.variables();
    let mut list = match Vec::with_capacity(alloc, variables) {
        Ok(list) => list,
        Err(error) => return Err(error),
    };
    for variable in 0..variables {
        match list.push(high_of(relax, variable)) {
            Ok(()) => {}
            Err(error) => return Err(error.into()),
        }
    }
    Ok(list)
}

/// The cost that a variable has in the model's relaxation.
fn plain_cost(relax: &Relax<'_>, variable: usize) -> Frac
    ensures { result ≡ (plain (form_of relax.now) relax.now.region.now).cost variable }
{
    if variable < relax.model.cols().len() {
        relax
            .model
            .sense()
            .least_form(relax.model.cost(1, variable))
    } else {
        Frac::whole(0)
    }
}

/// The cost of a variable.
pub fn cost_of(relax: &Relax<'_>, variable: usize) -> Frac
    ensures { result ≡ (relaxation_of relax.now).cost variable }
{
    match relax.kind {
        RelaxKind::Plain => plain_cost(relax, variable),
        RelaxKind::CostsZero => Frac::whole(0),
        RelaxKind::Directions => plain_cost(relax, variable),
    }
}

/// The costs of all variables.
pub fn costs(alloc: Global, relax: &Relax<'_>) -> Result<Vec<Frac>, AllocError>
    requires few { HasFewCuts relax.now }
    ensures length { IfOk result (λ v. length v.items ≡ length relax.now.model.now.cols + activity_count (form_of relax.now)) }
    ensures items { IfOk result (λ v. (u : ℕ) → u < length relax.now.model.now.cols + activity_count (form_of relax.now) → get_or v.items u (int (pos 0)) ≡ (relaxation_of relax.now).cost u) }
{
    let variables = relax.variables();
    let mut list = match Vec::with_capacity(alloc, variables) {
        Ok(list) => list,
        Err(error) => return Err(error),
    };
    for variable in 0..variables {
        match list.push(cost_of(relax, variable)) {
            Ok(()) => {}
            Err(error) => return Err(error.into()),
        }
    }
    Ok(list)
}
