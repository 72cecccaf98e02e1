// Lists of variables that are there, each once.
ghost use Rattle.std.specs.Prelude.{◌≡◌, ◌≢◌, ◌↔◌, ◌<◌, IsTrue, true, All, AllPairs, Contains, IfOk, length, map};
ghost use Rattle.lp_model.specs.Formulations.{formulation};
ghost use Rattle.search_parts.specs.Lists.{IsThere, IsActivityThere, NamesOnce, AreMultipliers, IsBasis, HasLists};
ghost use Rattle.search_parts.specs.private.Marks.{mark_index};

use branch_tree::LeafData;
use cover_cuts::CutPool;
use frac128::Frac;
use lp_model::{Basis, List, Model, Mult, Var};
use std::alloc::{AllocError, Global};

/// How many marks there are by which the variables of a list are told apart.
const MARKS: usize = 4096;

/// Whether the two are one variable.
fn is_same(first: &Var, second: &Var) -> bool
    ensures { IsTrue result ↔ (first.now ≡ second.now) }
{
    match (first, second) {
        (Var::Col(a), Var::Col(b)) => a.0 == b.0,
        (Var::Row(a), Var::Row(b)) => a.0 == b.0,
        (Var::Cut(a), Var::Cut(b)) => a.0 == b.0,
        _ => false,
    }
}

/// Whether the variable is among these.
fn is_named(vars: &[Var], var: &Var) -> bool
    ensures { IsTrue result ↔ Contains vars.now var.now }
{
    for other in vars {
        if is_same(other, var) {
            return true;
        }
    }
    false
}

/// The place of a variable's mark: variables of a model of some size have each their own.
fn mark_index(var: &Var) -> usize
    ensures mark { result ≡ mark_index var.now }
    ensures within { result < MARKS }
{
    var.key() as usize % MARKS
}

/// Whether the variable is among these, of which one has its mark if it is.
fn is_repeated(vars: &[Var], var: &Var, marked: bool) -> bool
    requires { Contains vars.now var.now → marked ≡ true }
    ensures { IsTrue result ↔ Contains vars.now var.now }
{
    marked && is_named(vars, var)
}

/// Whether no variable is named twice. One is compared with those before it only where one of them has its mark.
fn is_once(vars: &[Var]) -> bool
    ensures { IsTrue result ↔ AllPairs (λ a b. a ≢ b) vars.now }
{
    let mut marks = [false; MARKS];
    for place in 0..vars.len() {
        let mark = mark_index(&vars[place]);
        if is_repeated(&vars[..place], &vars[place], marks[mark]) {
            return false;
        }
        marks[mark] = true;
    }
    true
}

/// How many cuts there are.
fn cut_count(pool: &CutPool) -> usize
    ensures { result ≡ length pool.now }
{
    pool.rows().len()
}

/// Whether the row or the cut is there.
fn is_row_there(model: &Model, pool: &CutPool, var: &Var) -> bool
    ensures { IsTrue result ↔ IsActivityThere (formulation model.now pool.now) var.now }
{
    match var {
        Var::Col(_) => false,
        Var::Row(row) => (row.0 as usize) < model.rows().len(),
        Var::Cut(cut) => (cut.0 as usize) < cut_count(pool),
    }
}

/// Whether the variable is there.
fn is_there(model: &Model, pool: &CutPool, var: &Var) -> bool
    ensures { IsTrue result ↔ IsThere (formulation model.now pool.now) var.now }
{
    match var {
        Var::Col(col) => (col.0 as usize) < model.cols().len(),
        Var::Row(row) => (row.0 as usize) < model.rows().len(),
        Var::Cut(cut) => (cut.0 as usize) < cut_count(pool),
    }
}

/// Whether all of them are rows and cuts that are there.
fn are_rows(model: &Model, pool: &CutPool, vars: &[Var]) -> bool
    ensures { IsTrue result ↔ All (IsActivityThere (formulation model.now pool.now)) vars.now }
{
    for var in vars {
        if !is_row_there(model, pool, var) {
            return false;
        }
    }
    true
}

/// Whether all of them are there.
fn are_there(model: &Model, pool: &CutPool, vars: &[Var]) -> bool
    ensures { IsTrue result ↔ All (IsThere (formulation model.now pool.now)) vars.now }
{
    for var in vars {
        if !is_there(model, pool, var) {
            return false;
        }
    }
    true
}

/// The variables of a list of multipliers.
fn vars_of(alloc: Global, mult: &[(Var, Frac)]) -> Result<List<Var>, AllocError>
    ensures { IfOk result (λ vars. vars ≡ map (λ m. m.0) mult.now) }
{
    let mut vars = List::new(alloc);
    for (var, _) in mult {
        vars.push(*var)?;
    }
    Ok(vars)
}

/// Whether all of them are rows and cuts that are there, each once.
fn are_rows_once(model: &Model, pool: &CutPool, vars: &[Var]) -> bool
    ensures { IsTrue result ↔ NamesOnce (IsActivityThere (formulation model.now pool.now)) vars.now }
{
    are_rows(model, pool, vars) && is_once(vars)
}

/// Whether the multipliers are of rows and cuts that are there, each once.
pub fn are_multipliers(
    alloc: Global,
    model: &Model,
    pool: &CutPool,
    mult: &Mult,
) -> Result<bool, AllocError>
    ensures { IfOk result (λ are. IsTrue are ↔ AreMultipliers (formulation model.now pool.now) mult.now) }
{
    let vars = match vars_of(alloc, mult.as_slice()) {
        Ok(vars) => vars,
        Err(error) => return Err(error),
    };
    Ok(are_rows_once(model, pool, vars.as_slice()))
}

/// Whether the variables are there, each once.
fn names_once(model: &Model, pool: &CutPool, vars: &[Var]) -> bool
    ensures { IsTrue result ↔ NamesOnce (IsThere (formulation model.now pool.now)) vars.now }
{
    are_there(model, pool, vars) && is_once(vars)
}

/// Whether both lists of the basis name what is there, each once.
pub fn is_basis(model: &Model, pool: &CutPool, basis: &Basis) -> bool
    ensures { IsTrue result ↔ IsBasis (formulation model.now pool.now) basis.now }
{
    names_once(model, pool, basis.basic.as_slice())
        && names_once(model, pool, basis.high.as_slice())
}

/// Whether each list of a leaf's data names what is there, each once.
pub fn has_lists(
    alloc: Global,
    model: &Model,
    pool: &CutPool,
    kept: &LeafData,
) -> Result<bool, AllocError>
    ensures { IfOk result (λ has. IsTrue has ↔ HasLists (formulation model.now pool.now) kept.now) }
{
    match are_multipliers(alloc, model, pool, &kept.mult) {
        Ok(true) => {}
        Ok(false) => return Ok(false),
        Err(error) => return Err(error),
    }
    match are_multipliers(alloc, model, pool, &kept.farkas) {
        Ok(true) => {}
        Ok(false) => return Ok(false),
        Err(error) => return Err(error),
    }
    Ok(is_basis(model, pool, &kept.basis))
}
