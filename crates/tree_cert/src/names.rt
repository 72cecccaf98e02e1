// Numbers beside the names of rows and columns, and cuts by names.
ghost use Rattle.std.specs.Prelude.{◌≡◌, suc, ◌<◌, ◌++◌, ◌∷◌, [], length, map, All, IfOk};
ghost use Rattle.lp_model.specs.Formulations.{formulation};
ghost use Rattle.search_parts.specs.Lists.{IsActivityThere, AreMultipliers};
ghost use Rattle.tree_cert.specs.Certificates.{unless_zero, nonzero_numbers};
ghost use Rattle.tree_cert.specs.Cuts.{named_literal, named_cut, derivation_at, named_cuts, cut_named, mult_named, mults_named};
ghost use Rattle.tree_cert.specs.private.Marked.{IsDerivationThere};
ghost use Rattle.lp_model.specs.Lawful.{row_name, column_name};

use cert_text::{CertMult, NamedCut};
use frac128::Frac;
use lp_model::{
    Col, ColId, CutId, CutRow, Derivation, List, Literal, Model, Name, Point, RowId, Var,
};
use std::alloc::{AllocError, Global};

/// The name of a column.
pub(crate) fn column_name(alloc: Global, model: &Model, col: ColId) -> Result<Name, AllocError>
    requires { col.0 < length model.now.cols }
    ensures { IfOk result (λ name. name ≡ column_name model.now col.0) }
{
    let found = &model.cols()[col.0 as usize];
    Name::from_slice(alloc, found.name.as_slice())
}

/// The name of a row.
fn row_name(alloc: Global, model: &Model, row: RowId) -> Result<Name, AllocError>
    requires { row.0 < length model.now.rows }
    ensures { IfOk result (λ name. name ≡ row_name model.now row.0) }
{
    let found = &model.rows()[row.0 as usize];
    Name::from_slice(alloc, found.name.as_slice())
}

/// A multiplier of a cut by its place, from 1, if it counts.
fn add_cut(
    mults: &mut List<CertMult>,
    cuts: &[CutRow],
    cut: CutId,
    number: Frac,
) -> Result<(), AllocError>
    requires { cut.0 < length cuts.now }
    ensures { IfOk result (λ _. mults.new ≡ mults.old ++ cut_named cuts.now suc cut.0 number) }
{
    let live = cuts[cut.0 as usize].live;
    if !live {
        return Ok(());
    }
    mults.push(CertMult::Cut(u64::from(cut.0) + 1, number))
}

/// A multiplier, of a row by its name and of a cut that counts by its place, from 1.
fn add_mult(
    alloc: Global,
    mults: &mut List<CertMult>,
    model: &Model,
    cuts: &[CutRow],
    var: Var,
    number: Frac,
) -> Result<(), AllocError>
    requires { IsActivityThere (formulation model.now cuts.now) var }
    ensures { IfOk result (λ _. mults.new ≡ mults.old ++ mult_named (formulation model.now cuts.now) suc var number) }
{
    match var {
        Var::Row(row) => match row_name(alloc, model, row) {
            Ok(name) => mults.push(CertMult::Row(name, number)),
            Err(error) => Err(error),
        },
        Var::Cut(cut) => add_cut(mults, cuts, cut, number),
        Var::Col(_) => Ok(()),
    }
}

/// Multipliers, of rows by their names and of the cuts that count by their places, from 1.
pub(crate) fn mults_named(
    alloc: Global,
    model: &Model,
    cuts: &[CutRow],
    mult: &[(Var, Frac)],
) -> Result<List<CertMult>, AllocError>
    requires { AreMultipliers (formulation model.now cuts.now) mult.now }
    ensures { IfOk result (λ mults. mults ≡ mults_named (formulation model.now cuts.now) suc mult.now) }
{
    let mut mults = List::new(alloc);
    for (var, number) in mult {
        let Ok(()) = add_mult(alloc, &mut mults, model, cuts, *var, *number) else {
            return Err(AllocError);
        };
    }
    Ok(mults)
}

/// Literals by the names of their columns.
fn named_literals(
    alloc: Global,
    model: &Model,
    literals: &[Literal],
) -> Result<List<(Name, bool)>, AllocError>
    requires { All (λ l. l.col.0 < length model.now.cols) literals.now }
    ensures { IfOk result (λ named. named ≡ map (named_literal model.now) literals.now) }
{
    let mut named = List::new(alloc);
    for literal in literals {
        let Ok(name) = column_name(alloc, model, literal.col) else {
            return Err(AllocError);
        };
        let Ok(()) = named.push((name, literal.plus)) else {
            return Err(AllocError);
        };
    }
    Ok(named)
}

/// One more derivation by names.
fn push_named_cut(
    alloc: Global,
    named: &mut List<NamedCut>,
    model: &Model,
    from: &Derivation,
) -> Result<(), AllocError>
    requires { IsDerivationThere model.now from.now }
    ensures { IfOk result (λ _. named.new ≡ named.old ++ named_cut model.now from.now ∷ []) }
{
    let Ok(row) = row_name(alloc, model, from.row) else {
        return Err(AllocError);
    };
    let Ok(literals) = named_literals(alloc, model, from.literals.as_slice()) else {
        drop(row);
        return Err(AllocError);
    };
    named.push(NamedCut {
        row,
        side: from.side,
        literals,
    })
}

/// The cuts at these places of a pool, by names.
pub(crate) fn named_cuts(
    alloc: Global,
    model: &Model,
    cuts: &[CutRow],
    used: &[usize],
) -> Result<List<NamedCut>, AllocError>
    requires within { All (λ k. k < length cuts.now) used.now }
    requires there { All (λ k. IsDerivationThere model.now (derivation_at cuts.now k)) used.now }
    ensures { IfOk result (λ named. named ≡ named_cuts model.now cuts.now used.now) }
{
    let mut named = List::new(alloc);
    for index in 0..used.len() {
        let Ok(()) = push_named_cut(alloc, &mut named, model, &cuts[used[index]].from) else {
            return Err(AllocError);
        };
    }
    Ok(named)
}

/// A number beside the name of its column, where it is not 0.
fn add_nonzero(
    alloc: Global,
    named: &mut List<(Name, Frac)>,
    col: &Col,
    number: &Frac,
) -> Result<(), AllocError>
    ensures { IfOk result (λ _. named.new ≡ named.old ++ unless_zero col.now.name number.now []) }
{
    if number.is_zero() {
        return Ok(());
    }
    let Ok(name) = Name::from_slice(alloc, col.name.as_slice()) else {
        return Err(AllocError);
    };
    named.push((name, *number))
}

/// The numbers that are not 0, beside the names of their columns.
fn nonzero_of(
    alloc: Global,
    cols: &[Col],
    numbers: &[Frac],
) -> Result<List<(Name, Frac)>, AllocError>
    requires { length numbers.now ≡ length cols.now }
    ensures { IfOk result (λ named. named ≡ nonzero_numbers cols.now numbers.now) }
{
    let mut named = List::new(alloc);
    for place in 0..cols.len() {
        let col = &cols[place];
        let number = &numbers[place];
        let Ok(()) = add_nonzero(alloc, &mut named, col, number) else {
            return Err(AllocError);
        };
    }
    Ok(named)
}

/// The numbers of a point that are not 0, beside the names of their columns.
pub(crate) fn nonzero_numbers(
    alloc: Global,
    model: &Model,
    point: &Point,
) -> Result<List<(Name, Frac)>, AllocError>
    requires { length point.now ≡ length model.now.cols }
    ensures { IfOk result (λ named. named ≡ nonzero_numbers model.now.cols point.now) }
{
    nonzero_of(alloc, model.cols(), point.as_slice())
}
