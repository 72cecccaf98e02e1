// The model of a solver solved, with further rows and a further column that are taken out again.
ghost use Rattle.std.specs.Prelude.{◌≡◌, ◌↔◌, IsTrue, IfOk, OnOk, IsSome};
ghost use Rattle.lp_model.specs.Edits.{edited, EditFits};
ghost use Rattle.inner_models.specs.Inner.{capped};
ghost use Rattle.front_solver.specs.Truth.{shown_claim};
ghost use Rattle.front_solver.specs.Stops.{AddsNoStop};
ghost use Rattle.front_solver.specs.Solved.{HasSolved};
ghost use Rattle.front_solver.specs.Columns.{whole_column};

use crate::editing::{Cap, add_cap, add_column, lawful_model, take_column, take_row};
use crate::solver::Solver;
use cert_text::Cert;
use frac128::Frac;
use lp_model::{Name, copy_name};
use search_answers::Answer;
use std::alloc::{AllocError, Global};

/// What a solver answers of a model, and where the answer is an optimum or that no point is feasible, its certificate.
#[derive(Drop)]
pub struct Solved {
    pub answer: Answer,
    pub cert: Option<Cert>,
}

/// A further column of whole numbers from 0 to a number, and two further rows.
#[derive(Drop)]
pub struct Extension {
    pub column: Name,
    pub up: Frac,
    pub first: Cap,
    pub second: Cap,
}

/// Whether the answer claims something that a tree proves.
fn has_claim(answer: &Answer) -> bool
    ensures { IsTrue result ↔ IsSome (shown_claim answer.now) }
{
    match answer {
        Answer::Optimal { .. } => true,
        Answer::Infeasible { .. } => true,
        Answer::Within { .. } => false,
        Answer::Unbounded { .. } => false,
        Answer::Stopped { .. } => false,
        Answer::Memory => false,
    }
}

/// The model solved as it is.
pub fn solve_model<S: Solver>(solver: &mut S, nodes: u64) -> Result<Solved, AllocError>
    ensures kept { OnOk result (S.program solver.new ≡ S.program solver.old) }
    ensures steady { OnOk result (AddsNoStop (S.stops solver.new) (S.stops solver.old)) }
    ensures solved { IfOk result (HasSolved (S.stops solver.old) (S.program solver.old) nodes) }
{
    lawful_model(solver);
    let answer = solver.solve(nodes);
    if !has_claim(&answer) {
        return Ok(Solved { answer, cert: None });
    }
    match solver.certificate() {
        Ok(cert) => Ok(Solved {
            answer,
            cert: Some(cert),
        }),
        Err(error) => {
            drop(answer);
            Err(error)
        }
    }
}

/// The model solved with a further row, which fits.
pub fn solve_capped<S: Solver>(solver: &mut S, cap: Cap, nodes: u64) -> Result<Solved, AllocError>
    requires { EditFits (S.program solver.old) (capped cap.name cap.hi cap.entries) }
    ensures kept { OnOk result (S.program solver.new ≡ S.program solver.old) }
    ensures steady { OnOk result (AddsNoStop (S.stops solver.new) (S.stops solver.old)) }
    ensures solved { IfOk result (HasSolved (S.stops solver.old) (edited (S.program solver.old) (capped cap.name cap.hi cap.entries)) nodes) }
{
    lawful_model(solver);
    let Ok(name) = copy_name(&cap.name) else {
        drop(cap);
        return Err(AllocError);
    };
    let Ok(()) = add_cap(solver, cap) else {
        drop(name);
        return Err(AllocError);
    };
    let Ok(solved) = solve_model(solver, nodes) else {
        drop(name);
        return Err(AllocError);
    };
    let Ok(()) = take_row(solver, name) else {
        drop(solved);
        return Err(AllocError);
    };
    Ok(solved)
}

/// The model solved with two further rows, which fit one behind the other.
pub fn solve_capped_twice<S: Solver>(
    solver: &mut S,
    first: Cap,
    second: Cap,
    nodes: u64,
) -> Result<Solved, AllocError>
    requires first { EditFits (S.program solver.old) (capped first.name first.hi first.entries) }
    requires second { EditFits (edited (S.program solver.old) (capped first.name first.hi first.entries)) (capped second.name second.hi second.entries) }
    ensures kept { OnOk result (S.program solver.new ≡ S.program solver.old) }
    ensures steady { OnOk result (AddsNoStop (S.stops solver.new) (S.stops solver.old)) }
    ensures solved { IfOk result (HasSolved (S.stops solver.old) (edited (edited (S.program solver.old) (capped first.name first.hi first.entries)) (capped second.name second.hi second.entries)) nodes) }
{
    lawful_model(solver);
    let Ok(name) = copy_name(&first.name) else {
        drop(first);
        drop(second);
        return Err(AllocError);
    };
    let Ok(()) = add_cap(solver, first) else {
        drop(second);
        drop(name);
        return Err(AllocError);
    };
    let Ok(solved) = solve_capped(solver, second, nodes) else {
        drop(name);
        return Err(AllocError);
    };
    let Ok(()) = take_row(solver, name) else {
        drop(solved);
        return Err(AllocError);
    };
    Ok(solved)
}

/// The model solved with a further column and two further rows, which fit one behind the other.
pub fn solve_extended<S: Solver>(
    alloc: Global,
    solver: &mut S,
    more: Extension,
    nodes: u64,
) -> Result<Solved, AllocError>
    requires column { EditFits (S.program solver.old) (whole_column more.column more.up) }
    requires first { EditFits (edited (S.program solver.old) (whole_column more.column more.up)) (capped more.first.name more.first.hi more.first.entries) }
    requires second { EditFits (edited (edited (S.program solver.old) (whole_column more.column more.up)) (capped more.first.name more.first.hi more.first.entries)) (capped more.second.name more.second.hi more.second.entries) }
    ensures kept { OnOk result (S.program solver.new ≡ S.program solver.old) }
    ensures steady { OnOk result (AddsNoStop (S.stops solver.new) (S.stops solver.old)) }
    ensures solved { IfOk result (HasSolved (S.stops solver.old) (edited (edited (edited (S.program solver.old) (whole_column more.column more.up)) (capped more.first.name more.first.hi more.first.entries)) (capped more.second.name more.second.hi more.second.entries)) nodes) }
{
    lawful_model(solver);
    let Ok(name) = copy_name(&more.column) else {
        drop(more);
        return Err(AllocError);
    };
    let Extension {
        column,
        up,
        first,
        second,
    } = more;
    let Ok(()) = add_column(alloc, solver, column, up) else {
        drop(first);
        drop(second);
        drop(name);
        return Err(AllocError);
    };
    let Ok(solved) = solve_capped_twice(solver, first, second, nodes) else {
        drop(name);
        return Err(AllocError);
    };
    let Ok(()) = take_column(solver, name) else {
        drop(solved);
        return Err(AllocError);
    };
    Ok(solved)
}
