// The edits from one inner model to the next.
ghost use Rattle.std.specs.Prelude.{◌≡◌, ◌<◌, ◌≤◌, length, Contains, OnOk};
ghost use Rattle.lp_model.specs.Lawful.{IsLawful, column_name, column_names};
ghost use Rattle.lp_model.specs.Edits.{edited, only_row_names, EditFits};
ghost use Rattle.lp_model.specs.declared.types.Edit.TheVariants.{SetCost, DelRow, DelCol};
ghost use Rattle.model_edits.specs.declared.faults.EditFault.TheVariants.{Memory};
ghost use Rattle.inner_models.specs.Inner.{capped};
ghost use Rattle.inner_models.specs.Undone.{with_costs};
ghost use Rattle.front_solver.specs.Columns.{whole_column};
ghost use Rattle.front_solver.specs.Stops.{AddsNoStop};

use crate::solver::Solver;
use frac128::Frac;
use lp_model::{Edit, List, Name, copy_name};
use model_edits::EditFault;
use std::alloc::{AllocError, Global};

/// A row whose sum is at most a number.
#[derive(Drop)]
pub struct Cap {
    pub name: Name,
    pub hi: Frac,
    pub entries: List<(Name, Frac)>,
}

/// The model of a solver is lawful, as each is.
pub(crate) fn lawful_model<S: Solver>(solver: &S)
    ensures { IsLawful (S.program solver.now) }
{
    let _cols = solver.model().cols();
}

/// The fault of an edit that fits, which is want of memory.
fn want_of_memory(fault: EditFault) -> AllocError
    requires { fault ≡ Memory }
{
    drop(fault);
    AllocError
}

/// One edit that fits. So nothing refuses it but want of memory.
fn make<S: Solver>(solver: &mut S, edit: Edit) -> Result<(), AllocError>
    requires { EditFits (S.program solver.old) edit }
    ensures edited { OnOk result (S.program solver.new ≡ edited (S.program solver.old) edit) }
    ensures steady { OnOk result (AddsNoStop (S.stops solver.new) (S.stops solver.old)) }
{
    match solver.edit(edit) {
        Ok(()) => Ok(()),
        Err(fault) => Err(want_of_memory(fault)),
    }
}

/// Another cost of the column at a place.
fn set_cost<S: Solver>(solver: &mut S, place: usize, cost: &Frac) -> Result<(), AllocError>
    requires { place < length (S.program solver.old).cols }
    ensures edited { OnOk result (S.program solver.new ≡ edited (S.program solver.old) (SetCost (column_name (S.program solver.old) place) cost.now)) }
    ensures steady { OnOk result (AddsNoStop (S.stops solver.new) (S.stops solver.old)) }
{
    lawful_model(solver);
    let col = copy_name(&solver.model().cols()[place].name)?;
    make(solver, Edit::SetCost { col, v: *cost })
}

/// Gives the first columns these costs in objective 1, by one edit each.
pub(crate) fn set_costs<S: Solver>(solver: &mut S, costs: &[Frac]) -> Result<(), AllocError>
    requires { length costs.now ≤ length (S.program solver.old).cols }
    ensures edited { OnOk result (S.program solver.new ≡ with_costs costs.now (S.program solver.old)) }
    ensures steady { OnOk result (AddsNoStop (S.stops solver.new) (S.stops solver.old)) }
{
    lawful_model(solver);
    for place in 0..costs.len() {
        set_cost(solver, place, &costs[place])?;
    }
    Ok(())
}

/// Adds a row.
pub(crate) fn add_cap<S: Solver>(solver: &mut S, cap: Cap) -> Result<(), AllocError>
    requires { EditFits (S.program solver.old) (capped cap.name cap.hi cap.entries) }
    ensures edited { OnOk result (S.program solver.new ≡ edited (S.program solver.old) (capped cap.name cap.hi cap.entries)) }
    ensures steady { OnOk result (AddsNoStop (S.stops solver.new) (S.stops solver.old)) }
{
    let Cap { name, hi, entries } = cap;
    let row = Edit::AddRow {
        name,
        lo: None,
        hi: Some(hi),
        entries,
    };
    make(solver, row)
}

/// Takes out the row with the name.
pub(crate) fn take_row<S: Solver>(solver: &mut S, row: Name) -> Result<(), AllocError>
    requires { Contains (only_row_names (S.program solver.old)) row }
    ensures edited { OnOk result (S.program solver.new ≡ edited (S.program solver.old) (DelRow row)) }
    ensures steady { OnOk result (AddsNoStop (S.stops solver.new) (S.stops solver.old)) }
{
    lawful_model(solver);
    make(solver, Edit::DelRow { row })
}

/// Adds a column of whole numbers from 0 to a number, which costs 1 each and stands in no row.
pub(crate) fn add_column<S: Solver>(
    alloc: Global,
    solver: &mut S,
    name: Name,
    up: Frac,
) -> Result<(), AllocError>
    requires { EditFits (S.program solver.old) (whole_column name up) }
    ensures edited { OnOk result (S.program solver.new ≡ edited (S.program solver.old) (whole_column name up)) }
    ensures steady { OnOk result (AddsNoStop (S.stops solver.new) (S.stops solver.old)) }
{
    let column = Edit::AddCol {
        name,
        int: true,
        lo: Some(Frac::whole(0)),
        up: Some(up),
        cost: Frac::whole(1),
        cost2: Frac::whole(0),
        entries: List::new(alloc),
    };
    make(solver, column)
}

/// Takes out the column with the name.
pub(crate) fn take_column<S: Solver>(solver: &mut S, col: Name) -> Result<(), AllocError>
    requires { Contains (column_names (S.program solver.old)) col }
    ensures edited { OnOk result (S.program solver.new ≡ edited (S.program solver.old) (DelCol col)) }
    ensures steady { OnOk result (AddsNoStop (S.stops solver.new) (S.stops solver.old)) }
{
    lawful_model(solver);
    make(solver, Edit::DelCol { col })
}
