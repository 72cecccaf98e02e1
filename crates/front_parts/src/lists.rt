// Costs of the columns, alone and beside their names.
ghost use Rattle.std.specs.Prelude.{◌≡◌, ◌++◌, ◌∷◌, [], map, nat_eq, if◌then◌else◌, pos, All, IfOk, OnOk, IfErr};
ghost use Rattle.frac128.specs.Rational.{int, ◌+ℚ◌};
ghost use Rattle.inner_models.specs.Inner.{row_terms};
ghost use Rattle.front_parts.specs.Sums.{HasCostSum, IsSumsFault};

use frac128::Frac;
use lp_model::{Col, ColId, List, Model, Name, copy_name};
use std::alloc::{AllocError, Global};

/// Why there are no sums: the first column whose two costs have a sum without room, or there is no memory.
#[derive(Clone, Copy, Drop)]
pub enum SumsFault {
    Wide(ColId),
    Memory,
}

/// The costs of an objective.
pub(crate) fn objective_costs(
    alloc: Global,
    cols: &[Col],
    which: u8,
) -> Result<Vec<Frac>, AllocError>
    ensures { IfOk result (λ list. list.items ≡ map (λ c. if nat_eq which 2 then c.cost2 else c.cost) cols.now) }
{
    let mut list = Vec::new(alloc);
    for col in cols {
        let Ok(()) = list.push(*col.cost_in(which)) else {
            drop(list);
            return Err(AllocError);
        };
    }
    Ok(list)
}

/// A cost of 0 for each column.
pub(crate) fn zero_costs(alloc: Global, cols: &[Col]) -> Result<Vec<Frac>, AllocError>
    ensures { IfOk result (λ list. list.items ≡ map (λ c. int (pos 0)) cols.now) }
{
    let mut list = Vec::new(alloc);
    for col in cols {
        let _cost = col.cost_in(1);
        let Ok(()) = list.push(Frac::whole(0)) else {
            drop(list);
            return Err(AllocError);
        };
    }
    Ok(list)
}

/// The sum of the two costs of each column.
pub fn sums(alloc: Global, model: &Model) -> Result<Vec<Frac>, SumsFault>
    ensures sums { IfOk result (λ list. list.items ≡ map (λ c. c.cost +ℚ c.cost2) model.now.cols) }
    ensures fit { OnOk result (All HasCostSum model.now.cols) }
    ensures fault { IfErr result (IsSumsFault model.now.cols) }
{
    let mut list = Vec::new(alloc);
    for (index, col) in model.cols().iter().enumerate() {
        let Ok(sum) = col.cost.add(&col.cost2) else {
            drop(list);
            return Err(SumsFault::Wide(ColId(index as u32)));
        };
        let Ok(()) = list.push(sum) else {
            drop(list);
            return Err(SumsFault::Memory);
        };
    }
    Ok(list)
}

/// One more number beside a name.
pub fn push_named(
    list: &mut List<(Name, Frac)>,
    name: &Name,
    number: Frac,
) -> Result<(), AllocError>
    ensures { IfOk result (λ _. list.new ≡ list.old ++ (name.now, number) ∷ []) }
{
    let Ok(name) = copy_name(name) else {
        return Err(AllocError);
    };
    list.push((name, number))
}

/// The costs of an objective beside the names of the columns.
pub(crate) fn objective_terms(
    alloc: Global,
    model: &Model,
    which: u8,
) -> Result<List<(Name, Frac)>, AllocError>
    ensures { IfOk result (λ list. list ≡ row_terms (λ c. if nat_eq which 2 then c.cost2 else c.cost) model.now) }
{
    let mut list = List::new(alloc);
    for col in model.cols() {
        let Ok(()) = push_named(&mut list, &col.name, *col.cost_in(which)) else {
            drop(list);
            return Err(AllocError);
        };
    }
    Ok(list)
}
