// The costs of all columns in objective 1.
ghost use Rattle.std.specs.Prelude.{◌≡◌, map, length, OnOk};
ghost use Rattle.frac128.specs.Rational.{ℚ};
ghost use Rattle.lp_model.specs.declared.types.Col.{Col};
ghost use Rattle.inner_models.specs.Inner.{with_objective};
ghost use Rattle.front_solver.specs.Stops.{AddsNoStop};
ghost use Rattle.front_solver.specs.Solved.{IsRecosted};

use crate::editing::set_costs;
use crate::solver::Solver;
use frac128::Frac;
use lp_model::Model;
use std::alloc::AllocError;

/// Gives all columns other costs in objective 1, whatever they have. Then the model is the base with these costs.
pub fn set_objective<S: Solver>(
    solver: &mut S,
    base: &Model,
    costs: &[Frac],
) -> Result<(), AllocError>
    requires old { IsRecosted base.now (S.program solver.old) }
    requires all { length costs.now ≡ length base.now.cols }
    ensures edited { (f : Col → ℚ) → costs.now ≡ map f base.now.cols → OnOk result (S.program solver.new ≡ with_objective f base.now) }
    ensures steady { OnOk result (AddsNoStop (S.stops solver.new) (S.stops solver.old)) }
{
    let _cols = base.cols();
    set_costs(solver, costs)
}
