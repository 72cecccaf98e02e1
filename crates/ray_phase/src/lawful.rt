// The basis of an optimum of the directions, for the model.
ghost use Rattle.std.specs.Prelude.{◌≡◌, ◌↔◌, ◌<◌, ◌+◌, length, IfOk, IsTrue};
ghost use Rattle.basic_solution.specs.Held.{variables};
ghost use Rattle.basic_solution.specs.Lists.{AreRising};
ghost use Rattle.ray_phase.specs.Answers.{IsModelHigh};
ghost use Rattle.row_tableau.specs.Variables.{numbers};

use dual_simplex::LpState;
use lp_model::{List, Model, Var};
use row_tableau::tilts::is_sided;
use row_tableau::{Relax, RelaxKind};
use std::alloc::{AllocError, Global};

/// Whether a variable is not basic and stands at the high side that it has in the model.
fn is_model_high(model: &Model, state: &LpState<'_>, variable: usize) -> bool
    requires count { variables state.now ≡ length model.now.cols + length model.now.rows }
    requires variable { variable < variables state.now }
    ensures { IsTrue result ↔ IsModelHigh model.now state.now variable }
{
    let root = Relax {
        model,
        cuts: &[],
        region: &[],
        kind: RelaxKind::Plain,
    };
    state.stands_high(variable) && is_sided(&root, variable)
}

/// The variables that are not basic and stand at the high side that they have in the model, rising.
pub fn high_variables(
    alloc: Global,
    model: &Model,
    state: &LpState<'_>,
) -> Result<List<Var>, AllocError>
    requires { variables state.now ≡ length model.now.cols + length model.now.rows }
    ensures { IfOk result (λ list. AreRising (IsModelHigh model.now state.now) (variables state.now) (numbers state.now.tableau list)) }
{
    let mut list = List::new(alloc);
    for variable in 0..state.variables() {
        if is_model_high(model, state, variable) {
            match list.push(state.variable(variable)) {
                Ok(()) => {}
                Err(error) => return Err(error),
            }
        }
    }
    Ok(list)
}
