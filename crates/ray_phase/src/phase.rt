// The ray phase.
ghost use Rattle.std.specs.Prelude.{◌≡◌, ℕ, [], None, length, IfOk};
ghost use Rattle.basic_solution.specs.Lists.{IsBasisOf};
ghost use Rattle.ray_phase.specs.Answers.{IsStart, IsRayEnd, IsRayAnswer};
ghost use Rattle.ray_phase.specs.private.Answers.{IsDirectionsState, IsBest, IsRunTo};

use crate::lawful::high_variables;
use dual_simplex::{Lp, LpState};
use lp_model::{Basis, List, Model, Point, Var, WideAt, WideStep};
use model_points::{direction_cost, is_ray};
use row_tableau::{Relax, RelaxKind};
use std::alloc::{AllocError, Global};

/// What the ray phase finds.
#[derive(Drop)]
pub enum RayAnswer {
    /// A ray of the model, one number for each column, which `is_ray` finds to be one: no step of its cost and of the
    /// rows' sums lacks room.
    Ray(Point),
    /// The basis of a lawful state of the model's relaxation: that of the last state of the run.
    DualBasis(Basis),
    /// As many moves as the limit allows were made, and a basic variable is outside a side of the directions.
    Pivots { basis: Basis },
    /// The first step of arithmetic that the run needs and that has no room: one at a state of the directions, or one of the
    /// cost of the optimal direction, or, where that is below 0, of a row's sum at it.
    Wide(WideAt),
    /// There is no memory.
    Memory,
}

/// A step without room at a basis of the directions.
fn wide_at(alloc: Global, step: WideStep, basis: Basis) -> WideAt
    ensures { result ≡ record { path = None; cuts = []; basis = basis; step = step } }
{
    WideAt {
        path: None,
        cuts: List::new(alloc),
        basis,
        step,
    }
}

/// The basis with another list of variables that stand high.
fn with_high(basis: Basis, high: List<Var>) -> Basis
    ensures { result ≡ record { basic = basis.basic; high = high } }
{
    Basis {
        basic: basis.basic,
        high,
    }
}

/// The answer at an optimum of the directions: a ray where its cost is below 0, else the basis, which is lawful for the
/// model.
fn judged(
    alloc: Global,
    model: &Model,
    state: &LpState<'_>,
    direction: Point,
    basis: Basis,
) -> RayAnswer
    requires directions { IsDirectionsState model.now state.now }
    requires best { IsBest state.now direction }
    requires basis { IsBasisOf state.now basis }
    ensures { (n : ℕ) (limit : ℕ) → IsRayEnd model.now n limit state.now result }
{
    let _lawful = model.cols();
    let cost = match direction_cost(model, &direction) {
        Ok(cost) => cost,
        Err(step) => {
            drop(direction);
            return RayAnswer::Wide(wide_at(alloc, step, basis));
        }
    };
    if cost.is_negative() {
        return match is_ray(model, &direction) {
            Ok(true) => {
                drop(basis);
                RayAnswer::Ray(direction)
            }
            Ok(false) => unreachable!(),
            Err(step) => {
                drop(direction);
                RayAnswer::Wide(wide_at(alloc, step, basis))
            }
        };
    }
    drop(direction);
    match high_variables(alloc, model, state) {
        Ok(high) => RayAnswer::DualBasis(with_high(basis, high)),
        Err(_) => {
            drop(basis);
            RayAnswer::Memory
        }
    }
}

/// The slack state of the model's directions.
fn directions<'a>(alloc: Global, model: &'a Model) -> Result<LpState<'a>, AllocError>
    ensures { IfOk result (IsStart model.now) }
{
    let relax = Relax {
        model,
        cuts: &[],
        region: &[],
        kind: RelaxKind::Directions,
    };
    let slack = match LpState::slack(alloc, &relax) {
        Ok(slack) => slack,
        Err(error) => return Err(error),
    };
    match slack {
        Some(state) => Ok(state),
        None => unreachable!(),
    }
}

/// The answer where a run over the directions led to the state with this end.
fn answer_of(alloc: Global, model: &Model, state: &LpState<'_>, end: Lp) -> RayAnswer
    requires { (limit : ℕ) × IsRunTo model.now limit end state.now }
    ensures { (limit : ℕ) → IsRunTo model.now limit end state.now → IsRayAnswer model.now limit result }
{
    match end {
        Lp::Optimal { point, mult, basis } => {
            drop(mult);
            judged(alloc, model, state, point, basis)
        }
        Lp::Infeasible {
            farkas: _,
            mult: _,
            basis: _,
        } => unreachable!(),
        Lp::Pivots { basis } => RayAnswer::Pivots { basis },
        Lp::Wide { step, basis } => RayAnswer::Wide(wide_at(alloc, step, basis)),
    }
}

/// Looks for a ray of the model, by at most so many moves of the dual simplex method over its directions. Where there is
/// none the basis that was reached is lawful for the model's relaxation.
pub fn ray(alloc: Global, model: &Model, pivot_limit: u64) -> RayAnswer
    ensures { IsRayAnswer model.now pivot_limit result }
{
    let mut state = match directions(alloc, model) {
        Ok(state) => state,
        Err(_) => return RayAnswer::Memory,
    };
    match state.solve(alloc, pivot_limit) {
        Ok(end) => {
            let answer = answer_of(alloc, model, &state, end);
            drop(state);
            answer
        }
        Err(_) => {
            drop(state);
            RayAnswer::Memory
        }
    }
}
