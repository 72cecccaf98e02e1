// How the search of a model begins: at the slack basis, or at what the ray phase finds.
ghost use Rattle.std.specs.Prelude.{◌≡◌, [], None};
ghost use Rattle.lp_model.specs.declared.answers.StopWhy.TheVariants as stop;
ghost use Rattle.ray_phase.specs.Answers.{IsRayAnswer};
ghost use Rattle.ray_phase.specs.declared.phase.RayAnswer.TheVariants.{Ray};
ghost use Rattle.ray_phase.specs.Beginnings.{HasNoSlackBasis, IsBeginning};

use crate::phase::{RayAnswer, ray};
use dual_simplex::slack_basis;
use lp_model::{Basis, List, Model, PivotPlace, Point, StopWhy};
use model_points::{same_points_law, without_costs};
use std::alloc::{AllocError, Global};

/// How the search of a model begins.
#[derive(Drop)]
pub enum Beginning {
    /// With the model's own relaxations, which can begin at these lists.
    Own(Basis),
    /// Beside this ray: with the relaxations of the model without costs, which can begin at these lists.
    BesideRay(Point, Model, Basis),
    /// Not at all: the ray phase stopped.
    Stopped(StopWhy),
    /// There is no memory.
    Memory,
}

/// The search stops before the first result: the ray phase had as many moves as the limit allows, and this basis was reached.
pub fn out_of_moves(alloc: Global, basis: Basis) -> StopWhy
    ensures { result ≡ stop.Pivots (record { path = None; cuts = []; basis = basis }) }
{
    StopWhy::Pivots(PivotPlace {
        path: None,
        cuts: List::new(alloc),
        basis,
    })
}

/// The beginning beside a ray of the model. The model without costs has none.
fn beside_ray(alloc: Global, model: &Model, pivots: u64, direction: Point) -> Beginning
    requires none { HasNoSlackBasis model.now }
    requires ray { IsRayAnswer model.now pivots (Ray direction) }
    ensures { IsBeginning model.now pivots result }
{
    same_points_law();
    let Ok(costless) = without_costs(model, alloc) else {
        drop(direction);
        return Beginning::Memory;
    };
    match ray(alloc, &costless, pivots) {
        RayAnswer::Memory => {
            drop(direction);
            drop(costless);
            Beginning::Memory
        }
        RayAnswer::DualBasis(first) => Beginning::BesideRay(direction, costless, first),
        RayAnswer::Ray(_) => unreachable!(),
        RayAnswer::Pivots { basis } => {
            drop(direction);
            drop(costless);
            Beginning::Stopped(out_of_moves(alloc, basis))
        }
        RayAnswer::Wide(at) => {
            drop(direction);
            drop(costless);
            Beginning::Stopped(StopWhy::Wide(at))
        }
    }
}

/// The beginning where the slack state is not lawful, by the ray phase.
fn by_ray_phase(alloc: Global, model: &Model, pivots: u64) -> Beginning
    requires { HasNoSlackBasis model.now }
    ensures { IsBeginning model.now pivots result }
{
    match ray(alloc, model, pivots) {
        RayAnswer::Memory => Beginning::Memory,
        RayAnswer::DualBasis(first) => Beginning::Own(first),
        RayAnswer::Ray(direction) => beside_ray(alloc, model, pivots, direction),
        RayAnswer::Pivots { basis } => Beginning::Stopped(out_of_moves(alloc, basis)),
        RayAnswer::Wide(at) => Beginning::Stopped(StopWhy::Wide(at)),
    }
}

/// How the search of a model begins, with at most so many moves in a ray phase.
pub fn find_beginning(alloc: Global, model: &Model, pivots: u64) -> Beginning
    ensures { IsBeginning model.now pivots result }
{
    match slack_basis(alloc, model) {
        Err(AllocError) => Beginning::Memory,
        Ok(Some(first)) => Beginning::Own(first),
        Ok(None) => by_ray_phase(alloc, model, pivots),
    }
}
