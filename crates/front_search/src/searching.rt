// The call that looks for the front of the model that an environment has.
ghost use Rattle.std.specs.Prelude.{◌≡◌, ◌≤◌, false, IfOk, IfSome};
ghost use Rattle.kept_env.specs.Env.{model_of};
ghost use Rattle.front_search.specs.FrontsFound.{FindsFront};
ghost use Rattle.front_search.specs.Completeness.{counted_results, HasFrontEnded, IsFrontEnough};

use crate::answers::FrontAnswer;
use crate::looking::{Found, look};
use crate::sweeping::first_not_whole;
use kept_env::{Env, EnvFault};
use std::alloc::Global;
use tree_search::Limits;

/// Looks for the front of the model, by a search of its own over a copy of it: the search that the environment has stays as it is, with
/// its tree and its points, and the answer that was held goes. A whole front, or that no point is feasible, is held from then on with its
/// certificate, and no other answer. Where an objective is not whole all stays, what is held too.
///
/// # Errors
///
/// Where no model is loaded.
pub fn mc_solve(alloc: Global, env: &mut Env, limits: &Limits) -> Result<FrontAnswer, EnvFault>
    requires workers { 1 ≤ limits.now.workers }
    requires plain { IfSome (model_of env.old) (λ M. M.wide ≡ false) }
    ensures finds { FindsFront limits.now env.old.search env.old result env.new }
    ensures complete { IfOk result (λ answer. IfSome env.old.search (λ S. IsFrontEnough limits.now S.model (counted_results answer) → HasFrontEnded answer)) }
{
    let Some(model) = env.model() else {
        return Err(EnvFault::NoModel);
    };
    if let Some((which, col)) = first_not_whole(model) {
        return Ok(FrontAnswer::NotWhole { which, col });
    }
    let Some(search) = env.take() else {
        unreachable!();
    };
    let Found { answer, held } = look(alloc, search.model(), limits);
    env.give(search, held);
    Ok(answer)
}
