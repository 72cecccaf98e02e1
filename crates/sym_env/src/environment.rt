// The calls that work the search of an environment: they take it out, and give it back with what may be held of it.
ghost use Rattle.std.specs.Prelude.{◌≤◌, IfOk, IfSome};
ghost use Rattle.kept_env.specs.Env.{pool_in};
ghost use Rattle.kept_env.specs.Worked.{WorksEnv};
ghost use Rattle.tree_search.specs.Enough.{IsEnough, IsKeptEnough};
ghost use Rattle.tree_search.specs.Solves.{SolvesFrom, HasRayFrom};
ghost use Rattle.tree_search.specs.Truth.{IsTrueAnswer, IsTrueOfKept, HasEnded};
ghost use Rattle.tree_search.specs.Warm.{WarmsFrom};
ghost use Rattle.tree_search.specs.Within.{IsGapLimit};

use crate::solving::{Solution, solve_search};
use crate::warming::warm_search;
use kept_env::{Env, EnvFault, held_by};
use search_answers::Answer;
use std::alloc::Global;
use tree_search::Limits;

/// Solves the model: drops the tree and the points, and searches from the root. What is answered is true of the model; an
/// optimum, a point within the gap that is asked for, that no point is feasible, or that the model is unbounded is held from then on, and no other answer. Where there
/// is no memory no answer is held, and the results that were placed stay; where there was none for the root, the old search stays.
///
/// The ray phase, where it is needed, comes before the limit on results is tested.
pub fn solve(alloc: Global, env: &mut Env, limits: &Limits) -> Result<Answer, EnvFault>
    requires workers { 1 ≤ limits.now.workers }
    requires gap { IsGapLimit limits.now.gap }
    ensures solves { WorksEnv (SolvesFrom limits.now) (HasRayFrom limits.now) env.old.search env.old result env.new }
    ensures true_answer { IfOk result (λ answer. IfSome env.old.search (λ S. IsTrueAnswer S.model limits.now answer)) }
    ensures complete { IfOk result (λ answer. IfSome env.old.search (λ S. IsEnough S.model (pool_in env.new.search) limits.now → HasEnded answer)) }
{
    let Some(search) = env.take() else {
        return Err(EnvFault::NoModel);
    };
    let Solution {
        search,
        answer,
        ray,
    } = solve_search(alloc, search, limits);
    let held = held_by(&answer, ray);
    env.give(search, held);
    Ok(answer)
}

/// Goes on with the search that is kept: open leaves are worked, and every other node stays. Where no leaf is open it answers
/// again what the search has shown, and where the ray phase answers a ray beside a kept point, that the objective has no end;
/// neither places a result. What is answered is true of the model, and is held as in `solve`. Where there is no memory no answer
/// is held, the results that were placed stay, and the search can go on.
pub fn warm_solve(alloc: Global, env: &mut Env, limits: &Limits) -> Result<Answer, EnvFault>
    requires workers { 1 ≤ limits.now.workers }
    requires gap { IsGapLimit limits.now.gap }
    ensures warms { WorksEnv (WarmsFrom limits.now) (HasRayFrom limits.now) env.old.search env.old result env.new }
    ensures true_answer { IfOk result (λ answer. IfSome env.old.search (λ S. IsTrueOfKept S limits.now answer)) }
    ensures complete { IfOk result (λ answer. IfSome env.old.search (λ S. IsKeptEnough S (pool_in env.new.search) limits.now → HasEnded answer)) }
{
    let Some(search) = env.take() else {
        return Err(EnvFault::NoModel);
    };
    let Solution {
        search,
        answer,
        ray,
    } = warm_search(alloc, search, limits);
    let held = held_by(&answer, ray);
    env.give(search, held);
    Ok(answer)
}
