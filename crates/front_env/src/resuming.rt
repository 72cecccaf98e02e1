// A model solved: first by going on with a kept search, and where that stops from a fresh root.
ghost use Rattle.std.specs.Prelude.{◌≡◌, ◌≤◌, None, IsSome, IfSome};
ghost use Rattle.front_solver.specs.Truth.{IsTrueOf, IsStop, shown_claim};
ghost use Rattle.front_env.specs.FrontEnvs.{program_in, IsProvedIn, IsStopBy};
ghost use Rattle.front_env.specs.private.Going.{IsGoneBy, IsGoneOn};

use crate::kept::{KeptSearches, moved_to};
use kept_env::Env;
use search_answers::Answer;
use std::alloc::Global;
use sym_env::{solve, warm_solve};
use tree_edit::Search;
use tree_search::Limits;

/// What going on with a kept search comes to.
#[derive(Drop)]
pub(crate) enum GoneOn {
    /// It went to its end, or there was no memory.
    Ended(Answer),
    /// There was none, or it stopped, after so many results.
    Stopped { results: u64 },
}

/// A kept search as one of the environment's model, if there is one of as many rows and columns.
fn kept_search(alloc: Global, env: &Env, kept: &mut KeptSearches) -> Option<Search>
    requires { IsSome env.now.search }
    ensures { IfSome result (λ s. s.model ≡ program_in env.now.search) }
{
    let Some(model) = env.model() else {
        unreachable!();
    };
    let Some(old) = kept.take(model) else {
        return None;
    };
    let Ok(model) = model.copy() else {
        drop(old);
        return None;
    };
    match moved_to(alloc, old, model) {
        Ok(search) => Some(search),
        Err(_) => None,
    }
}

/// Whether an answer is a stop, and after how many results.
fn gone_on(answer: Answer) -> GoneOn
    ensures { IsGoneBy answer result }
{
    match answer {
        Answer::Optimal {
            value,
            point,
            results,
        } => GoneOn::Ended(Answer::Optimal {
            value,
            point,
            results,
        }),
        Answer::Within {
            gap,
            value,
            point,
            results,
        } => GoneOn::Ended(Answer::Within {
            gap,
            value,
            point,
            results,
        }),
        Answer::Infeasible { results } => GoneOn::Ended(Answer::Infeasible { results }),
        Answer::Unbounded { results } => GoneOn::Ended(Answer::Unbounded { results }),
        Answer::Stopped {
            why,
            results,
            bound: _,
            best: _,
        } => {
            drop(why);
            GoneOn::Stopped { results }
        },
        Answer::Memory => GoneOn::Ended(Answer::Memory),
    }
}

/// Goes on with a kept search of the environment's model, if there is one.
pub(crate) fn go_on(
    alloc: Global,
    env: &mut Env,
    kept: &mut KeptSearches,
    limits: &Limits,
) -> GoneOn
    requires loaded { IsSome env.old.search }
    requires workers { 1 ≤ limits.now.workers }
    requires plain { limits.now.gap ≡ None }
    ensures loaded { IsSome env.new.search }
    ensures program { program_in env.new.search ≡ program_in env.old.search }
    ensures end { IsGoneOn limits.now (program_in env.old.search) env.new result }
{
    let Some(search) = kept_search(alloc, env, kept) else {
        return GoneOn::Stopped { results: 0 };
    };
    env.restore(search);
    match warm_solve(alloc, env, limits) {
        Ok(answer) => {
            let _search = env.search();
            gone_on(answer)
        }
        Err(_) => unreachable!(),
    }
}

/// The environment's model solved from a fresh root.
pub(crate) fn solved_anew(alloc: Global, env: &mut Env, limits: &Limits) -> Answer
    requires loaded { IsSome env.old.search }
    requires workers { 1 ≤ limits.now.workers }
    requires plain { limits.now.gap ≡ None }
    ensures loaded { IsSome env.new.search }
    ensures program { program_in env.new.search ≡ program_in env.old.search }
    ensures true_of { IsTrueOf (program_in env.old.search) limits.now.nodes result }
    ensures shown { IsProvedIn env.new (shown_claim result) }
    ensures stopped { IsStop result → IsStopBy limits.now (program_in env.old.search) result }
{
    match solve(alloc, env, limits) {
        Ok(answer) => {
            let _search = env.search();
            answer
        }
        Err(_) => unreachable!(),
    }
}
