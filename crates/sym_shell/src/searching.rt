// The commands that search, and the one that looks for fronts: the search is made, and told.
ghost use Rattle.std.specs.Prelude.{◌≡◌, ◌≤◌, [], OnOk, OnErr, ℕ, List, IfSome};
ghost use Rattle.branch_tree.specs.Numbered.{IsNumbered};
ghost use Rattle.command_words.specs.Asks.{IsGapAskable};
ghost use Rattle.command_family.specs.State.{HasScriptModel, HasOrder};
ghost use Rattle.search_replies.specs.Workers.{Staffed};
ghost use Rattle.search_replies.specs.Solve.{limits_of, RepliesToSolve};
ghost use Rattle.search_replies.specs.Warming.{RepliesToWarm};
ghost use Rattle.front_commands.specs.Answering.{front_limits};
ghost use Rattle.front_commands.specs.Fronts.{RepliesToFront};

use command_words::SearchOptions;
use front_commands::{front_limits, tell_front};
use front_search::mc_solve;
use kept_env::Env;
use search_replies::{WORKER_LIMIT, limits_of, tell_crowd, tell_solved, tell_warmed};
use std::alloc::{AllocError, Global};
use sym_env::{solve, warm_solve};

/// Solves the model from a fresh root, by workers that there may be.
fn work_anew(
    alloc: Global,
    env: &mut Env,
    options: SearchOptions,
    reply: &mut Vec<u8>,
) -> Result<(), AllocError>
    requires workers { 1 ≤ options.workers }
    requires gap { IsGapAskable options.gap }
    requires empty { reply.old.items ≡ [] }
    requires script { HasScriptModel env.old }
    requires order { HasOrder env.old }
    ensures answered { OnOk result (RepliesToSolve env.old env.old.search (limits_of options) reply.new.items env.new) }
    ensures unfinished { OnErr result ((bytes : List ℕ) × RepliesToSolve env.old env.old.search (limits_of options) bytes env.new) }
    ensures script { HasScriptModel env.new }
    ensures order { HasOrder env.new }
{
    let answer = solve(alloc, env, &limits_of(options));
    tell_solved(reply, env, answer)
}

/// What holds of the ids of the tree that is kept, and what contracts may use of it after this call.
fn show_numbered(env: &Env)
    ensures { IfSome env.now.search (λ S. IsNumbered S.tree) }
{
    match env.search() {
        Some(search) => {
            let _numbered = search.tree().nodes();
        }
        None => {}
    }
}

/// Goes on with the search that is kept, by workers that there may be.
fn work_on(
    alloc: Global,
    env: &mut Env,
    options: SearchOptions,
    reply: &mut Vec<u8>,
) -> Result<(), AllocError>
    requires workers { 1 ≤ options.workers }
    requires gap { IsGapAskable options.gap }
    requires empty { reply.old.items ≡ [] }
    requires script { HasScriptModel env.old }
    requires order { HasOrder env.old }
    ensures answered { OnOk result (RepliesToWarm env.old env.old.search (limits_of options) reply.new.items env.new) }
    ensures unfinished { OnErr result ((bytes : List ℕ) × RepliesToWarm env.old env.old.search (limits_of options) bytes env.new) }
    ensures script { HasScriptModel env.new }
    ensures order { HasOrder env.new }
{
    show_numbered(env);
    let answer = warm_solve(alloc, env, &limits_of(options));
    tell_warmed(reply, env, answer)
}

/// Solves the model from a fresh root, or tells that there are too many workers.
pub(crate) fn search_anew(
    alloc: Global,
    env: &mut Env,
    options: SearchOptions,
    reply: &mut Vec<u8>,
) -> Result<(), AllocError>
    requires workers { 1 ≤ options.workers }
    requires gap { IsGapAskable options.gap }
    requires empty { reply.old.items ≡ [] }
    requires script { HasScriptModel env.old }
    requires order { HasOrder env.old }
    ensures answered { OnOk result (Staffed options.workers (RepliesToSolve env.old env.old.search (limits_of options) reply.new.items env.new) env.old reply.new.items env.new) }
    ensures unfinished { OnErr result ((bytes : List ℕ) × Staffed options.workers (RepliesToSolve env.old env.old.search (limits_of options) bytes env.new) env.old bytes env.new) }
    ensures script { HasScriptModel env.new }
    ensures order { HasOrder env.new }
{
    let workers = options.workers;
    if workers > WORKER_LIMIT {
        tell_crowd(reply, env)
    } else {
        work_anew(alloc, env, options, reply)
    }
}

/// Goes on with the search that is kept, or tells that there are too many workers.
pub(crate) fn search_on(
    alloc: Global,
    env: &mut Env,
    options: SearchOptions,
    reply: &mut Vec<u8>,
) -> Result<(), AllocError>
    requires workers { 1 ≤ options.workers }
    requires gap { IsGapAskable options.gap }
    requires empty { reply.old.items ≡ [] }
    requires script { HasScriptModel env.old }
    requires order { HasOrder env.old }
    ensures answered { OnOk result (Staffed options.workers (RepliesToWarm env.old env.old.search (limits_of options) reply.new.items env.new) env.old reply.new.items env.new) }
    ensures unfinished { OnErr result ((bytes : List ℕ) × Staffed options.workers (RepliesToWarm env.old env.old.search (limits_of options) bytes env.new) env.old bytes env.new) }
    ensures script { HasScriptModel env.new }
    ensures order { HasOrder env.new }
{
    let workers = options.workers;
    if workers > WORKER_LIMIT {
        tell_crowd(reply, env)
    } else {
        work_on(alloc, env, options, reply)
    }
}

/// Looks for the front of the model, beside the search that is kept.
pub(crate) fn look_for_front(
    alloc: Global,
    env: &mut Env,
    nodes: u64,
    pivots: u64,
    reply: &mut Vec<u8>,
) -> Result<(), AllocError>
    requires empty { reply.old.items ≡ [] }
    requires script { HasScriptModel env.old }
    requires order { HasOrder env.old }
    ensures answered { OnOk result (RepliesToFront env.old env.old.search (front_limits nodes pivots) reply.new.items env.new) }
    ensures unfinished { OnErr result ((bytes : List ℕ) × RepliesToFront env.old env.old.search (front_limits nodes pivots) bytes env.new) }
    ensures script { HasScriptModel env.new }
    ensures order { HasOrder env.new }
{
    let answer = mc_solve(alloc, env, &front_limits(nodes, pivots));
    tell_front(alloc, reply, env, answer)
}
