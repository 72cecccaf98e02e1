// The reply to a search of the environment's model.
ghost use Rattle.std.specs.Prelude.{◌≡◌, ◌++◌, [], ℕ, List, IfOk, IfSome, OnOk, OnErr};
ghost use Rattle.branch_tree.specs.Numbered.{IsNumbered};
ghost use Rattle.command_words.specs.declared.options.SearchOptions.{SearchOptions};
ghost use Rattle.kept_env.specs.Env.{PlainEnv, model_of};
ghost use Rattle.command_family.specs.State.{HasScriptModel, HasOrder};
ghost use Rattle.search_replies.specs.Answering.{IsAnswerOf, IsTellable, search_text};
ghost use Rattle.search_replies.specs.Workers.{crowd_text};
ghost use Rattle.search_replies.specs.Solve.{limits_of, IsSolvedEnv, RepliesToSolve};
ghost use Rattle.search_replies.specs.Warming.{IsWarmed, RepliesToWarm};

use crate::limits::WORKER_LIMIT;
use kept_env::{Env, EnvFault};
use reply_texts::{NO_MODEL_REPLY, answer_has_room, write_answer, write_limit};
use search_answers::Answer;
use std::alloc::AllocError;

/// What a search of the environment's model has answered, or that there is no model.
fn tell_answer(
    reply: &mut Vec<u8>,
    env: &Env,
    answer: &Result<Answer, EnvFault>,
) -> Result<(), AllocError>
    requires { IsAnswerOf answer.now (model_of env.now) }
    ensures tellable { IsTellable answer.now (model_of env.now) }
    ensures text { IfOk result (λ _. reply.new.items ≡ reply.old.items ++ search_text answer.now (model_of env.now)) }
{
    match answer {
        Err(_) => reply.extend_from_slice(NO_MODEL_REPLY),
        Ok(answer) => match env.model() {
            None => unreachable!(),
            Some(model) => {
                answer_has_room(answer);
                let _lawful = model.cols();
                write_answer(reply, model, answer)
            }
        },
    }
}

/// The reply to `solve`, where this was answered and this is the environment afterwards.
pub fn tell_solved(
    reply: &mut Vec<u8>,
    env: &Env,
    answer: Result<Answer, EnvFault>,
) -> Result<(), AllocError>
    requires empty { reply.old.items ≡ [] }
    requires answer { IsAnswerOf answer (model_of env.now) }
    ensures answered { (old : PlainEnv) → (options : SearchOptions) → IsSolvedEnv (limits_of options) old answer env.now → HasScriptModel old
        → OnOk result (RepliesToSolve old old.search (limits_of options) reply.new.items env.now) }
    ensures unfinished { (old : PlainEnv) → (options : SearchOptions) → IsSolvedEnv (limits_of options) old answer env.now → HasScriptModel old
        → OnErr result ((bytes : List ℕ) × RepliesToSolve old old.search (limits_of options) bytes env.now) }
    ensures script { (old : PlainEnv) → (options : SearchOptions) → IsSolvedEnv (limits_of options) old answer env.now → HasScriptModel old → HasScriptModel env.now }
    ensures order { (old : PlainEnv) → (options : SearchOptions) → IsSolvedEnv (limits_of options) old answer env.now → HasOrder old → HasOrder env.now }
{
    let told = tell_answer(reply, env, &answer);
    drop(answer);
    told
}

/// The reply to `warm`, where this was answered and this is the environment afterwards.
pub fn tell_warmed(
    reply: &mut Vec<u8>,
    env: &Env,
    answer: Result<Answer, EnvFault>,
) -> Result<(), AllocError>
    requires empty { reply.old.items ≡ [] }
    requires answer { IsAnswerOf answer (model_of env.now) }
    ensures answered { (old : PlainEnv) → (options : SearchOptions) → IsWarmed (limits_of options) old answer env.now → HasScriptModel old
        → OnOk result (RepliesToWarm old old.search (limits_of options) reply.new.items env.now) }
    ensures unfinished { (old : PlainEnv) → (options : SearchOptions) → IsWarmed (limits_of options) old answer env.now → HasScriptModel old
        → OnErr result ((bytes : List ℕ) × RepliesToWarm old old.search (limits_of options) bytes env.now) }
    ensures script { (old : PlainEnv) → (options : SearchOptions) → IsWarmed (limits_of options) old answer env.now → HasScriptModel old → HasScriptModel env.now }
    ensures order { (old : PlainEnv) → (options : SearchOptions) → IsWarmed (limits_of options) old answer env.now → IfSome old.search (λ S. IsNumbered S.tree)
        → HasOrder old → HasOrder env.now }
{
    let told = tell_answer(reply, env, &answer);
    drop(answer);
    told
}

/// The reply where more workers are asked for than there may be.
pub fn tell_crowd(reply: &mut Vec<u8>, env: &Env) -> Result<(), AllocError>
    requires { reply.old.items ≡ [] }
    ensures { IfOk result (λ _. reply.new.items ≡ crowd_text env.now.search) }
{
    match env.search() {
        None => reply.extend_from_slice(NO_MODEL_REPLY),
        Some(_) => write_limit(reply, WORKER_LIMIT),
    }
}
