// The reply to a search for the front of the environment's model.
ghost use Rattle.std.specs.Prelude.{◌≡◌, ◌<◌, ◌^◌, ◌++◌, [], ℕ, List, length, false, IfOk, IfSome, OnOk, OnErr};
ghost use Rattle.kept_env.specs.Env.{PlainEnv, model_of};
ghost use Rattle.tree_search.specs.declared.limits.Limits.{Limits};
ghost use Rattle.command_files.specs.Checking.{inner_program};
ghost use Rattle.front_replies.specs.FrontReplies.{stopped_front_text};
ghost use Rattle.front_commands.specs.Answering.{IsLookedFor, IsOfModel, FrontHasRoom, front_answer_text, front_text};
ghost use Rattle.front_commands.specs.Fronts.{RepliesToFront};

use command_files::inner_model;
use frac128::Frac;
use front_replies::{put_complete_front, put_stopped_front, put_wide_front};
use front_search::FrontAnswer;
use frontier::{Front, Outcome};
use kept_env::{Env, EnvFault};
use lp_model::{Model, StopWhy};
use reply_texts::{MEMORY_REPLY, NO_MODEL_REPLY, write_infeasible, write_not_whole};
use std::alloc::{AllocError, Global};
use wcn_driver::Part;

/// The front so far, where the search of a part stopped.
fn tell_stopped(
    alloc: Global,
    reply: &mut Vec<u8>,
    model: &Model,
    outcomes: &[Outcome],
    part: &Part,
    why: &StopWhy,
    results: u64,
    bound: &Option<Frac>,
    best: &Option<Frac>,
) -> Result<(), AllocError>
    requires { model.now.wide ≡ false }
    ensures { IfOk result (λ _. reply.new.items ≡ reply.old.items ++ stopped_front_text (inner_program model.now) outcomes.now part.now why.now results bound.now best.now) }
{
    let Ok(named) = inner_model(alloc, model) else {
        return Err(AllocError);
    };
    let told = put_stopped_front(
        alloc, reply, &named, outcomes, part, why, results, bound, best,
    );
    drop(named);
    told
}

/// What was found of a model's front.
fn tell_found(
    alloc: Global,
    reply: &mut Vec<u8>,
    model: &Model,
    answer: &FrontAnswer,
) -> Result<(), AllocError>
    requires { model.now.wide ≡ false }
    ensures { IfOk result (λ _. reply.new.items ≡ reply.old.items ++ front_answer_text model.now answer.now) }
{
    match answer {
        FrontAnswer::Complete { front } => put_complete_front(reply, front.as_slice()),
        FrontAnswer::Infeasible { results } => write_infeasible(reply, *results),
        FrontAnswer::Stopped {
            front,
            part,
            why,
            results,
            bound,
            best,
        } => tell_stopped(
            alloc,
            reply,
            model,
            front.as_slice(),
            part,
            why,
            *results,
            bound,
            best,
        ),
        FrontAnswer::NotWhole { which, col } => write_not_whole(reply, model, *which, *col),
        FrontAnswer::WideScale { front, part, place } => {
            put_wide_front(reply, model, front.as_slice(), part, place)
        }
        FrontAnswer::Memory => reply.extend_from_slice(MEMORY_REPLY),
    }
}

/// Nothing happens: a caller learns that the outcomes can be counted.
fn show_count(front: &Front)
    ensures { length front.now < 2 ^ 64 }
{
    let _count = front.len();
}

/// Nothing happens: a caller learns that the outcomes of an answer can be counted, so that they can be read back.
fn show_room(answer: &FrontAnswer)
    ensures { FrontHasRoom answer.now }
{
    match answer {
        FrontAnswer::Complete { front }
        | FrontAnswer::Stopped { front, .. }
        | FrontAnswer::WideScale { front, .. } => show_count(front),
        FrontAnswer::Infeasible { .. } | FrontAnswer::NotWhole { .. } | FrontAnswer::Memory => {}
    }
}

/// What is answered, or that there is no model.
fn tell_looked_for(
    alloc: Global,
    reply: &mut Vec<u8>,
    env: &Env,
    answer: &Result<FrontAnswer, EnvFault>,
) -> Result<(), AllocError>
    requires plain { IfSome (model_of env.now) (λ M. M.wide ≡ false) }
    requires answer { IsOfModel answer.now (model_of env.now) }
    ensures room { IfOk answer.now FrontHasRoom }
    ensures text { IfOk result (λ _. reply.new.items ≡ reply.old.items ++ front_text answer.now (model_of env.now)) }
{
    match answer {
        Err(_) => reply.extend_from_slice(NO_MODEL_REPLY),
        Ok(answer) => match env.model() {
            None => unreachable!(),
            Some(model) => {
                show_room(answer);
                tell_found(alloc, reply, model, answer)
            }
        },
    }
}

/// The reply to `mcsolve`, where this was answered and this is the environment afterwards.
pub fn tell_front(
    alloc: Global,
    reply: &mut Vec<u8>,
    env: &Env,
    answer: Result<FrontAnswer, EnvFault>,
) -> Result<(), AllocError>
    requires empty { reply.old.items ≡ [] }
    requires plain { IfSome (model_of env.now) (λ M. M.wide ≡ false) }
    requires answer { IsOfModel answer (model_of env.now) }
    ensures answered { (old : PlainEnv) → (l : Limits) → IsLookedFor l old answer env.now → OnOk result (RepliesToFront old old.search l reply.new.items env.now) }
    ensures unfinished { (old : PlainEnv) → (l : Limits) → IsLookedFor l old answer env.now → OnErr result ((bytes : List ℕ) × RepliesToFront old old.search l bytes env.now) }
{
    let told = tell_looked_for(alloc, reply, env, &answer);
    drop(answer);
    told
}
