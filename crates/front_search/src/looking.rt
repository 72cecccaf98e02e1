// What was found of a model, in its own sense, and what may be held of it.
ghost use Rattle.std.specs.Prelude.{◌≡◌, ◌≤◌, false};
ghost use Rattle.front_check.specs.Verdict.{HasWholeObjectives};
ghost use Rattle.kept_env.specs.declared.held.Held.TheVariants.{Nothing};
ghost use Rattle.front_search.specs.declared.answers.FrontAnswer.TheVariants.{Memory};
ghost use Rattle.front_search.specs.FrontsFound.{IsFrontFound};

use crate::answers::FrontAnswer;
use crate::sweeping::sweep;
use crate::turning::in_own_sense;
use kept_env::Held;
use lp_model::{Model, show_model};
use std::alloc::{AllocError, Global};
use tree_search::Limits;
use wcn_driver::Mc;

/// What was found, and what is held of it.
#[derive(Drop)]
pub(crate) struct Found {
    pub(crate) answer: FrontAnswer,
    pub(crate) held: Held,
}

/// There was no memory.
fn wanting() -> Found
    ensures answer { result.answer ≡ Memory }
    ensures held { result.held ≡ Nothing }
{
    Found {
        answer: FrontAnswer::Memory,
        held: Held::Nothing,
    }
}

/// Nothing is held of this.
fn told(answer: FrontAnswer) -> Found
    ensures answer { result.answer ≡ answer }
    ensures held { result.held ≡ Nothing }
{
    Found {
        answer,
        held: Held::Nothing,
    }
}

/// What is found of a model whose objectives are whole, and what is held of it.
pub(crate) fn look(alloc: Global, model: &Model, limits: &Limits) -> Found
    requires workers { 1 ≤ limits.now.workers }
    requires plain { model.now.wide ≡ false }
    requires whole { HasWholeObjectives model.now }
    ensures { IsFrontFound limits.now model.now result.answer result.held }
{
    show_model(model);
    let sense = model.sense();
    match sweep(alloc, model, limits) {
        Mc::Complete { front, cert } => match in_own_sense(alloc, sense, front) {
            Ok(front) => Found {
                answer: FrontAnswer::Complete { front },
                held: Held::Front(cert),
            },
            Err(AllocError) => {
                drop(cert);
                wanting()
            }
        },
        Mc::Infeasible { cert, results } => Found {
            answer: FrontAnswer::Infeasible { results },
            held: Held::Infeasible(cert),
        },
        Mc::Stopped {
            front,
            part,
            why,
            results,
            bound,
            best,
        } => match in_own_sense(alloc, sense, front) {
            Ok(front) => told(FrontAnswer::Stopped {
                front,
                part,
                why,
                results,
                bound,
                best,
            }),
            Err(AllocError) => {
                drop(why);
                wanting()
            }
        },
        Mc::NotWhole { .. } => unreachable!(),
        Mc::WideScale { front, part, place } => match in_own_sense(alloc, sense, front) {
            Ok(front) => told(FrontAnswer::WideScale { front, part, place }),
            Err(AllocError) => wanting(),
        },
        Mc::Memory => wanting(),
    }
}
