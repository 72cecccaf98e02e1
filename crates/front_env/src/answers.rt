// What answers claim, and what they count.
ghost use Rattle.std.specs.Prelude.{◌≡◌};
ghost use Rattle.front_solver.specs.Truth.{shown_claim};
ghost use Rattle.front_env.specs.FrontEnvs.{with_results, behind};
ghost use Rattle.front_env.specs.private.Going.{CountsBehind};

use cert_text::Claim;
use search_answers::Answer;
use tree_search::Limits;

/// What an answer claims that a tree proves.
pub(crate) fn shown_claim(answer: &Answer) -> Option<Claim>
    ensures { result ≡ shown_claim answer.now }
{
    match answer {
        Answer::Optimal { value, .. } => Some(Claim::Optimal(*value)),
        Answer::Infeasible { .. } => Some(Claim::Infeasible),
        Answer::Within { .. }
        | Answer::Unbounded { .. }
        | Answer::Stopped { .. }
        | Answer::Memory => None,
    }
}

/// These limits with as many results, and no gap.
pub(crate) fn with_results(limits: &Limits, nodes: u64) -> Limits
    ensures { result ≡ with_results limits.now nodes }
{
    let Limits {
        pivots,
        tree,
        workers,
        seed,
        ..
    } = *limits;
    Limits {
        nodes,
        pivots,
        tree,
        workers,
        seed,
        gap: None,
    }
}

/// The answer behind so many results that were placed before.
pub(crate) fn behind(before: u64, answer: Answer) -> Answer
    requires { CountsBehind before answer }
    ensures { result ≡ behind before answer }
{
    match answer {
        Answer::Optimal {
            value,
            point,
            results,
        } => Answer::Optimal {
            value,
            point,
            results: before + results,
        },
        Answer::Within {
            gap,
            value,
            point,
            results,
        } => Answer::Within {
            gap,
            value,
            point,
            results: before + results,
        },
        Answer::Infeasible { results } => Answer::Infeasible {
            results: before + results,
        },
        Answer::Unbounded { results } => Answer::Unbounded {
            results: before + results,
        },
        Answer::Stopped {
            why,
            results,
            bound,
            best,
        } => Answer::Stopped {
            why,
            results: before + results,
            bound,
            best,
        },
        Answer::Memory => Answer::Memory,
    }
}
