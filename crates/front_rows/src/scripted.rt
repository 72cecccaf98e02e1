// A solver whose answers stand in a script.
ghost use Rattle.std.specs.Prelude.{◌≡◌, ◌≤◌, IsTrue, IfSome, Some};
ghost use Rattle.frac128.specs.Rational.{◌<ℚ◌};
ghost use Rattle.lp_model.specs.Program.{in_least_form};
ghost use Rattle.model_points.specs.Bounds.{IsBound, IsFoundValue};
ghost use Rattle.cert_text.specs.Whole.{IsCertificate};
ghost use Rattle.cert_check.specs.Accepted.{Accepts};
ghost use Rattle.cert_check.specs.Verdict.{IsVerdict};
ghost use Rattle.cert_check.specs.declared.verdict.Verdict.TheVariants.{Accepted};
ghost use Rattle.front_solver.specs.Truth.{IsTrueOf, IsStop, shown_claim};
ghost use Rattle.front_rows.specs.Scripts.{IsScriptedStop, TellsStop};

use cert_check::{RegionBuf, Verdict, accepted_law, check, point, verdict_law};
use cert_text::{Cert, Claim, read_cert};
use frac128::Frac;
use front_solver::Solver;
use lp_model::{Edit, Model, StopWhy};
use model_edits::{EditFault, apply};
use search_answers::Answer;
use std::alloc::{AllocError, Global};

/// How a solve of a script ends.
#[derive(Drop)]
pub enum Ending {
    /// As the certificate claims, with its point.
    Finished,
    /// It stops.
    Stopped {
        why: StopWhy,
        bound: Option<Frac>,
        best: Option<Frac>,
    },
}

/// A solve of a script: how it ends, after how many results, and the text of the certificate that shows what is answered.
#[derive(Drop)]
pub struct Step {
    pub ending: Ending,
    pub results: u64,
    pub text: Vec<u8>,
}

/// A model, and a script of solves. What a solve is to answer is answered where the certificate is accepted for the model as it stands and
/// shows it, within the results that it may place. Else, and behind the last one, want of memory is told.
#[derive(Drop)]
pub struct ScriptedSolver {
    alloc: Global,
    model: Model,
    /// The solves that are left, the last one first.
    steps: Vec<Step>,
    /// What the last solve has shown of the model as it is.
    shown: Option<Claim>,
    /// The text of the last solve's certificate.
    text: Vec<u8>,
}

/// The certificate that a text states, where the checker accepts it for the model.
fn accepted(alloc: Global, model: &Model, text: &[u8]) -> Option<Cert>
    ensures verdict { IfSome result (λ cert. IsVerdict model.now cert (Accepted cert.claim)) }
    ensures accepts { IfSome result (Accepts model.now) }
    ensures whole { IfSome result IsCertificate }
{
    verdict_law();
    let Ok(cert) = read_cert(alloc, text) else {
        return None;
    };
    let Ok(mut buf) = RegionBuf::new(alloc, model, &cert) else {
        drop(cert);
        return None;
    };
    let verdict = check(model, &cert, &mut buf);
    drop(buf);
    match verdict {
        Verdict::Accepted(_) => Some(cert),
        _ => {
            drop(cert);
            None
        }
    }
}

// ---- finished answers

/// What a certificate claims, as an answer.
fn claimed(alloc: Global, model: &Model, cert: &Cert, results: u64, nodes: u64) -> Answer
    requires verdict { IsVerdict model.now cert.now (Accepted cert.now.claim) }
    requires accepts { Accepts model.now cert.now }
    requires results { results ≤ nodes }
    ensures true_of { IsTrueOf model.now nodes result }
    ensures finished { ¬ IsStop result }
{
    accepted_law();
    match cert.claim {
        Claim::Optimal(value) => match point(alloc, model, cert.point.as_slice()) {
            Ok(Some(point)) => Answer::Optimal {
                value,
                point,
                results,
            },
            _ => Answer::Memory,
        },
        // no solver that is driven to an optimum answers this
        Claim::Within { .. } => Answer::Memory,
        Claim::Infeasible => Answer::Infeasible { results },
        Claim::Unbounded => Answer::Unbounded { results },
    }
}

/// What the text of a certificate claims, as an answer, where the certificate is accepted for the model.
fn finished(alloc: Global, model: &Model, text: &[u8], results: u64, nodes: u64) -> Answer
    requires results { results ≤ nodes }
    ensures true_of { IsTrueOf model.now nodes result }
    ensures finished { ¬ IsStop result }
{
    let Some(cert) = accepted(alloc, model, text) else {
        return Answer::Memory;
    };
    let answer = claimed(alloc, model, &cert, results, nodes);
    drop(cert);
    answer
}

// ---- stops

/// Whether two numbers are equal.
#[tactic(auto, using(frac128::proofs::Comparison::comparisons))]
fn is_equal(first: &Frac, second: &Frac) -> bool
    ensures { IsTrue result → first.now ≡ second.now }
{
    *first == *second
}

/// Whether a value is no better than a bound.
fn is_within(model: &Model, value: &Frac, bound: &Frac) -> bool
    ensures { IsTrue result → ¬ (in_least_form model.now.sense value.now <ℚ in_least_form model.now.sense bound.now) }
{
    let sense = model.sense();
    !sense.least_form(value).is_below(&sense.least_form(bound))
}

/// Whether an accepted certificate shows that no feasible point is better than the bound.
fn shows_bound(model: &Model, cert: &Cert, bound: &Option<Frac>) -> bool
    requires { Accepts model.now cert.now }
    ensures { IsTrue result → IsBound model.now bound.now }
{
    accepted_law();
    let Some(bound) = bound else {
        return true;
    };
    match cert.claim {
        Claim::Optimal(value) => is_within(model, &value, bound),
        Claim::Within { .. } => false,
        Claim::Infeasible => true,
        Claim::Unbounded => false,
    }
}

/// Whether an accepted certificate shows that a feasible point has the best value.
fn shows_best(model: &Model, cert: &Cert, best: &Option<Frac>) -> bool
    requires { Accepts model.now cert.now }
    ensures { IsTrue result → IsFoundValue model.now best.now }
{
    accepted_law();
    let Some(best) = best else {
        return true;
    };
    match cert.claim {
        Claim::Optimal(value) => is_equal(&value, best),
        Claim::Within { .. } | Claim::Infeasible | Claim::Unbounded => false,
    }
}

/// Whether there is no bound and no best value, or the text of a certificate shows both.
fn are_shown(
    alloc: Global,
    model: &Model,
    text: &[u8],
    bound: &Option<Frac>,
    best: &Option<Frac>,
) -> bool
    ensures bound { IsTrue result → IsBound model.now bound.now }
    ensures best { IsTrue result → IsFoundValue model.now best.now }
{
    if bound.is_none() && best.is_none() {
        return true;
    }
    let Some(cert) = accepted(alloc, model, text) else {
        return false;
    };
    let shown = shows_bound(model, &cert, bound) && shows_best(model, &cert, best);
    drop(cert);
    shown
}

// ---- the solver

/// What a solve of a script answers of the model.
fn answered(
    alloc: Global,
    model: &Model,
    ending: Ending,
    text: &[u8],
    results: u64,
    nodes: u64,
) -> Answer
    ensures true_of { IsTrueOf model.now nodes result }
    ensures stopped { IsStop result → TellsStop ending results nodes result }
{
    if nodes < results {
        drop(ending);
        return Answer::Memory;
    }
    match ending {
        Ending::Finished => finished(alloc, model, text, results, nodes),
        Ending::Stopped { why, bound, best } => {
            if !are_shown(alloc, model, text, &bound, &best) {
                drop(why);
                return Answer::Memory;
            }
            Answer::Stopped {
                why,
                results,
                bound,
                best,
            }
        }
    }
}

/// What an answer claims that a tree proves.
fn shown_claim(answer: &Answer) -> Option<Claim>
    ensures { result ≡ shown_claim answer.now }
{
    match answer {
        Answer::Optimal { value, .. } => Some(Claim::Optimal(*value)),
        Answer::Infeasible { .. } => Some(Claim::Infeasible),
        Answer::Within { .. }
        | Answer::Unbounded { .. }
        | Answer::Stopped { .. }
        | Answer::Memory => None,
    }
}

/// Whether a claim is the one that is shown.
fn is_shown(shown: &Option<Claim>, claim: &Claim) -> bool
    ensures { IsTrue result → shown.now ≡ Some claim.now }
{
    match shown {
        Some(Claim::Optimal(shown)) => match claim {
            Claim::Optimal(value) => is_equal(shown, value),
            _ => false,
        },
        Some(Claim::Infeasible) => matches!(claim, Claim::Infeasible),
        _ => false,
    }
}

impl ScriptedSolver {
    /// A solver of a model by a script, whose last solve stands first.
    pub fn new(alloc: Global, model: Model, steps: Vec<Step>) -> ScriptedSolver
        ensures model { result.model ≡ model }
        ensures steps { result.steps ≡ steps }
    {
        ScriptedSolver {
            alloc,
            model,
            steps,
            shown: None,
            text: Vec::new(alloc),
        }
    }

    /// How many solves are left.
    pub fn left(&self) -> usize {
        self.steps.len()
    }
}

impl Solver for ScriptedSolver {
    ghost program = { λ s. s.model };

    ghost finished = { λ s. s.shown };

    ghost stops = { λ s M n answer. IsScriptedStop s.steps.items n answer };

    fn model(&self) -> &Model {
        &self.model
    }

    fn edit(&mut self, edit: Edit) -> Result<(), EditFault> {
        self.shown = None;
        apply(&mut self.model, self.alloc, edit)
    }

    fn solve(&mut self, nodes: u64) -> Answer {
        let Some(step) = self.steps.pop() else {
            self.shown = None;
            return Answer::Memory;
        };
        let Step {
            ending,
            results,
            text,
        } = step;
        let answer = answered(self.alloc, &self.model, ending, &text, results, nodes);
        self.shown = shown_claim(&answer);
        self.text = text;
        answer
    }

    fn certificate(&self) -> Result<Cert, AllocError> {
        let Some(cert) = accepted(self.alloc, &self.model, &self.text) else {
            return Err(AllocError);
        };
        if is_shown(&self.shown, &cert.claim) {
            return Ok(cert);
        }
        drop(cert);
        Err(AllocError)
    }
}
