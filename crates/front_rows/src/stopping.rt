// A solver that stops at one of its solves.
ghost use Rattle.std.specs.Prelude.{◌≡◌, ◌⊎◌, Some};
ghost use Rattle.front_rows.specs.Stopping.{claim_unless, IsAddedStop};

use cert_text::Cert;
use front_solver::Solver;
use lp_model::{Edit, Model, StopWhy};
use model_edits::EditFault;
use search_answers::Answer;
use std::alloc::AllocError;
use std::mem::replace;

/// A solver that stops once, without results, a bound and a best value, and else answers as the one in it.
pub struct StoppingSolver<S: Solver> {
    inner: S,
    /// How many solves come before the stop.
    before: u64,
    /// Why it stops, and nothing behind the stop.
    why: Option<StopWhy>,
    /// Whether the last solve was the stop.
    is_stopped: bool,
}

impl<S: Solver> StoppingSolver<S> {
    /// A solver that stops behind so many solves of the one in it.
    pub fn new(inner: S, before: u64, why: StopWhy) -> StoppingSolver<S>
        ensures inner { result.inner ≡ inner }
        ensures stop { result.why ≡ Some why }
    {
        StoppingSolver {
            inner,
            before,
            why: Some(why),
            is_stopped: false,
        }
    }

    /// The solver in it.
    pub fn into_inner(self) -> S
        ensures { result ≡ self.inner }
    {
        let StoppingSolver {
            inner,
            before: _,
            why,
            is_stopped: _,
        } = self;
        drop(why);
        inner
    }
}

impl<S: Solver> Solver for StoppingSolver<S> {
    ghost program = { λ s. S.program s.inner };

    ghost finished = { λ s. claim_unless s.is_stopped (S.finished s.inner) };

    ghost stops = { λ s M n answer. S.stops s.inner M n answer ⊎ IsAddedStop s.why answer };

    fn model(&self) -> &Model {
        self.inner.model()
    }

    fn edit(&mut self, edit: Edit) -> Result<(), EditFault> {
        self.inner.edit(edit)
    }

    fn solve(&mut self, nodes: u64) -> Answer {
        if self.before == 0 {
            if let Some(why) = replace(&mut self.why, None) {
                self.is_stopped = true;
                return Answer::Stopped {
                    why,
                    results: 0,
                    bound: None,
                    best: None,
                };
            }
        }
        self.before = self.before.saturating_sub(1);
        self.is_stopped = false;
        self.inner.solve(nodes)
    }

    fn certificate(&self) -> Result<Cert, AllocError> {
        self.inner.certificate()
    }
}
