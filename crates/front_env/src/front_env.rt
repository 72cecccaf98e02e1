// An environment as a solver of inner models.
ghost use Rattle.std.specs.Prelude.{◌≡◌, ◌≤◌, IfOk, None};
ghost use Rattle.front_env.specs.FrontEnvs.{program_of, stops_of};

use crate::answers::{behind, shown_claim, with_results};
use crate::kept::{KeptSearches, begin_anew};
use crate::resuming::{GoneOn, go_on, solved_anew};
use cert_check::{accepted_law, verdict_law};
use cert_text::{Cert, Claim};
use front_solver::Solver;
use kept_env::{Env, EnvFault};
use lp_model::{Edit, Model};
use model_edits::EditFault;
use search_answers::Answer;
use std::alloc::{AllocError, Global};
use tree_cert::certificate;
use tree_search::Limits;

/// A model with a search of its own, which is edited and solved. Contracts see a `PlainFrontEnv`.
pub struct FrontEnv {
    env: Env,
    /// Searches of models that it had before, with two rows more than the first one.
    kept: KeptSearches,
    shown: Option<Claim>,
    limits: Limits,
    alloc: Global,
}

impl std::marker::Model for FrontEnv {
    ghost use Rattle.front_env.specs.FrontEnvs.{PlainFrontEnv, IsFrontEnv, front_env_code};

    ghost Value = { PlainFrontEnv };

    ghost coded = { front_env_code };

    ghost view = { λ e. record { env = e.env; shown = e.shown; limits = e.limits } };

    ghost invariant = { λ e. IsFrontEnv (record { env = e.env; shown = e.shown; limits = e.limits }) };
}

impl FrontEnv {
    /// With this model and these limits. Of the limits, how many results a solve may place is said at each solve.
    pub fn new(alloc: Global, model: Model, limits: Limits) -> Result<FrontEnv, AllocError>
        requires workers { 1 ≤ limits.workers }
        ensures program { IfOk result (λ e. program_of e ≡ model) }
        ensures shown { IfOk result (λ e. e.shown ≡ None) }
        ensures limits { IfOk result (λ e. e.limits ≡ limits) }
    {
        let rows = model.rows().len();
        let mut env = Env::new(alloc);
        match env.load(model) {
            Ok(()) => Ok(FrontEnv {
                env,
                kept: KeptSearches::new(rows.saturating_add(2)),
                shown: None,
                limits,
                alloc,
            }),
            Err(fault) => {
                drop(fault);
                env.end();
                Err(AllocError)
            }
        }
    }

    /// Lets the environment go, with its search and those that it keeps.
    pub fn end(self) {
        let FrontEnv {
            env,
            kept,
            shown: _,
            limits: _,
            alloc: _,
        } = self;
        drop(kept);
        env.end();
    }
}

impl Solver for FrontEnv {
    ghost program = { program_of };

    ghost finished = { λ e. e.shown };

    ghost stops = { stops_of };

    fn model(&self) -> &Model {
        match self.env.model() {
            Some(model) => model,
            None => unreachable!(),
        }
    }

    fn edit(&mut self, edit: Edit) -> Result<(), EditFault> {
        let was_solved = self.shown.is_some();
        begin_anew(self.alloc, &mut self.env, &mut self.kept, was_solved);
        match self.env.edit(edit) {
            Ok(()) => {
                self.shown = None;
                Ok(())
            }
            Err(EnvFault::Edit(fault)) => {
                self.shown = None;
                Err(fault)
            }
            Err(_) => unreachable!(),
        }
    }

    fn solve(&mut self, nodes: u64) -> Answer {
        let limits = with_results(&self.limits, nodes);
        match go_on(self.alloc, &mut self.env, &mut self.kept, &limits) {
            GoneOn::Ended(answer) => {
                self.shown = shown_claim(&answer);
                answer
            }
            GoneOn::Stopped { results } => {
                let rest = with_results(&self.limits, nodes - results);
                let answer = solved_anew(self.alloc, &mut self.env, &rest);
                self.shown = shown_claim(&answer);
                behind(results, answer)
            }
        }
    }

    fn certificate(&self) -> Result<Cert, AllocError> {
        verdict_law();
        accepted_law();
        let _held = self.env.held();
        match self.env.search() {
            Some(search) => certificate(self.alloc, search),
            None => unreachable!(),
        }
    }
}
