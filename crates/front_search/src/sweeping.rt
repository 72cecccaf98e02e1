// The sweep of a model in least form without constants, by a search of its own.
ghost use Rattle.std.specs.Prelude.{◌≡◌, ◌≤◌, ◌⊎◌, false, MatchOption};
ghost use Rattle.frac128.specs.Range.{IsNarrow};
ghost use Rattle.lp_model.specs.Program.{HasWholeObjective};
ghost use Rattle.inner_models.specs.Inner.{bare_model};
ghost use Rattle.front_check.specs.Accepted.{whole_constant};
ghost use Rattle.front_check.specs.Verdict.{HasWholeObjectives};
ghost use Rattle.wcn_driver.specs.Answers.{IsMc};
ghost use Rattle.front_search.specs.FrontsFound.{IsFirstNotWholeObjective, stops_by};

use front_env::FrontEnv;
use gap_models::bare_model;
use inner_models::{bare_law, bare_room_law};
use lp_model::{ColId, Model, show_model};
use model_points::whole_objective;
use std::alloc::Global;
use tree_search::Limits;
use wcn_driver::{Mc, run_wcn};

/// The first objective that is not whole, with the first column that makes it so, `None` for its constant.
pub(crate) fn first_not_whole(model: &Model) -> Option<(u8, Option<ColId>)>
    ensures { MatchOption result (HasWholeObjectives model.now) (λ found. IsFirstNotWholeObjective model.now found.0 found.1) }
{
    match whole_objective(model, 1) {
        Err(fault) => Some((1, fault.col)),
        Ok(()) => match whole_objective(model, 2) {
            Err(fault) => Some((2, fault.col)),
            Ok(()) => None,
        },
    }
}

/// The constant of an objective in least form, which is whole.
fn least_constant(model: &Model, which: u8) -> i128
    requires { (which ≡ 1) ⊎ (which ≡ 2) }
    ensures is { result ≡ whole_constant model.now which }
    ensures narrow { IsNarrow result }
{
    model.sense().least_form(model.constant(which)).floor()
}

/// What a sweep of the model finds, in least form. Of the limits, its searches place no more results than these together.
pub(crate) fn sweep(alloc: Global, model: &Model, limits: &Limits) -> Mc
    requires workers { 1 ≤ limits.now.workers }
    requires plain { model.now.wide ≡ false }
    ensures { IsMc (stops_by limits.now) (bare_model model.now) limits.now.nodes (whole_constant model.now 1) (whole_constant model.now 2) result }
{
    show_model(model);
    bare_law();
    bare_room_law();
    let constant1 = least_constant(model, 1);
    let constant2 = least_constant(model, 2);
    let Ok(bare) = bare_model(alloc, model) else {
        return Mc::Memory;
    };
    let Ok(solver) = FrontEnv::new(alloc, bare, *limits) else {
        return Mc::Memory;
    };
    let mut solver = solver;
    let mc = run_wcn(alloc, &mut solver, limits.nodes, constant1, constant2);
    solver.end();
    mc
}
