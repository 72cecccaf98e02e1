// The number of a leaf, and whether it closes.
ghost use Rattle.std.specs.Prelude.{◌↔◌, IsTrue};
ghost use Rattle.lp_model.specs.Regions.{AreNarrow};
ghost use Rattle.lp_model.specs.Formulations.{formulation};
ghost use Rattle.leaf_judging.specs.Closing.{IsRefuted, IsSetAside, IsNumber, NumberCloses, StateSays};

use branch_tree::LeafState;
use cover_cuts::CutPool;
use frac128::Frac;
use leaf_dual::{LagValue, closes, path_farkas, path_lag};
use lp_model::{BoundChange, Model, Mult, WideStep};
use model_points::has_whole_objective;

/// What a leaf's multipliers say of its region.
#[derive(Clone, Copy, Drop)]
pub enum LeafNumber {
    /// The region has no feasible point.
    Empty,
    /// No feasible point of the region has a value below this one, in least form.
    Lag(LagValue),
    /// The number could not be computed: this step is the first that has no room.
    Wide(WideStep),
}

/// Whether there are Farkas multipliers, and their number is above 0.
fn is_refuted(model: &Model, pool: &CutPool, path: &[BoundChange], mult: &Mult) -> bool
    requires { AreNarrow path.now }
    ensures { IsTrue result ↔ IsRefuted (formulation model.now pool.now) path.now mult.now }
{
    if mult.as_slice().is_empty() {
        return false;
    }
    match path_farkas(model, pool.rows(), path, mult.as_slice()) {
        Ok(value) => value.is_positive(),
        Err(_) => false,
    }
}

/// Whether the region is seen to have no feasible point.
fn is_set_aside(model: &Model, pool: &CutPool, path: &[BoundChange], farkas: &Mult) -> bool
    requires { AreNarrow path.now }
    ensures { IsTrue result ↔ IsSetAside (formulation model.now pool.now) path.now farkas.now }
{
    model.is_empty_region(path) || is_refuted(model, pool, path, farkas)
}

/// What the multipliers and the Farkas multipliers of rows and cuts say of a region. Those of a cut that does not count are 0.
pub fn number_of(
    model: &Model,
    pool: &CutPool,
    path: &[BoundChange],
    mult: &Mult,
    farkas: &Mult,
) -> LeafNumber
    requires { AreNarrow path.now }
    ensures { IsNumber (formulation model.now pool.now) path.now mult.now farkas.now result }
{
    if is_set_aside(model, pool, path, farkas) {
        return LeafNumber::Empty;
    }
    match path_lag(model, pool.rows(), path, mult.as_slice()) {
        Ok(value) => LeafNumber::Lag(value),
        Err(step) => LeafNumber::Wide(step),
    }
}

/// Whether a leaf with this number needs no search below it, where a point with the target's value is known, if any.
pub fn number_closes(model: &Model, target: &Option<Frac>, number: &LeafNumber) -> bool
    ensures { IsTrue result ↔ NumberCloses model.now target.now number.now }
{
    match number {
        LeafNumber::Empty => true,
        LeafNumber::Lag(value) => match target {
            None => false,
            Some(target) => closes(value, target, has_whole_objective(model, 1)),
        },
        LeafNumber::Wide(_) => false,
    }
}

/// The state of a leaf with this number.
pub fn state_by(model: &Model, target: &Option<Frac>, number: &LeafNumber) -> LeafState
    ensures { StateSays result (NumberCloses model.now target.now number.now) }
{
    if number_closes(model, target, number) {
        LeafState::IsClosed
    } else {
        LeafState::IsOpen
    }
}
