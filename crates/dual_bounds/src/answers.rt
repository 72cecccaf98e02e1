// What the calls answer.
use frac128::Frac;
use lp_model::WideStep;

/// What a tree proves of all feasible points of a model.
#[derive(Clone, Copy, Drop)]
pub enum LowerBound {
    /// No feasible point has a value below this one, in least form and with the constant.
    Value(Frac),
    /// Nothing: in the first leaf that is not set aside and has no number, a side or a bound is missing that is needed.
    NoValue,
    /// No point is feasible.
    Infeasible,
    /// Nothing: the number of the first leaf that is not set aside and has none has this step, for which there is no room.
    /// Leaves are counted from the left, from 1.
    Wide { leaf: u64, step: WideStep },
}

/// What the kept points prove of a model's optimum.
#[derive(Clone, Copy, Drop)]
pub enum UpperBound {
    /// Some feasible point has this value, in least form and with the constant.
    Value(Frac),
    /// No kept point is feasible.
    NoValue,
}
