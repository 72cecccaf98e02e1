// What a solve of a model answers.
use frac128::Frac;
use lp_model::{Point, StopWhy};

/// What is found of a model. `results` counts the results that were placed.
#[derive(Drop)]
pub enum Answer {
    /// No feasible point beats this one, whose value in objective 1 is given.
    Optimal {
        value: Frac,
        point: Point,
        results: u64,
    },
    /// No feasible point beats this one by more than the gap, which is at least 0; its value in objective 1 is given. A leaf is left open.
    Within {
        gap: Frac,
        value: Frac,
        point: Point,
        results: u64,
    },
    /// There is no feasible point.
    Infeasible {
        results: u64,
    },
    /// There is a feasible point, and objective 1 has no end.
    Unbounded {
        results: u64,
    },
    /// The search stopped. No feasible point is better than the bound; the best value is that of a feasible point.
    Stopped {
        why: StopWhy,
        results: u64,
        bound: Option<Frac>,
        best: Option<Frac>,
    },
    /// There is no memory.
    Memory,
}
