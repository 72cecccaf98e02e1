// What a sweep of a front answers, and where it stopped.

use cert_text::Cert;
use frac128::Frac;
use front_text::FrontCert;
use frontier::{Front, Outcome};
use lp_model::{ColId, StopWhy};

/// The inner model that a sweep is at. Outcomes are without constants.
#[derive(Clone, Copy, Drop)]
pub enum Part {
    /// The least first value.
    Least1,
    /// The least second value where the first one is least: the first outcome.
    Left,
    /// The least second value.
    Least2,
    /// The least first value where the second one is least: the last outcome.
    Right,
    /// The gap between two neighbours.
    Gap { p: Outcome, q: Outcome },
    /// What is no worse than an outcome that was found in a gap.
    Pull { r: Outcome },
}

/// The first number of a part that has no room.
#[derive(Clone, Copy, Drop)]
pub enum ScalePlace {
    /// A weight of a gap, or its width.
    Width,
    /// A number of this column in the inner model.
    Col(ColId),
    /// A side of a row.
    Side,
    /// A value of the part's point, or its sum with its constant.
    Value,
}

/// What a sweep finds. `results` counts the results of all parts. Fronts are with constants.
#[derive(Drop)]
pub enum Mc {
    /// The front, and its certificate.
    Complete {
        front: Front,
        cert: FrontCert,
    },
    /// There is no feasible point.
    Infeasible {
        cert: Cert,
        results: u64,
    },
    /// A part stopped. The front has the outcomes that are found; the bound and the best value are the part's.
    Stopped {
        front: Front,
        part: Part,
        why: StopWhy,
        results: u64,
        bound: Option<Frac>,
        best: Option<Frac>,
    },
    /// An objective is not whole: the first such column, `None` for the constant.
    NotWhole {
        which: u8,
        col: Option<ColId>,
    },
    /// A number of a part has no room.
    WideScale {
        front: Front,
        part: Part,
        place: ScalePlace,
    },
    /// There is no memory.
    Memory,
}
