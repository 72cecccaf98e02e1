// What looking for the front of a model answers.

use frac128::Frac;
use frontier::Front;
use lp_model::{ColId, StopWhy};
use wcn_driver::{Part, ScalePlace};

/// What was found of the front of an environment's model. Outcomes are in the model's own sense and with its constants; a part, the
/// bound and the best value are those of an inner model, in least form and without constants. Certificates are held by the environment.
#[derive(Drop)]
pub enum FrontAnswer {
    /// The whole front.
    Complete {
        front: Front,
    },
    /// There is no feasible point. So many results were placed.
    Infeasible {
        results: u64,
    },
    /// The search of a part's inner model stopped, when so many results were placed in all parts. The front has the outcomes that are
    /// found; the bound and the best value are the part's.
    Stopped {
        front: Front,
        part: Part,
        why: StopWhy,
        results: u64,
        bound: Option<Frac>,
        best: Option<Frac>,
    },
    /// An objective is not whole: the first such column, `None` for the constant.
    NotWhole {
        which: u8,
        col: Option<ColId>,
    },
    /// A number of a part has no room. The front has the outcomes that are found.
    WideScale {
        front: Front,
        part: Part,
        place: ScalePlace,
    },
    /// There is no memory.
    Memory,
}
