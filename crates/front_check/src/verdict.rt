// What the judging of a certificate of a front answers.

use lp_model::WideStep;

/// Whether a certificate of a front is accepted for a model. Nodes are counted from 1 through all trees, and node 0 is what stands
/// before them.
#[derive(Clone, Copy, Drop)]
pub enum FrontVerdict {
    /// The outcomes, so many, are the front of the model.
    Accepted { outcomes: u64 },
    /// The first node that does not hold, and why: 1, 2, 5, 6, 7 as of a plain certificate, 8 there is no outcome, or one has not the
    /// values of its point, or does not stand behind the one before it, 9 an objective is not whole, 10 the trees are not those of the
    /// least values and of the gaps, or a number of an inner model has no room.
    Rejected { node: u64, why: u8 },
    /// The first node with a step of arithmetic that has no room, all before it holding.
    Wide { node: u64, step: WideStep },
}
