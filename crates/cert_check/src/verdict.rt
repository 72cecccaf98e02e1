// What the judging of a certificate answers.

use cert_text::Claim;
use lp_model::WideStep;

/// What the judging of a point or of one node answers.
#[derive(Clone, Copy, Drop)]
pub enum Judgement {
    Passes,
    /// It does not hold, for this reason.
    Breaks(u8),
    /// This step of arithmetic has no room.
    NoRoom(WideStep),
}

/// Whether a certificate is accepted for a model. Nodes are counted from 1 in the order of the text, and node 0 is the
/// point, the ray and the cuts, and the difference of a value and its gap.
#[derive(Clone, Copy, Drop)]
pub enum Verdict {
    /// This claim, the certificate's, is true.
    Accepted(Claim),
    /// The first node that does not hold, and why: 1 a name is unknown or stands twice on a line, or a cut's number is not
    /// there or stands twice, 2 the point is not feasible, 3 its value is not the claimed one, 4 the ray moves an integer
    /// column, passes a bound or a side, or does not improve, 5 a cut does not derive, 6 a split on a column that is not
    /// integer, 7 a leaf does not close as it says.
    Rejected { node: u64, why: u8 },
    /// The first node with a step of arithmetic that has no room, all before it holding. A value less its gap is one of node 0, a step of a
    /// value without a column.
    Wide { node: u64, step: WideStep },
}
