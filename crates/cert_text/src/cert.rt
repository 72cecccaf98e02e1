// The types of a certificate.

use frac128::Frac;
use lp_model::{List, Name, Side};

/// What a certificate claims of a model.
#[derive(Clone, Copy, Drop)]
pub enum Claim {
    /// A feasible point has this value in objective 1, in the model's own sense, and none beats it.
    Optimal(Frac),
    /// A feasible point has this value in objective 1, in the model's own sense, and none beats it by more than the gap, which is at
    /// least 0.
    Within { gap: Frac, value: Frac },
    /// No point is feasible.
    Infeasible,
    /// Some point is feasible, and whatever number is named, some feasible point has a better value in objective 1.
    Unbounded,
}

/// A multiplier.
#[derive(Drop)]
pub enum CertMult {
    /// Of the row with this name.
    Row(Name, Frac),
    /// Of the cut with this number, from 1.
    Cut(u64, Frac),
}

/// A node of a certificate's tree, without its children. A leaf says why no feasible point of its region beats the claimed
/// value, by more than the gap where one is claimed.
#[derive(Drop)]
pub enum CertNode {
    /// The left child has the named column at most at `v`, the right one at least at `v + 1`.
    Split { col: Name, v: i128 },
    /// The number of the multipliers reaches the value, or, in least form, the value less the gap.
    Bound(List<CertMult>),
    /// The number of the multipliers with all costs 0 is above 0: the region has no feasible point.
    Farkas(List<CertMult>),
    /// The region has a column without a number.
    Empty,
}

/// A cut: a side of a row, and literals, each the name of a column, with `true` for the column itself and `false` for 1
/// less it.
#[derive(Drop)]
pub struct NamedCut {
    pub row: Name,
    pub side: Side,
    pub literals: List<(Name, bool)>,
}

/// A certificate: its claim, the numbers of a point and of a ray beside the names of columns, its cuts, and the nodes of its
/// tree, each before those below it, the left ones first. The other columns are 0. A point stands where a feasible one is
/// claimed, a ray where the model is claimed unbounded, and nodes, and cuts for them, in all other certificates.
#[derive(Drop)]
pub struct Cert {
    pub claim: Claim,
    pub point: List<(Name, Frac)>,
    pub ray: List<(Name, Frac)>,
    pub cuts: List<NamedCut>,
    pub nodes: List<CertNode>,
}
