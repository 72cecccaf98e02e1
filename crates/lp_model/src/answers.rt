// Where a search stopped, and why.
use crate::list::List;
use crate::types::{Basis, Derivation, Point, Region, WideStep};

/// The relaxation whose moves reached the limit, and the basis that they led to.
#[derive(Drop)]
pub struct PivotPlace {
    /// The bound changes of its leaf, `None` where it is that of the ray phase.
    pub path: Option<Region>,
    /// The cuts that it has, in order.
    pub cuts: List<Derivation>,
    /// The basis of the last state.
    pub basis: Basis,
}

/// A step without room at a basis of a relaxation.
#[derive(Drop)]
pub struct WideAt {
    /// The bound changes of its leaf, `None` where it is that of the ray phase.
    pub path: Option<Region>,
    /// The cuts that it has, in order.
    pub cuts: List<Derivation>,
    /// The basis that stood when the step was made.
    pub basis: Basis,
    /// The step.
    pub step: WideStep,
}

/// Why a search stopped before its end.
#[derive(Drop)]
pub enum StopWhy {
    /// As many results were placed as the limit allows.
    Nodes,
    /// A leaf is to be split, and the tree has no room for two more nodes.
    Tree,
    /// A relaxation had as many moves as the limit allows.
    Pivots(PivotPlace),
    /// A step of arithmetic has no room.
    Wide(WideAt),
}
