// What a walk over a leaf's terms ends in before the last one.

use lp_model::{ColId, Var};

/// The first term that can't be added.
#[derive(Clone, Copy, Drop)]
pub enum End {
    /// The side of this row or cut, or this column's bound, is missing and needed.
    Missing(Var),
    /// The step of this row's, cut's or column's term has no room.
    Wide(Var),
    /// The step of this row's or cut's term has no room in what is left of the column's cost.
    WideEntry { col: ColId, by: Var },
}
