// Where the nonbasic variables of a state stand.

/// Where a nonbasic variable stands: at its low side, at its high side, or at 0 where it has no side.
#[derive(Clone, Copy, Drop)]
pub enum Stand {
    Low,
    High,
    Free,
}
