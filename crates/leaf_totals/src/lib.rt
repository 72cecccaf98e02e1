//! The totals of a leaf's number that are kept on the way, so that a number of which a term changes is gone on with from there.
//!
//! The number is that of `leaf_dual`: from the constant the terms of the rows, then those of the cuts, then those of the columns.
//! Kept are the total after the rows, that after the cuts, and that after each 64th column, as far as the first term whose side or
//! bound is missing or whose step has no room, and which term that is (`End`).
//!
//! Public contract: `LeafTotals::go_on` goes on from the last total that is kept, adds each further term by `Totals::add_term`, which
//! ticks the counter, and answers what `lag` or `farkas` of `leaf_dual` answers (`IsDualAnswer`): no other step is made, and one without
//! room is found at the same place. It takes no more steps than terms stand behind the last kept total, and none where it is known what
//! the walk ends in. Totals that are kept of one question are those of another whose terms are the same up to there. `move_side` moves all of them where the
//! side of one row is another one and all terms are short over a denominator (`over`, which is noted beside them).
//!
//! Below stand the running totals (`kept_totals`) and the leaf's terms (`leaf_dual`). Above stand leaves that are judged.
#![tactic(auto)]

mod back;
mod end;
mod keeping;
mod moving;
mod walk;

pub use back::{back_law, costs_law, likeness_law};
pub use end::End;
pub use keeping::LeafTotals;
pub use moving::{moved_law, short_moved_law};
