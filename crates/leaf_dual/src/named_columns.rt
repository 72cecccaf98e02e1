// The columns that a region names: elsewhere the columns' own bounds stand.
ghost use Rattle.std.specs.Prelude.{◌≡◌, ◌<◌, ℕ, true, false, if◌then◌else◌, nat_eq, length, get_or, IsTrue};
ghost use Rattle.leaf_dual.specs.WholeParts.{AreNamedMarked};

use lp_model::BoundChange;

/// Marks a column, if there is a place for it.
#[inline]
fn mark(named: &mut [bool], col: usize)
    ensures { (j : ℕ) → j < length named.old → get_or named.new j false ≡ (if nat_eq col j then true else get_or named.old j false) }
{
    if col < named.len() {
        named[col] = true;
    }
}

/// Marks the columns that a region names, as far as there are places for them. What is marked stays so.
pub fn mark_named(region: &[BoundChange], named: &mut [bool])
    ensures { AreNamedMarked region.now named.new }
{
    for change in region {
        mark(named, change.col.0 as usize);
    }
}

/// Whether there is a place for a column and it isn't marked.
#[inline]
pub(crate) fn is_unmarked(named: &[bool], col: usize) -> bool
    ensures within { IsTrue result → col < length named.now }
    ensures value { IsTrue result → get_or named.now col false ≡ false }
{
    col < named.len() && !named[col]
}
