// Back before the first term that is another one.
ghost use Rattle.std.specs.Prelude.{◌≡◌};
ghost use Rattle.leaf_totals.specs.Likeness.{is_term_before, has_ended, IsBackBefore, KeptBackLaw, CostsLaw, LikenessLaw};

use crate::end::End;
use crate::keeping::LeafTotals;
use lp_model::Var;

/// Whether the term of the variable stands before that of a column.
fn is_term_before(col: usize, of: &Var) -> bool
    ensures { result ≡ is_term_before col of.now }
{
    match of {
        Var::Row(_) => true,
        Var::Cut(_) => true,
        Var::Col(place) => (place.0 as usize) < col,
    }
}

/// Whether the walk is known to have ended before the term of a column.
fn has_ended(col: usize, ending: &Option<End>) -> bool
    ensures { result ≡ has_ended col ending.now }
{
    match ending {
        None => false,
        Some(end) => match end {
            End::Missing(of) => is_term_before(col, of),
            End::Wide(of) => is_term_before(col, of),
            End::WideEntry { col: place, .. } => (place.0 as usize) < col,
        },
    }
}

impl LeafTotals {
    /// Goes back to the last total before the term of a column, for no step. Where the walk ended before that term all stays.
    pub fn back_before(&mut self, col: usize)
        ensures { IsBackBefore col self.old self.new }
    {
        if !has_ended(col, &self.ending) {
            self.back_to(col / 64 + 2);
        }
    }
}

/// What is kept before the first term that is another one stands.
pub fn back_law()
    ensures { KeptBackLaw }
{}

/// What is before a column stands where only costs from it on are others.
pub fn costs_law()
    ensures { CostsLaw }
{}

/// What stands under a second question, and from there under a third, stands under the third.
pub fn likeness_law()
    ensures { LikenessLaw }
{}
