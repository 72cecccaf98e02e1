// First parts of ratios in whole numbers: where the reduced cost and the entry are numbers over the denominator of the table, that
// cancels, and two of them are compared without a division.
ghost use Rattle.std.specs.Prelude.{◌≡◌, ◌≢◌, ◌↔◌, ◌<◌, ◌-ℤ◌, pos, IsTrue, IfSome};
ghost use Rattle.frac128.specs.Rational.{int, ◌<ℚ◌};
ghost use Rattle.frac128.specs.LowestTerms.{quotient_of};
ghost use Rattle.table_entries.specs.WholeSteps.{IsShort};
ghost use Rattle.basic_solution.specs.Held.{table};
ghost use Rattle.basic_solution.specs.KeptCosts.{AreKeptCosts};
ghost use Rattle.basic_solution.specs.Priced.{ArePriced};
ghost use Rattle.dual_simplex.specs.private.WholeRatios.{IsShortRatio, IsWholeRatio};

use basic_solution::{CostSource, SidedBasis};
use table_entries::{Stand, by_sign};
use whole_sums::{product, short_number};

/// A number over another one that is above 0.
#[derive(Clone, Copy, Drop)]
pub struct WholeRatio {
    pub top: i64,
    pub bottom: i64,
}

/// The number with the other sign.
#[inline]
fn turned(number: i64) -> i64
    requires { IsShort number }
    ensures { result ≡ pos 0 -ℤ number }
{
    -number
}

/// The first part of the ratio of a place, where it can be had without a division, by the reduced cost that is kept, or by the rows
/// whose basic variable has a cost where these are listed. None says nothing of it.
pub(crate) fn whole_ratio(
    state: &SidedBasis<'_>,
    row: usize,
    side: Stand,
    place: usize,
    source: &CostSource<'_>,
) -> Option<WholeRatio>
    requires row { row < state.now.tableau.activities }
    requires place { place < state.now.tableau.columns }
    requires some { (table state.now).entry row place ≢ int (pos 0) }
    requires priced { IfSome source.now.count (λ n. ArePriced state.now source.now.rows.now source.now.numbers.now n) }
    requires kept { AreKeptCosts state.now source.now.kept_over source.now.kept.now }
    ensures { IfSome result (λ r. IsWholeRatio state.now row side place r.top r.bottom) }
{
    let denominator = state.denominator();
    let Some(entry) = state.number_over(row, place, denominator) else {
        return None;
    };
    let Some(total) = state.cost_total_by(place, denominator, source) else {
        return None;
    };
    let Some(cost) = short_number(total) else {
        return None;
    };
    let over = by_sign(entry, cost);
    let bottom = by_sign(entry, entry);
    match side {
        Stand::Low => Some(WholeRatio { top: over, bottom }),
        Stand::High => {
            let top = turned(over);
            Some(WholeRatio { top, bottom })
        }
        Stand::Free => None,
    }
}

/// Whether a ratio is below another one.
pub(crate) fn is_lesser(left: &WholeRatio, right: &WholeRatio) -> bool
    requires left { IsShortRatio left.now.top left.now.bottom }
    requires right { IsShortRatio right.now.top right.now.bottom }
    ensures { IsTrue result ↔ (quotient_of left.now.top left.now.bottom <ℚ quotient_of right.now.top right.now.bottom) }
{
    product(left.top, right.bottom) < product(right.top, left.bottom)
}
