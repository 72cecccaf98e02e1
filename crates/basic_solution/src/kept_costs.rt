// Reduced costs that are kept from one state to the next, and follow the exchange between them.
ghost use Rattle.std.specs.Prelude.{◌≡◌, ◌≢◌, ◌<◌, ◌<ℤ◌, ℤ, pos, length, IsTrue, IfOk, IfSome};
ghost use Rattle.frac128.specs.Rational.{int};
ghost use Rattle.table_entries.specs.declared.stand.Stand.{Stand};
ghost use Rattle.table_entries.specs.WholeSteps.{IsShort, whole_number_at};
ghost use Rattle.whole_sums.specs.Wholes.{IsDenominator};
ghost use Rattle.basic_solution.specs.Exchanges.{IsMove};
ghost use Rattle.basic_solution.specs.Held.{Held, IsSided, table};
ghost use Rattle.basic_solution.specs.KeptCosts.{AreKeptCosts, AreShortOrMarks};
ghost use Rattle.basic_solution.specs.Priced.{ArePriced};
ghost use Rattle.basic_solution.specs.RowTotals.{IsCostTotal};

use crate::followed::{UNKNOWN, followed, forget, is_short, number_but};
use crate::priced_rows::CostSource;
use crate::sided::SidedBasis;
use std::alloc::{AllocError, Global};
use table_entries::Inverse;
use whole_sums::short_number;

impl SidedBasis<'_> {
    /// A list of reduced costs, none of which is known.
    pub fn no_costs(&self, alloc: Global) -> Result<Vec<i64>, AllocError>
        ensures { IfOk result (λ kept. (d : ℤ) → IsDenominator d → AreKeptCosts self.now d kept.items) }
    {
        vec![in alloc; UNKNOWN; self.columns()]
    }

    /// Whether the reduced cost of a place is kept. Nothing rests on a `false` but speed.
    #[inline]
    pub fn knows_cost(&self, place: usize, kept: &[i64]) -> bool
        requires place { place < self.now.tableau.columns }
        requires kept { length kept.now ≡ self.now.tableau.columns }
        ensures { IsTrue result → IsShort (whole_number_at kept.now place) }
    {
        is_short(kept[place])
    }

    /// The reduced cost of a place times the denominator, as it is kept, where sizes show that each sum of its terms has room: costs are
    /// small whole numbers, and the entries numbers over the denominator. None says nothing of the reduced cost.
    pub(crate) fn kept_total(
        &self,
        place: usize,
        denominator: i64,
        source: &CostSource<'_>,
        count: usize,
    ) -> Option<i128>
        requires place { place < self.now.tableau.columns }
        requires positive { pos 0 <ℤ denominator }
        requires denominator { IsShort denominator }
        requires priced { ArePriced self.now source.now.rows.now source.now.numbers.now count }
        requires kept { AreKeptCosts self.now source.now.kept_over source.now.kept.now }
        ensures { IfSome result (λ total. IsCostTotal self.now place denominator total) }
    {
        if source.kept_over != denominator {
            return None;
        }
        let number = source.kept[place];
        if !is_short(number) {
            return None;
        }
        let Some(_start) = self.cost.small_of(self.tableau.nonbasic(place)) else {
            return None;
        };
        let Some(_entries) = self.tableau.numbers_over(denominator) else {
            return None;
        };
        let _few = self.tableau.columns();
        Some(i128::from(number))
    }

    /// Keeps the reduced cost of a place, where it can be had over the denominator. Whether it is kept is not asked here.
    pub fn keep_cost(
        &self,
        place: usize,
        denominator: i64,
        rows: &[usize],
        numbers: &[i64],
        count: usize,
        kept: &mut [i64],
    )
        requires place { place < self.now.tableau.columns }
        requires priced { ArePriced self.now rows.now numbers.now count }
        requires kept { AreKeptCosts self.now denominator kept.old }
        ensures { AreKeptCosts self.now denominator kept.new }
    {
        let Some(total) = self.priced_total(place, denominator, rows, numbers, count) else {
            return;
        };
        if let Some(number) = short_number(total) {
            kept[place] = number;
        }
    }

    /// Lets the reduced costs that are kept follow the exchange of a row and a place, behind it, and answers the denominator over which
    /// they are then. Where that of the place was not known, none is.
    pub fn follow_costs(&self, row: usize, place: usize, before: i64, kept: &mut [i64]) -> i64
        requires row { row < self.now.tableau.activities }
        requires place { place < self.now.tableau.columns }
        requires positive { pos 0 <ℤ before }
        requires before { IsShort before }
        requires size { length kept.old ≡ self.now.tableau.columns }
        requires range { AreShortOrMarks kept.old }
        ensures { (s : Held) (side : Stand) → IsSided s → (table s).entry row place ≢ int (pos 0) → IsMove s self.now row side place → AreKeptCosts s before kept.old → AreKeptCosts self.now result kept.new }
    {
        let after = self.denominator();
        let Some(entries) = self.row_over(row, after) else {
            forget(kept);
            return after;
        };
        let factor = kept[place];
        if !is_short(factor) {
            forget(kept);
            return after;
        }
        let inverse = Inverse::of(before);
        for at in 0..kept.len() {
            kept[at] = followed(
                number_but(kept, place, 0, at),
                before,
                after,
                factor,
                entries[at],
                &inverse,
            );
        }
        after
    }
}
