// Reduced costs.
ghost use Rattle.std.specs.Prelude.{◌≡◌, ◌<◌, ◌≤◌, ◌<ℤ◌, pos, IfSome};
ghost use Rattle.table_entries.specs.Steps.{at_basic};
ghost use Rattle.table_entries.specs.WholeSteps.{IsShort};
ghost use Rattle.whole_sums.specs.Wholes.{IsWholeTerm};
ghost use Rattle.basic_solution.specs.Held.{relaxation, table, variables};
ghost use Rattle.basic_solution.specs.Numbers.{IsFirstWideReducedCost, IsWideCost};
ghost use Rattle.basic_solution.specs.private.Numbers.{IsReducedCostAnswer};
ghost use Rattle.basic_solution.specs.RowTotals.{IsSmallNumber, IsCostTotal};

use crate::row_totals::with_product;
use crate::sided::SidedBasis;
use checked_sum::{Terms, checked_sum};
use frac128::Frac;
use lp_model::WideStep;
use row_tableau::Position;
use whole_sums::{WholeTerm, product, quotient};

/// The terms of the reduced cost of a place, by variable, up to the last that has a cost: entry of the basic ones times cost.
#[derive(Drop)]
struct CostTerms<'a, 'b> {
    state: &'b SidedBasis<'a>,
    place: usize,
    end: usize,
    ghost within: { place < state.now.tableau.columns },
    ghost end_within: { end ≤ variables state.now },
}

impl Terms for CostTerms<'_, '_> {
    ghost count = { λ t. t.end };

    ghost factor = { λ t v. at_basic (relaxation t.state.now) (table t.state.now) (λ i. (table t.state.now).entry i t.place) v };

    ghost number = { λ t v. (relaxation t.state.now).cost v };

    fn count(&self) -> usize {
        self.end
    }

    fn number(&self, index: usize) -> Frac {
        self.state.cost_of(index)
    }

    fn factor(&self, index: usize) -> Frac {
        self.state.saved_of(self.place, index)
    }
}

impl SidedBasis<'_> {
    /// The cost of a variable.
    pub(crate) fn cost_of(&self, variable: usize) -> Frac
        requires { variable < variables self.now }
        ensures { result ≡ (relaxation self.now).cost variable }
    {
        self.cost.of(variable)
    }

    /// The entry of a basic variable at a place, 0 for another one.
    pub(crate) fn saved_of(&self, place: usize, variable: usize) -> Frac
        requires place { place < self.now.tableau.columns }
        requires variable { variable < variables self.now }
        ensures { result ≡ at_basic (relaxation self.now) (table self.now) (λ i. (table self.now).entry i place) variable }
    {
        match self.tableau.find(variable) {
            Position::Row(row) => self.tableau.entry(row, place),
            Position::Place(_) => Frac::whole(0),
        }
    }

    /// The term of a variable in the reduced cost of a place, as whole numbers over the denominator, where its cost is small.
    #[inline]
    fn cost_term(&self, variable: usize, place: usize, denominator: i64) -> Option<WholeTerm>
        requires variable { variable < variables self.now }
        requires place { place < self.now.tableau.columns }
        requires positive { pos 0 <ℤ denominator }
        ensures term { IfSome result (λ t. IsWholeTerm denominator ((relaxation self.now).cost variable) (at_basic (relaxation self.now) (table self.now) (λ i. (table self.now).entry i place) variable) t.factor t.number) }
        ensures small { IfSome result (λ t. IsSmallNumber t.number) }
    {
        match self.tableau.find(variable) {
            Position::Row(row) => {
                let Some(number) = self.cost.small_of(variable) else {
                    return None;
                };
                if number == 0 {
                    return Some(WholeTerm {
                        factor: 0,
                        number: 0,
                    });
                }
                let Some(factor) = self.tableau.number_over(row, place, denominator) else {
                    return None;
                };
                Some(WholeTerm { factor, number })
            }
            Position::Place(_) => Some(WholeTerm {
                factor: 0,
                number: 0,
            }),
        }
    }

    /// The reduced cost of a place times the denominator, variable by variable.
    fn cost_by_variables(&self, place: usize, denominator: i64) -> Option<i128>
        requires place { place < self.now.tableau.columns }
        requires positive { pos 0 <ℤ denominator }
        requires denominator { IsShort denominator }
        ensures { IfSome result (λ total. IsCostTotal self.now place denominator total) }
    {
        let Some(start) = self.cost.small_of(self.tableau.nonbasic(place)) else {
            return None;
        };
        let _few = self.tableau.columns();
        let mut total = product(start, denominator);
        for variable in 0..self.cost.end() {
            match self.cost_term(variable, place, denominator) {
                None => return None,
                Some(term) => total = with_product(total, term.factor, term.number),
            }
        }
        Some(total)
    }

    /// The term of the basic variable of a row in the reduced cost of a place, as whole numbers over the denominator, where its
    /// cost is small.
    #[inline]
    fn row_term(&self, row: usize, place: usize, denominator: i64) -> Option<WholeTerm>
        requires row { row < self.now.tableau.activities }
        requires place { place < self.now.tableau.columns }
        requires positive { pos 0 <ℤ denominator }
        ensures term { IfSome result (λ t. IsWholeTerm denominator ((relaxation self.now).cost ((table self.now).basic row)) ((table self.now).entry row place) t.factor t.number) }
        ensures small { IfSome result (λ t. IsSmallNumber t.number) }
    {
        let Some(number) = self.cost.small_of(self.tableau.basic(row)) else {
            return None;
        };
        if number == 0 {
            return Some(WholeTerm {
                factor: 0,
                number: 0,
            });
        }
        let Some(factor) = self.tableau.number_over(row, place, denominator) else {
            return None;
        };
        Some(WholeTerm { factor, number })
    }

    /// The same, row by row.
    fn cost_by_rows(&self, place: usize, denominator: i64) -> Option<i128>
        requires place { place < self.now.tableau.columns }
        requires positive { pos 0 <ℤ denominator }
        requires denominator { IsShort denominator }
        ensures { IfSome result (λ total. IsCostTotal self.now place denominator total) }
    {
        let Some(start) = self.cost.small_of(self.tableau.nonbasic(place)) else {
            return None;
        };
        let _few = self.tableau.columns();
        let mut total = product(start, denominator);
        for row in 0..self.tableau.activities() {
            match self.row_term(row, place, denominator) {
                None => return None,
                Some(term) => total = with_product(total, term.factor, term.number),
            }
        }
        Some(total)
    }

    /// The reduced cost of a place times the denominator, where the costs are small whole numbers and the entries numbers over
    /// that: then each sum of its terms has room, in any order. It goes by rows where they are fewer than the variables up to the
    /// last that has a cost. None says nothing of the reduced cost.
    pub fn cost_total(&self, place: usize, denominator: i64) -> Option<i128>
        requires place { place < self.now.tableau.columns }
        requires positive { pos 0 <ℤ denominator }
        requires denominator { IsShort denominator }
        ensures { IfSome result (λ total. IsCostTotal self.now place denominator total) }
    {
        if self.tableau.activities() < self.cost.end() {
            self.cost_by_rows(place, denominator)
        } else {
            self.cost_by_variables(place, denominator)
        }
    }

    /// The step in which the term of a variable in the reduced cost of a place is added.
    fn cost_step(&self, place: usize, basic: usize) -> WideStep
        requires place { place < self.now.tableau.columns }
        requires basic { basic < variables self.now }
        ensures { IsFirstWideReducedCost self.now place basic → IsWideCost self.now place result }
    {
        let k = self.variable(self.nonbasic(place));
        let b = self.variable(basic);
        WideStep::Cost { k, b }
    }

    /// The reduced cost of a place, term by term, or the first of them that has no room.
    fn cost_by_terms(&self, place: usize) -> Result<Frac, WideStep>
        requires { place < self.now.tableau.columns }
        ensures { IsReducedCostAnswer self.now place result }
    {
        let variable = self.tableau.nonbasic(place);
        let end = self.cost.end();
        let terms = CostTerms {
            state: self,
            place,
            end,
        };
        match checked_sum(&self.cost_of(variable), &terms) {
            Ok(cost) => Ok(cost),
            Err(basic) => Err(self.cost_step(place, basic)),
        }
    }

    /// The reduced cost of a place, or the first of its terms, in the order of the variables, that has no room.
    pub(crate) fn reduced_cost(&self, place: usize) -> Result<Frac, WideStep>
        requires { place < self.now.tableau.columns }
        ensures { IsReducedCostAnswer self.now place result }
    {
        let denominator = self.tableau.denominator();
        if let Some(total) = self.cost_total(place, denominator) {
            return Ok(quotient(total, denominator));
        }
        self.cost_by_terms(place)
    }
}
