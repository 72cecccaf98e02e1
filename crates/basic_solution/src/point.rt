// The point of a state: where the nonbasic variables stand, and the values of the basic ones.
ghost use Rattle.std.specs.Prelude.{◌≡◌, ◌<◌, ◌+◌, ◌<ℤ◌, ⊤, pos, get_or, IfSome};
ghost use Rattle.table_entries.specs.Steps.{at_nonbasic};
ghost use Rattle.table_entries.specs.Directions.{stand_number};
ghost use Rattle.whole_sums.specs.Wholes.{IsDenominator, IsWholeTerm};
ghost use Rattle.basic_solution.specs.Held.{relaxation, state, table, variables};

use crate::sided::SidedBasis;
use checked_sum::{Terms, checked_sum};
use frac128::Frac;
use lp_model::{Bound, WideStep};
use row_tableau::Position;
use table_entries::Stand;
use whole_sums::{WholeTerm, WholeTerms, quotient, whole_number, whole_sum};

/// The number at a side, 0 where there is none.
fn side_number(stand: Stand, low: &Bound, high: &Bound) -> Frac
    ensures { result ≡ stand_number stand low.now high.now }
{
    match (stand, low, high) {
        (Stand::Low, Some(number), _) => *number,
        (Stand::High, _, Some(number)) => *number,
        _ => Frac::whole(0),
    }
}

/// The terms of the value of a basic variable, by variable: entry times number of the nonbasic ones. As whole numbers they are
/// over the denominator.
#[derive(Drop)]
struct PointTerms<'a, 'b> {
    state: &'b SidedBasis<'a>,
    row: usize,
    denominator: i64,
    ghost within: { row < state.now.tableau.activities },
}

impl Terms for PointTerms<'_, '_> {
    ghost count = { λ t. variables t.state.now };

    ghost factor = { λ t v. at_nonbasic (relaxation t.state.now) (table t.state.now) ((table t.state.now).entry t.row) v };

    ghost number = { λ t v. at_nonbasic (relaxation t.state.now) (table t.state.now) (state t.state.now).at v };

    fn count(&self) -> usize {
        self.state.variables()
    }

    fn number(&self, index: usize) -> Frac {
        self.state.standing(index)
    }

    fn factor(&self, index: usize) -> Frac {
        self.state.entry_of(self.row, index)
    }
}

impl WholeTerms for PointTerms<'_, '_> {
    ghost count = { λ t. variables t.state.now };

    ghost factor = { λ t v. at_nonbasic (relaxation t.state.now) (table t.state.now) ((table t.state.now).entry t.row) v };

    ghost number = { λ t v. at_nonbasic (relaxation t.state.now) (table t.state.now) (state t.state.now).at v };

    ghost denominator = { λ t. t.denominator };

    ghost is_lawful = { λ t. IsDenominator t.denominator };

    ghost holds = { λ t v. ⊤ };

    fn count(&self) -> usize {
        self.state.variables()
    }

    fn term(&self, index: usize) -> Option<WholeTerm> {
        self.state.point_term(self.row, index, self.denominator)
    }
}

impl SidedBasis<'_> {
    ghost use Rattle.table_entries.specs.WholeSteps.{IsShort};
    ghost use Rattle.basic_solution.specs.Numbers.{IsFirstWideValue, IsWideBasicValue};
    ghost use Rattle.basic_solution.specs.private.Numbers.{IsBasicValueAnswer};

    /// The number at which the variable of a place stands.
    pub(crate) fn place_number(&self, place: usize) -> Frac
        requires { place < self.now.tableau.columns }
        ensures { result ≡ (state self.now).at place }
    {
        let variable = self.tableau.nonbasic(place);
        side_number(
            self.stands[place],
            &self.low[variable],
            &self.high[variable],
        )
    }

    /// The number at which a variable stands, 0 for a basic one.
    pub(crate) fn standing(&self, variable: usize) -> Frac
        requires { variable < variables self.now }
        ensures { result ≡ at_nonbasic (relaxation self.now) (table self.now) (state self.now).at variable }
    {
        match self.tableau.find(variable) {
            Position::Row(_) => Frac::whole(0),
            Position::Place(place) => self.place_number(place),
        }
    }

    /// The entry of a row at a variable, 0 for a basic one.
    pub(crate) fn entry_of(&self, row: usize, variable: usize) -> Frac
        requires row { row < self.now.tableau.activities }
        requires variable { variable < variables self.now }
        ensures { result ≡ at_nonbasic (relaxation self.now) (table self.now) ((table self.now).entry row) variable }
    {
        match self.tableau.find(variable) {
            Position::Row(_) => Frac::whole(0),
            Position::Place(place) => self.tableau.entry(row, place),
        }
    }

    /// The term of a variable in the value of the basic variable of a row, as whole numbers over the denominator.
    fn point_term(&self, row: usize, variable: usize, denominator: i64) -> Option<WholeTerm>
        requires row { row < self.now.tableau.activities }
        requires variable { variable < variables self.now }
        requires positive { pos 0 <ℤ denominator }
        ensures { IfSome result (λ t. IsWholeTerm denominator (at_nonbasic (relaxation self.now) (table self.now) ((table self.now).entry row) variable) (at_nonbasic (relaxation self.now) (table self.now) (state self.now).at variable) t.factor t.number) }
    {
        match self.tableau.find(variable) {
            Position::Row(_) => Some(WholeTerm {
                factor: 0,
                number: 0,
            }),
            Position::Place(place) => {
                let Some(number) = whole_number(&self.place_number(place)) else {
                    return None;
                };
                let Some(factor) = self.tableau.number_over(row, place, denominator) else {
                    return None;
                };
                Some(WholeTerm { factor, number })
            }
        }
    }

    /// The step in which the term of a variable in the value of the basic variable of a row is added.
    pub(crate) fn point_step(&self, row: usize, variable: usize) -> WideStep
        requires row { row < self.now.tableau.activities }
        requires variable { variable < variables self.now }
        ensures { IsFirstWideValue self.now row variable → IsWideBasicValue self.now row result }
    {
        let b = self.variable(self.basic(row));
        let k = self.variable(variable);
        WideStep::Point { b, k }
    }

    /// The value of the basic variable of a row, term by term, or the first of them that has no room.
    fn value_by_terms(&self, row: usize, denominator: i64) -> Result<Frac, WideStep>
        requires row { row < self.now.tableau.activities }
        requires positive { pos 0 <ℤ denominator }
        requires denominator { IsShort denominator }
        ensures { IsBasicValueAnswer self.now row result }
    {
        let _sided = &self.tableau;
        let terms = PointTerms {
            state: self,
            row,
            denominator,
        };
        if let Some(value) = whole_sum(0, denominator, &terms) {
            return Ok(value);
        }
        match checked_sum(&Frac::whole(0), &terms) {
            Ok(value) => Ok(value),
            Err(variable) => Err(self.point_step(row, variable)),
        }
    }

    /// The value of the basic variable of a row, or the first of its terms, in the order of the variables, that has no room.
    pub(crate) fn basic_value(&self, row: usize) -> Result<Frac, WideStep>
        requires { row < self.now.tableau.activities }
        ensures { IsBasicValueAnswer self.now row result }
    {
        let denominator = self.tableau.denominator();
        if let Some(total) = self.row_total(row, denominator) {
            return Ok(quotient(total, denominator));
        }
        self.value_by_terms(row, denominator)
    }
}
