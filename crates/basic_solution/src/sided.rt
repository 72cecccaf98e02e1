// A basis whose other variables stand at sides.
ghost use Rattle.std.specs.Prelude.{◌≡◌, ◌<◌, ◌≤◌, ◌+◌, ◌<ℤ◌, get_or, length, pos, IfSome};
ghost use Rattle.frac128.specs.LowestTerms.{quotient_of};
ghost use Rattle.table_entries.specs.declared.stand.Stand.TheVariants.{Free};
ghost use Rattle.row_tableau.specs.Answers.{IsPosition};
ghost use Rattle.row_tableau.specs.Dense.{HasFullLists};
ghost use Rattle.row_tableau.specs.Variables.{variable_number};
ghost use Rattle.table_entries.specs.WholeSteps.{IsShort};
ghost use Rattle.basic_solution.specs.Held.{IsSided, table, variables};
ghost use Rattle.basic_solution.specs.RowNumbers.{AreEntryNumbers};

use crate::priced::Costs;
use frac128::Frac;
use lp_model::{Bound, CutRow, Model, Var};
use row_tableau::{Position, Tableau};
use table_entries::Stand;

/// The table of a basis of a relaxation, and where its nonbasic variables stand, by place: lawful or not. Sides, costs and
/// tilts are by variable; `order` has the variables whose tilts are costs in a part of their own, in the order of the
/// parts.
#[derive(Drop)]
pub struct SidedBasis<'a> {
    pub(crate) model: &'a Model,
    pub(crate) cuts: &'a [CutRow],
    pub(crate) low: Vec<Bound>,
    pub(crate) high: Vec<Bound>,
    pub(crate) cost: Costs,
    pub(crate) tilt: Vec<Stand>,
    pub(crate) order: Vec<usize>,
    pub(crate) tableau: Tableau,
    pub(crate) stands: Vec<Stand>,
}

impl<'a> std::marker::Model for SidedBasis<'a> {
    ghost use Rattle.basic_solution.specs.Held.{Held, IsSided};

    ghost Value = { Held };

    ghost use Rattle.lp_model.specs.Formulations.{formulation};

    ghost view = { λ s. record { form = formulation s.model.now s.cuts.now; low = s.low.items; high = s.high.items; cost = s.cost; tilt = s.tilt.items; order = s.order.items; tableau = s.tableau; stands = s.stands.items } };

    ghost invariant = { λ s. IsSided (record { form = formulation s.model.now s.cuts.now; low = s.low.items; high = s.high.items; cost = s.cost; tilt = s.tilt.items; order = s.order.items; tableau = s.tableau; stands = s.stands.items }) };
}

impl SidedBasis<'_> {
    /// How many columns there are, which is how many places.
    pub fn columns(&self) -> usize
        ensures value { result ≡ self.now.tableau.columns }
        ensures sided { IsSided self.now }
        ensures full { HasFullLists self.now.tableau }
    {
        self.tableau.columns()
    }

    /// How many variables there are before the activities of cuts, which come last.
    pub fn first_cut(&self) -> usize
        ensures value { result ≡ self.now.tableau.columns + self.now.tableau.rows }
        ensures within { result ≤ variables self.now }
    {
        self.tableau.columns() + self.tableau.rows()
    }

    /// How many variables there are.
    pub fn variables(&self) -> usize
        ensures { result ≡ variables self.now }
    {
        self.tableau.columns() + self.tableau.activities()
    }

    /// The variable of a number.
    pub fn variable(&self, index: usize) -> Var
        requires { index < variables self.now }
        ensures { variable_number self.now.tableau result ≡ index }
    {
        self.tableau.variable(index)
    }

    /// Where a variable stands.
    pub fn find(&self, variable: usize) -> Position
        requires { variable < variables self.now }
        ensures { IsPosition self.now.tableau variable result }
    {
        self.tableau.find(variable)
    }

    /// The number of the basic variable of a row.
    pub fn basic(&self, row: usize) -> usize
        requires { row < self.now.tableau.activities }
        ensures value { result ≡ (table self.now).basic row }
        ensures within { result < variables self.now }
    {
        self.tableau.basic(row)
    }

    /// The number of the variable at a place.
    pub fn nonbasic(&self, place: usize) -> usize
        requires { place < self.now.tableau.columns }
        ensures value { result ≡ (table self.now).nonbasic place }
        ensures within { result < variables self.now }
    {
        self.tableau.nonbasic(place)
    }

    /// The entry of a row and a place.
    pub fn entry(&self, row: usize, place: usize) -> Frac
        requires row { row < self.now.tableau.activities }
        requires place { place < self.now.tableau.columns }
        ensures { result ≡ (table self.now).entry row place }
    {
        self.tableau.entry(row, place)
    }

    /// The common denominator of the entries where they are kept as whole numbers, and else 1.
    pub fn denominator(&self) -> i64
        ensures positive { pos 0 <ℤ result }
        ensures short { IsShort result }
    {
        self.tableau.denominator()
    }

    /// The entry of a row and a place, as a number over this denominator, if it is kept so.
    pub fn number_over(&self, row: usize, place: usize, denominator: i64) -> Option<i64>
        requires row { row < self.now.tableau.activities }
        requires place { place < self.now.tableau.columns }
        ensures short { IfSome result (λ n. IsShort n) }
        ensures value { IfSome result (λ n. (table self.now).entry row place ≡ quotient_of n denominator) }
    {
        self.tableau.number_over(row, place, denominator)
    }

    /// The numbers of the entries of a row over this denominator, by place, if the row is written and they are kept so.
    #[inline]
    pub fn row_over(&self, row: usize, denominator: i64) -> Option<&[i64]>
        requires { row < self.now.tableau.activities }
        ensures { IfSome result (λ r. AreEntryNumbers self.now row denominator r.now) }
    {
        match self.tableau.row_over(row, denominator) {
            Some(entries) => Some(entries),
            None => None,
        }
    }

    /// Where the variable of a place stands.
    pub fn stand_of(&self, place: usize) -> Stand
        requires { place < self.now.tableau.columns }
        ensures { result ≡ get_or self.now.stands place Free }
    {
        self.stands[place]
    }

    /// The variable whose tilt is a cost in the part of this turn behind the costs.
    pub fn tilted(&self, turn: usize) -> usize
        requires { turn < length self.now.order }
        ensures value { result ≡ get_or self.now.order turn 0 }
        ensures within { result < variables self.now }
    {
        self.order[turn]
    }
}
