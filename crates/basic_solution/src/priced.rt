// Costs by variable.
ghost use Rattle.std.specs.Prelude.{◌≡◌, ◌<◌, ◌≤◌, length, get_or, pos, IsTrue, IfSome};
ghost use Rattle.frac128.specs.Rational.{int};
ghost use Rattle.basic_solution.specs.RowTotals.{IsSmallNumber, AreSmallNumbers, AreFreeFrom};

use crate::row_totals::small_number;
use frac128::Frac;

/// How many fractions there are up to the last one that is not 0.
fn priced(list: &[Frac]) -> usize
    ensures within { result ≤ length list.now }
    ensures free { AreFreeFrom list.now result }
{
    let mut end = list.len();
    while end > 0 {
        let last = end - 1;
        if !list[last].is_zero() {
            return end;
        }
        end = last;
    }
    0
}

/// Whether all of the fractions are small whole numbers.
fn are_small(fractions: &[Frac]) -> bool
    ensures { IsTrue result → AreSmallNumbers fractions.now }
{
    for at in 0..fractions.len() {
        match small_number(&fractions[at]) {
            Some(_number) => {}
            None => return false,
        }
    }
    true
}

/// The costs by variable, and how many variables there are up to the last one that has a cost: activities have none, so a sum
/// over the costs need not go over rows and cuts. Whether all are small whole numbers is told once, since each reduced cost asks.
#[derive(Drop)]
pub struct Costs {
    list: Vec<Frac>,
    end: usize,
    is_small: bool,
}

impl std::marker::Model for Costs {
    ghost use Rattle.std.specs.Prelude.{◌≤◌, List, length, IsTrue};
    ghost use Rattle.frac128.specs.Rational.{ℚ};
    ghost use Rattle.basic_solution.specs.RowTotals.{AreFreeFrom, AreSmallNumbers};

    ghost Value = { List ℚ };

    ghost view = { λ c. c.list.items };

    ghost invariant = { λ c. (c.end ≤ length c.list.items) × (AreFreeFrom c.list.items c.end × (IsTrue c.is_small → AreSmallNumbers c.list.items)) };
}

impl Costs {
    /// The costs of a list.
    pub(crate) fn new(list: Vec<Frac>) -> Costs
        ensures { result ≡ list.items }
    {
        let end = priced(&list);
        let is_small = are_small(&list);
        Costs {
            list,
            end,
            is_small,
        }
    }

    /// The cost of a variable.
    pub(crate) fn of(&self, variable: usize) -> Frac
        requires { variable < length self.now }
        ensures { result ≡ get_or self.now variable (int (pos 0)) }
    {
        self.list[variable]
    }

    /// How many variables there are up to the last one that has a cost.
    pub(crate) fn end(&self) -> usize
        ensures within { result ≤ length self.now }
        ensures free { AreFreeFrom self.now result }
    {
        self.end
    }

    /// Whether all costs are small whole numbers.
    pub(crate) fn are_small(&self) -> bool
        ensures { IsTrue result → AreSmallNumbers self.now }
    {
        self.is_small
    }

    /// The number that the cost of a variable is, where all costs are small whole numbers.
    #[inline]
    pub(crate) fn small_of(&self, variable: usize) -> Option<i64>
        requires { variable < length self.now }
        ensures small { IfSome result (λ n. IsSmallNumber n) }
        ensures value { IfSome result (λ n. get_or self.now variable (int (pos 0)) ≡ int n) }
    {
        if !self.is_small {
            return None;
        }
        let cost = self.of(variable);
        Some(cost.numerator() as i64)
    }
}
