// Steps one after the other.
use crate::state::LpState;
use crate::step::Step;
use lp_model::WideStep;

/// Where the steps ended.
#[derive(Clone, Copy)]
pub enum Walk {
    /// Each basic variable is within its sides.
    Optimal,
    /// A basic variable is outside a side and none may enter for it.
    Infeasible,
    /// As many moves as the limit allows were made, and a basic variable is outside a side.
    Pivots,
}

impl LpState<'_> {
    ghost use Rattle.dual_simplex.specs.Walks.{IsWalkAnswer};

    /// Makes steps until the state is optimal or shows that there is no solution within the sides, as many moves as the
    /// limit allows, or up to a step of arithmetic without room.
    pub fn walk(&mut self, pivot_limit: u64) -> Result<Walk, WideStep>
        ensures { IsWalkAnswer self.old pivot_limit result self.new }
    {
        for _move in 0..pivot_limit {
            match self.step() {
                Err(step) => return Err(step),
                Ok(Step::Optimal) => return Ok(Walk::Optimal),
                Ok(Step::Infeasible) => return Ok(Walk::Infeasible),
                Ok(Step::Moved) => {}
            }
        }
        match self.next_leaving() {
            Err(step) => Err(step),
            Ok(None) => Ok(Walk::Optimal),
            Ok(Some(_)) => Ok(Walk::Pivots),
        }
    }
}
