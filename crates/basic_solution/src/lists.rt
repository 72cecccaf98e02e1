// The lists that a state gives: its basis, the numbers of its point, its multipliers, and Farkas multipliers.
ghost use Rattle.std.specs.Prelude.{◌≡◌, ◌↔◌, ◌<◌, ◌≤◌, ◌+◌, ℕ, IfOk, IsTrue};
ghost use Rattle.frac128.specs.Rational.{ℚ};
ghost use Rattle.table_entries.specs.Relaxation.{multipliers};
ghost use Rattle.table_entries.specs.States.{farkas_weights};
ghost use Rattle.row_tableau.specs.Answers.{IsBasic};
ghost use Rattle.basic_solution.specs.Held.{relaxation, state, table, variables};
ghost use Rattle.basic_solution.specs.Lists.{StandsHigh, AreBasic, AreHigh, IsBasisOf, IsPointAnswer, AreListedMultipliers, AreMultipliersAnswer};
ghost use Rattle.basic_solution.specs.private.Lists.{AreMultipliersBelow};

use crate::listed_values::MOST_STANDING;
use crate::sided::SidedBasis;
use frac128::Frac;
use lp_model::{Basis, List, Mult, Point, Var, WideStep};
use row_tableau::Position;
use std::alloc::{AllocError, Global};
use table_entries::Stand;

impl SidedBasis<'_> {
    /// Whether a variable is basic.
    fn is_basic(&self, variable: usize) -> bool
        requires { variable < variables self.now }
        ensures { IsTrue result ↔ IsBasic self.now.tableau variable }
    {
        match self.find(variable) {
            Position::Row(_) => true,
            Position::Place(_) => false,
        }
    }

    /// Whether a variable is not basic and stands at its high side.
    pub fn stands_high(&self, variable: usize) -> bool
        requires { variable < variables self.now }
        ensures { IsTrue result ↔ StandsHigh self.now variable }
    {
        match self.tableau.find(variable) {
            Position::Row(_) => false,
            Position::Place(place) => match self.stand_of(place) {
                Stand::High => true,
                Stand::Low => false,
                Stand::Free => false,
            },
        }
    }

    /// The basic variables, rising.
    fn basic_variables(&self, alloc: Global) -> Result<List<Var>, AllocError>
        ensures { IfOk result (AreBasic self.now) }
    {
        let mut list = List::new(alloc);
        for variable in 0..self.variables() {
            if self.is_basic(variable) {
                match list.push(self.variable(variable)) {
                    Ok(()) => {}
                    Err(error) => {
                        drop(list);
                        return Err(error);
                    }
                }
            }
        }
        Ok(list)
    }

    /// The variables that are not basic and stand at their high sides, rising.
    fn high_variables(&self, alloc: Global) -> Result<List<Var>, AllocError>
        ensures { IfOk result (AreHigh self.now) }
    {
        let mut list = List::new(alloc);
        for variable in 0..self.variables() {
            if self.stands_high(variable) {
                match list.push(self.variable(variable)) {
                    Ok(()) => {}
                    Err(error) => {
                        drop(list);
                        return Err(error);
                    }
                }
            }
        }
        Ok(list)
    }

    /// The basis: its variables, and those of the others that stand at their high sides, each rising.
    pub fn basis_lists(&self, alloc: Global) -> Result<Basis, AllocError>
        ensures { IfOk result (IsBasisOf self.now) }
    {
        let basic = match self.basic_variables(alloc) {
            Ok(basic) => basic,
            Err(error) => return Err(error),
        };
        let high = match self.high_variables(alloc) {
            Ok(high) => high,
            Err(error) => {
                drop(basic);
                return Err(error);
            }
        };
        Ok(Basis { basic, high })
    }

    /// The numbers of the columns at the state's point, or the first step that has no room.
    pub fn point_list(&self, alloc: Global) -> Result<Result<Point, WideStep>, AllocError>
        ensures { IfOk result (IsPointAnswer self.now) }
    {
        let mut places = [0_usize; MOST_STANDING];
        let mut numbers = [0_i64; MOST_STANDING];
        let count = self.write_standing(&mut places, &mut numbers);
        let mut list = List::new(alloc);
        for column in 0..self.columns() {
            match self.listed_number(column, &places, &numbers, count) {
                Ok(number) => match list.push(number) {
                    Ok(()) => {}
                    Err(error) => {
                        drop(list);
                        return Err(error);
                    }
                },
                Err(step) => {
                    drop(list);
                    return Ok(Err(step));
                }
            }
        }
        Ok(Ok(list))
    }

    /// Appends the multiplier of an activity, where it is not 0, to those of the activities before it.
    fn add_multiplier(
        &self,
        variable: usize,
        number: Frac,
        list: &mut Mult,
    ) -> Result<(), AllocError>
        requires activity { self.now.tableau.columns ≤ variable }
        requires within { variable < variables self.now }
        ensures { IfOk result (λ _. (y : ℕ → ℚ) → number ≡ y variable → AreMultipliersBelow self.now y variable list.old → AreMultipliersBelow self.now y (variable + 1) list.new) }
    {
        if number.is_zero() {
            return Ok(());
        }
        list.push((self.variable(variable), number))
    }

    /// The multipliers of the activities that are not 0, rising, or the first step that has no room.
    pub fn multiplier_list(&self, alloc: Global) -> Result<Result<Mult, WideStep>, AllocError>
        ensures { IfOk result (AreMultipliersAnswer self.now (multipliers (relaxation self.now) (table self.now) (relaxation self.now).cost)) }
    {
        let columns = self.columns();
        let mut list = List::new(alloc);
        for variable in columns..self.variables() {
            let number = match self.multiplier_of(variable) {
                Ok(number) => number,
                Err(step) => {
                    drop(list);
                    return Ok(Err(step));
                }
            };
            match self.add_multiplier(variable, number, &mut list) {
                Ok(()) => {}
                Err(error) => {
                    drop(list);
                    return Err(error);
                }
            }
        }
        Ok(Ok(list))
    }

    /// The Farkas multipliers of the activities that are not 0, rising, by the row of a basic variable that is outside a
    /// side.
    pub fn farkas_list(&self, alloc: Global, row: usize, side: Stand) -> Result<Mult, AllocError>
        requires { row < self.now.tableau.activities }
        ensures { IfOk result (AreListedMultipliers self.now (farkas_weights (relaxation self.now) (state self.now) row side)) }
    {
        let columns = self.columns();
        let mut list = List::new(alloc);
        for variable in columns..self.variables() {
            let number = self.farkas_of(row, side, variable);
            match self.add_multiplier(variable, number, &mut list) {
                Ok(()) => {}
                Err(error) => {
                    drop(list);
                    return Err(error);
                }
            }
        }
        Ok(list)
    }
}
