// Which basic variable leaves. Values are kept from one state to the next where sizes allow it, and else sums over the variables that stand at
// other numbers than 0, which are listed once a state. Columns and rows come before cuts; where none of them is outside a side, the values of the cuts are had by their terms.
ghost use Rattle.std.specs.Prelude.{◌≡◌, ◌<◌, ◌≤◌, Ok, IfSome};
ghost use Rattle.basic_solution.specs.Held.{variables};
ghost use Rattle.basic_solution.specs.Numbers.{IsRowBreach};
ghost use Rattle.basic_solution.specs.CutTotals.{AreColumnTotals};
ghost use Rattle.basic_solution.specs.KeptCosts.{AreKeptCosts};
ghost use Rattle.basic_solution.specs.KeptValues.{AreKeptValues};
ghost use Rattle.basic_solution.specs.Standing.{AreStanding};
ghost use Rattle.dual_simplex.specs.private.Answers.{AreInside, IsVisited, IsLeaving};
ghost use Rattle.dual_simplex.specs.private.SmallStandings.{AreSmallStanding};

use crate::entering::keep_costs;
use crate::state::LpState;
use basic_solution::{SidedBasis, are_all_small, is_short};
use lp_model::WideStep;
use row_tableau::Position;
use table_entries::Stand;

/// A table of more columns has no totals: values then go by rows. Models have at most 4,001 columns.
const MOST_TOTALS: usize = 4_096;

/// Where more variables stand at other numbers than 0, values go by all places.
const MOST_STANDING: usize = 512;

/// The row of a basic variable that is outside a side, and that side.
#[derive(Clone, Copy, Drop)]
pub struct Leaving {
    pub row: usize,
    pub side: Stand,
}

/// The variables that stand at other numbers than 0, where they are listed: their places and their numbers, how many they are, and
/// this once more where all of the numbers are small; and the values that are kept.
#[derive(Clone, Copy)]
struct Standing<'a> {
    count: Option<usize>,
    small: Option<usize>,
    places: &'a [usize],
    numbers: &'a [i64],
    kept: &'a [i64],
    kept_over: i64,
}

/// The side that the basic variable of a row is outside of, if any, by its value where that is kept. None says nothing of it.
fn kept_breach(state: &SidedBasis<'_>, row: usize, standing: &Standing<'_>) -> Option<Option<Stand>>
    requires row { row < state.now.tableau.activities }
    requires small { IfSome standing.now.small (λ n. AreSmallStanding state.now standing.now.places.now standing.now.numbers.now n) }
    requires kept { AreKeptValues state.now standing.now.kept_over standing.now.kept.now }
    ensures { IfSome result (λ side. IsRowBreach state.now row (Ok side)) }
{
    match standing.small {
        Some(count) => state.kept_breach(
            row,
            standing.kept_over,
            standing.places,
            standing.numbers,
            count,
            standing.kept,
        ),
        None => None,
    }
}

/// The side that the basic variable of a row is outside of, if any, by the variables that stand at other numbers than 0 where
/// they are listed.
fn listed_breach(
    state: &SidedBasis<'_>,
    row: usize,
    standing: &Standing<'_>,
) -> Result<Option<Stand>, WideStep>
    requires row { row < state.now.tableau.activities }
    requires standing { IfSome standing.now.count (λ n. AreStanding state.now standing.now.places.now standing.now.numbers.now n) }
    ensures { IsRowBreach state.now row result }
{
    match standing.count {
        Some(count) => state.standing_breach(row, standing.places, standing.numbers, count),
        None => state.row_breach(row),
    }
}

/// The side that the basic variable of a row is outside of, if any, by its value where that is kept, and else by the variables that
/// are listed.
fn row_breach(
    state: &SidedBasis<'_>,
    row: usize,
    standing: &Standing<'_>,
) -> Result<Option<Stand>, WideStep>
    requires row { row < state.now.tableau.activities }
    requires standing { IfSome standing.now.count (λ n. AreStanding state.now standing.now.places.now standing.now.numbers.now n) }
    requires small { IfSome standing.now.small (λ n. AreSmallStanding state.now standing.now.places.now standing.now.numbers.now n) }
    requires kept { AreKeptValues state.now standing.now.kept_over standing.now.kept.now }
    ensures { IsRowBreach state.now row result }
{
    match kept_breach(state, row, standing) {
        Some(side) => Ok(side),
        None => listed_breach(state, row, standing),
    }
}

/// The side that the basic variable of a row is outside of, if any, by the totals of the columns where there are such.
fn breach_of(
    state: &SidedBasis<'_>,
    row: usize,
    standing: &Standing<'_>,
    denominator: Option<i64>,
    totals: &[i64],
) -> Result<Option<Stand>, WideStep>
    requires row { row < state.now.tableau.activities }
    requires standing { IfSome standing.now.count (λ n. AreStanding state.now standing.now.places.now standing.now.numbers.now n) }
    requires small { IfSome standing.now.small (λ n. AreSmallStanding state.now standing.now.places.now standing.now.numbers.now n) }
    requires kept { AreKeptValues state.now standing.now.kept_over standing.now.kept.now }
    requires totals { IfSome denominator (λ d. AreColumnTotals state.now d totals.now) }
    ensures { IsRowBreach state.now row result }
{
    match denominator {
        Some(denominator) => state.cut_breach(row, denominator, totals),
        None => row_breach(state, row, standing),
    }
}

/// The row of a variable and the side that it is outside of, where it is basic and outside one.
fn visit(
    state: &SidedBasis<'_>,
    variable: usize,
    standing: &Standing<'_>,
    denominator: Option<i64>,
    totals: &[i64],
) -> Result<Option<Leaving>, WideStep>
    requires variable { variable < variables state.now }
    requires standing { IfSome standing.now.count (λ n. AreStanding state.now standing.now.places.now standing.now.numbers.now n) }
    requires small { IfSome standing.now.small (λ n. AreSmallStanding state.now standing.now.places.now standing.now.numbers.now n) }
    requires kept { AreKeptValues state.now standing.now.kept_over standing.now.kept.now }
    requires totals { IfSome denominator (λ d. AreColumnTotals state.now d totals.now) }
    ensures { IsVisited state.now variable result }
{
    let _sided = state.columns();
    let row = match state.find(variable) {
        Position::Place(_) => return Ok(None),
        Position::Row(row) => row,
    };
    match breach_of(state, row, standing, denominator, totals) {
        Err(step) => Err(step),
        Ok(None) => Ok(None),
        Ok(Some(side)) => Ok(Some(Leaving { row, side })),
    }
}

/// Writes the totals of the columns, where the cuts are so many that values by rows take longer.
fn write_totals(state: &SidedBasis<'_>, cuts: usize, totals: &mut [i64]) -> Option<i64>
    ensures { IfSome result (λ d. AreColumnTotals state.now d totals.new) }
{
    if state.columns() / 4 < cuts {
        state.write_totals(totals)
    } else {
        None
    }
}

/// The first basic cut that is outside a side, where no variable before the cuts is.
fn first_cut_out(
    state: &SidedBasis<'_>,
    start: usize,
    standing: &Standing<'_>,
) -> Result<Option<Leaving>, WideStep>
    requires start { start ≤ variables state.now }
    requires standing { IfSome standing.now.count (λ n. AreStanding state.now standing.now.places.now standing.now.numbers.now n) }
    requires small { IfSome standing.now.small (λ n. AreSmallStanding state.now standing.now.places.now standing.now.numbers.now n) }
    requires kept { AreKeptValues state.now standing.now.kept_over standing.now.kept.now }
    requires inside { AreInside state.now start }
    ensures { IsLeaving state.now result }
{
    let _sided = state.columns();
    let end = state.variables();
    if end <= start {
        return Ok(None);
    }
    let mut totals = [0_i64; MOST_TOTALS];
    let denominator = write_totals(state, end - start, &mut totals);
    for cut in start..end {
        match visit(state, cut, standing, denominator, &totals) {
            Err(step) => return Err(step),
            Ok(Some(leaving)) => return Ok(Some(leaving)),
            Ok(None) => {}
        }
    }
    Ok(None)
}

/// How many variables stand at other numbers than 0, where they are listed and each of their numbers is small.
fn small_count(
    state: &SidedBasis<'_>,
    count: Option<usize>,
    places: &[usize],
    numbers: &[i64],
) -> Option<usize>
    requires { IfSome count (λ n. AreStanding state.now places.now numbers.now n) }
    ensures { IfSome result (λ n. AreSmallStanding state.now places.now numbers.now n) }
{
    let Some(most) = count else {
        return None;
    };
    if !are_all_small(numbers, most) {
        return None;
    }
    Some(most)
}

/// Keeps the value of the basic variable of a row, where the variables stand at small numbers and it can be had over the denominator.
fn keep_row(
    state: &SidedBasis<'_>,
    row: usize,
    small: Option<usize>,
    places: &[usize],
    numbers: &[i64],
    denominator: i64,
    kept: &mut [i64],
)
    requires row { row < state.now.tableau.activities }
    requires standing { IfSome small (λ n. AreSmallStanding state.now places.now numbers.now n) }
    requires kept { AreKeptValues state.now denominator kept.old }
    ensures { AreKeptValues state.now denominator kept.new }
{
    let Some(count) = small else {
        return;
    };
    state.keep_value(row, denominator, places, numbers, count, kept);
}

/// Keeps the values of the rows before the first whose value is kept: of all rows in the first state of a walk, and else of few, as
/// values that are kept follow the exchanges.
fn keep_values(
    state: &SidedBasis<'_>,
    small: Option<usize>,
    places: &[usize],
    numbers: &[i64],
    denominator: i64,
    kept: &mut [i64],
)
    requires standing { IfSome small (λ n. AreSmallStanding state.now places.now numbers.now n) }
    requires kept { AreKeptValues state.now denominator kept.old }
    ensures { AreKeptValues state.now denominator kept.new }
{
    let Some(count) = small else {
        return;
    };
    for row in 0..kept.len() {
        if is_short(kept[row]) {
            return;
        }
        state.keep_value(row, denominator, places, numbers, count, kept);
    }
}

/// The first basic variable that is outside a side, by the variables that are listed and the values that are kept.
fn first_out(
    state: &SidedBasis<'_>,
    count: Option<usize>,
    small: Option<usize>,
    places: &[usize],
    numbers: &[i64],
    kept: &[i64],
    kept_over: i64,
) -> Result<Option<Leaving>, WideStep>
    requires standing { IfSome count (λ n. AreStanding state.now places.now numbers.now n) }
    requires small { IfSome small (λ n. AreSmallStanding state.now places.now numbers.now n) }
    requires kept { AreKeptValues state.now kept_over kept.now }
    ensures { IsLeaving state.now result }
{
    let _sided = state.columns();
    let first_cut = state.first_cut();
    let standing = Standing {
        count,
        small,
        places,
        numbers,
        kept,
        kept_over,
    };
    for variable in 0..first_cut {
        match visit(state, variable, &standing, None, &[]) {
            Err(step) => return Err(step),
            Ok(Some(leaving)) => return Ok(Some(leaving)),
            Ok(None) => {}
        }
    }
    first_cut_out(state, first_cut, &standing)
}

/// The first basic variable that is outside a side. The rows whose entries the values of basic variables are sums of are
/// written before, and its own behind; values are kept before, and the reduced costs of the places that may enter for it behind.
pub(crate) fn next_out(
    state: &mut SidedBasis<'_>,
    costs_over: i64,
    costs: &mut [i64],
    values_over: i64,
    values: &mut [i64],
) -> Result<Option<Leaving>, WideStep>
    requires costs { AreKeptCosts state.old costs_over costs.old }
    requires values { AreKeptValues state.old values_over values.old }
    ensures leaving { IsLeaving state.old result }
    ensures kept { state.new ≡ state.old }
    ensures costs { AreKeptCosts state.new costs_over costs.new }
    ensures values { AreKeptValues state.new values_over values.new }
{
    state.write_for_values();
    let mut places = [0_usize; MOST_STANDING];
    let mut numbers = [0_i64; MOST_STANDING];
    let count = state.write_standing(&mut places, &mut numbers);
    let small = small_count(state, count, &places, &numbers);
    keep_values(state, small, &places, &numbers, values_over, values);
    match first_out(state, count, small, &places, &numbers, values, values_over) {
        Err(step) => Err(step),
        Ok(None) => Ok(None),
        Ok(Some(leaving)) => {
            state.write_row(leaving.row);
            keep_row(
                state,
                leaving.row,
                small,
                &places,
                &numbers,
                values_over,
                values,
            );
            keep_costs(state, leaving.row, leaving.side, costs_over, costs);
            Ok(Some(leaving))
        }
    }
}

impl LpState<'_> {
    /// The first basic variable that is outside a side.
    pub(crate) fn leaving(&self) -> Result<Option<Leaving>, WideStep>
        ensures { IsLeaving self.now result }
    {
        let mut places = [0_usize; MOST_STANDING];
        let mut numbers = [0_i64; MOST_STANDING];
        let count = self.basis.write_standing(&mut places, &mut numbers);
        first_out(
            &self.basis,
            count,
            None,
            &places,
            &numbers,
            self.values.as_slice(),
            self.values_over,
        )
    }
}
