// The names of a line as places of rows or columns.
ghost use Rattle.std.specs.Prelude.{◌≡◌, ◌≤◌, ◌<◌, ◌^◌, ◌++◌, ℕ, map, length, All, IfOk};
ghost use Rattle.frac128.specs.Rational.{ℚ};
ghost use Rattle.lp_model.specs.declared.types.RowId.{RowId as RowPlace};
ghost use Rattle.command_words.specs.declared.words.NewNumbers.TheVariants.{Sides, Costs};
ghost use Rattle.shell_replies.specs.Placing.{AreNumbersPlaced, IsOnLine, unplaced_text};
ghost use Rattle.shell_replies.specs.private.Placing.{IsPlacedIn, IsFirstTwoSidedAt};

use command_words::NewNumbers;
use dual_bounds::{OtherNumbers, has_equal_sides};
use frac128::Frac;
use lp_model::{ColId, HasName, List, Model, Name, Row, RowId, place_of};
use reply_texts::{MEMORY_REPLY, write_sides, write_unknown_name};
use std::alloc::{AllocError, Global};

/// Why the names of a line are no places.
#[derive(Clone, Copy, Drop)]
pub enum Unplaced {
    /// The name that stands at this place of the line, from 0, is the first that isn't there.
    Unknown(usize),
    /// The row of this name is the first that has two sides which differ.
    TwoSided(usize),
    /// There was no memory.
    Memory,
}

/// The place of a row or of a column, from 0.
pub(crate) trait Place: Copy {
    ghost at_place: { ℕ → Self };

    fn at_place(place: u32) -> Self
        ensures { result ≡ at_place place };
}

impl Place for RowId {
    ghost use Rattle.shell_replies.specs.Names.{row_id_at};

    ghost at_place = { row_id_at };

    fn at_place(place: u32) -> Self {
        RowId(place)
    }
}

impl Place for ColId {
    ghost use Rattle.shell_replies.specs.Names.{col_id_at};

    ghost at_place = { col_id_at };

    fn at_place(place: u32) -> Self {
        ColId(place)
    }
}

/// The place of each name among the items, with its number.
fn placed<T: HasName, P: Place>(
    alloc: Global,
    items: &[T],
    named: &[(Name, Frac)],
) -> Result<List<(P, Frac)>, Unplaced>
    requires { length items.now ≤ 2 ^ 32 }
    ensures { IsPlacedIn P.at_place (map T.name items.now) named.now result }
{
    let mut places = List::new(alloc);
    for (index, (name, number)) in named.iter().enumerate() {
        let Some(place) = place_of(items, name.as_slice()) else {
            drop(places);
            return Err(Unplaced::Unknown(index));
        };
        let Ok(()) = places.push((P::at_place(place as u32), *number)) else {
            drop(places);
            return Err(Unplaced::Memory);
        };
    }
    Ok(places)
}

/// The first of the rows that has two sides which differ.
fn first_two_sided(rows: &[Row], sides: &[(RowId, Frac)]) -> Option<usize>
    requires { All (λ (e : RowPlace × ℚ). e.0.0 < length rows.now) sides.now }
    ensures { IsFirstTwoSidedAt rows.now sides.now result }
{
    for (index, (place, _)) in sides.iter().enumerate() {
        let row = &rows[place.0 as usize];
        if !has_equal_sides(&row.lo, &row.hi) {
            return Some(index);
        }
    }
    None
}

/// The named rows, for whose sides the numbers may stand.
fn placed_sides(
    alloc: Global,
    model: &Model,
    named: &[(Name, Frac)],
) -> Result<OtherNumbers, Unplaced>
    ensures { AreNumbersPlaced Sides model.now named.now result }
{
    let sides: List<(RowId, Frac)> = match placed(alloc, model.rows(), named) {
        Ok(sides) => sides,
        Err(unplaced) => return Err(unplaced),
    };
    match first_two_sided(model.rows(), sides.as_slice()) {
        Some(place) => {
            drop(sides);
            Err(Unplaced::TwoSided(place))
        }
        None => Ok(OtherNumbers::Sides(sides)),
    }
}

/// The named columns with their costs.
fn placed_costs(
    alloc: Global,
    model: &Model,
    named: &[(Name, Frac)],
) -> Result<OtherNumbers, Unplaced>
    ensures { AreNumbersPlaced Costs model.now named.now result }
{
    let costs: List<(ColId, Frac)> = match placed(alloc, model.cols(), named) {
        Ok(costs) => costs,
        Err(unplaced) => return Err(unplaced),
    };
    Ok(OtherNumbers::Costs(costs))
}

/// The named rows, for whose sides the numbers may stand, or the named columns with their costs.
pub fn placed_numbers(
    alloc: Global,
    model: &Model,
    numbers: NewNumbers,
    named: &[(Name, Frac)],
) -> Result<OtherNumbers, Unplaced>
    ensures { AreNumbersPlaced numbers model.now named.now result }
{
    match numbers {
        NewNumbers::Sides => placed_sides(alloc, model, named),
        NewNumbers::Costs => placed_costs(alloc, model, named),
    }
}

/// Which name is no place, and why.
pub fn write_unplaced(
    reply: &mut Vec<u8>,
    named: &[(Name, Frac)],
    unplaced: Unplaced,
) -> Result<(), AllocError>
    requires { IsOnLine named.now unplaced }
    ensures { IfOk result (λ _. reply.new.items ≡ reply.old.items ++ unplaced_text named.now unplaced) }
{
    match unplaced {
        Unplaced::Unknown(place) => write_unknown_name(reply, named[place].0.as_slice()),
        Unplaced::TwoSided(place) => write_sides(reply, named[place].0.as_slice()),
        Unplaced::Memory => reply.extend_from_slice(MEMORY_REPLY),
    }
}
