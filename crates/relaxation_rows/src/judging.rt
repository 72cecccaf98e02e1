// What points and multipliers mean, computed anew.
ghost use Rattle.lp_model.specs.Regions.{AreNarrow};

use anyhow::{Result, ensure};
use frac128::Frac;
use leaf_dual::{LagValue, path_farkas, path_lag};
use lp_model::{Bound, Model, Mult, Point, Sense, WideStep};
use model_points::{activity, value};
use model_texts::{is_narrow_region, push_wide_step};
use row_tableau::Relax;

/// Whether a number is within two sides, where there are any.
fn is_within(low: &Bound, high: &Bound, number: &Frac) -> bool {
    let above = match low {
        Some(low) => *low <= *number,
        None => true,
    };
    let below = match high {
        Some(high) => *number <= *high,
        None => true,
    };
    above && below
}

/// Whether each column is within its bounds in the region.
fn columns_hold(relax: &Relax<'_>, point: &Point) -> bool
    requires { AreNarrow relax.now.region.now }
{
    for col in 0..relax.model.cols().len() {
        let Some(number) = point.as_slice().get(col) else {
            return false;
        };
        let low = relax.model.region_low(relax.region, col);
        let high = relax.model.region_high(relax.region, col);
        if !is_within(&low, &high, number) {
            return false;
        }
    }
    true
}

/// Whether each row is within its sides.
fn rows_hold(model: &Model, point: &Point) -> Result<bool, WideStep> {
    let mut place = 0u32;
    for row in model.rows() {
        let activity = match activity(model, place, point) {
            Ok(activity) => activity,
            Err(step) => return Err(step),
        };
        if !is_within(&row.lo, &row.hi, &activity) {
            return Ok(false);
        }
        place = place.saturating_add(1);
    }
    Ok(true)
}

/// Writes a line that says which step has no room.
fn push_wide(text: &mut String, model: &Model, what: &str, step: WideStep) -> Result<()> {
    write!(text, "{what} wide ")?;
    push_wide_step(text, model, step)?;
    text.push('\n')?;
    Ok(())
}

/// A value in least form.
pub fn least_form(sense: Sense, value: &Frac) -> Frac {
    match sense {
        Sense::Min => *value,
        Sense::Max => value.neg(),
    }
}

/// Writes a line where a point is outside a side.
pub fn judge_point(text: &mut String, relax: &Relax<'_>, point: &Point) -> Result<()> {
    ensure!(is_narrow_region(relax.region), "a region that is too wide");
    let columns = columns_hold(relax, point);
    match rows_hold(relax.model, point) {
        Err(step) => push_wide(text, relax.model, "the rows", step)?,
        Ok(rows) => {
            if !columns || !rows {
                text.push_str("the point is outside\n")?;
            }
        }
    }
    Ok(())
}

/// Writes the value of a point, or the step without room, and the end of the line. None: there is no value.
pub fn push_value(text: &mut String, model: &Model, point: &Point) -> Result<Option<Frac>> {
    match value(model, 1, point) {
        Ok(value) => {
            writeln!(text, " {value}")?;
            Ok(Some(value))
        }
        Err(step) => {
            push_wide(text, model, "", step)?;
            Ok(None)
        }
    }
}

/// Writes a line where a number of multipliers is not the one that is wanted.
fn judge_lag(text: &mut String, number: &LagValue, wanted: &Frac) -> Result<()> {
    match number {
        LagValue::Minus => text.push_str("the multipliers have no number\n")?,
        LagValue::Num(number) => {
            if *number != *wanted {
                writeln!(text, "the multipliers have the number {number}")?;
            }
        }
    }
    Ok(())
}

/// Writes a line where the number of multipliers is another one.
pub fn judge_multipliers(
    text: &mut String,
    relax: &Relax<'_>,
    mult: &Mult,
    value: &Frac,
) -> Result<()> {
    ensure!(is_narrow_region(relax.region), "a region that is too wide");
    let wanted = least_form(relax.model.sense(), value);
    let answer = path_lag(relax.model, &[], relax.region, mult.as_slice());
    match &answer {
        Err(step) => push_wide(text, relax.model, "the multipliers", *step),
        Ok(number) => judge_lag(text, number, &wanted),
    }
}

/// Writes a line where the number of Farkas multipliers is not above 0.
pub fn judge_farkas(text: &mut String, relax: &Relax<'_>, farkas: &Mult) -> Result<()> {
    ensure!(is_narrow_region(relax.region), "a region that is too wide");
    match path_farkas(relax.model, &[], relax.region, farkas.as_slice()) {
        Err(step) => push_wide(text, relax.model, "the Farkas multipliers", step)?,
        Ok(number) => {
            if !number.is_positive() {
                text.push_str("the Farkas multipliers have no number above 0\n")?;
            }
        }
    }
    Ok(())
}
