// The ray phase.
use crate::judging::least_form;
use crate::steps::push_step;
use anyhow::{Result, bail};
use frac128::Frac;
use lp_model::{Basis, Bound, Model, Point};
use model_points::{activity, value};
use model_texts::{push_basis, push_point};
use ray_phase::{RayAnswer, ray};
use std::alloc::Global;

/// Whether a number may go on for ever beside these sides.
fn goes_on(low: &Bound, high: &Bound, number: &Frac) -> bool {
    !(low.is_some() && number.is_negative()) && !(high.is_some() && number.is_positive())
}

/// Whether no column passes a bound along a direction, and each integer one stands still.
fn columns_go_on(model: &Model, direction: &Point) -> bool {
    for (place, col) in model.cols().iter().enumerate() {
        let Some(number) = direction.as_slice().get(place) else {
            return false;
        };
        if !goes_on(&col.lo, &col.up, number) || col.int && !number.is_zero() {
            return false;
        }
    }
    true
}

/// Whether no row passes a side along a direction.
fn rows_go_on(model: &Model, direction: &Point) -> bool {
    let mut place = 0u32;
    for row in model.rows() {
        match activity(model, place, direction) {
            Ok(activity) if goes_on(&row.lo, &row.hi, &activity) => {}
            _ => return false,
        }
        place = place.saturating_add(1);
    }
    true
}

/// Whether objective 1 improves along a direction: its value there, without the constant, is below 0 in least form.
fn improves(model: &Model, direction: &Point) -> bool {
    let Ok(value) = value(model, 1, direction) else {
        return false;
    };
    match value.sub(model.constant(1)) {
        Ok(cost) => least_form(model.sense(), &cost).is_negative(),
        Err(_) => false,
    }
}

/// Writes a ray, and a line where it is none.
fn push_ray(text: &mut String, model: &Model, direction: &Point) -> Result<()> {
    text.push_str("ray")?;
    push_point(text, model, direction)?;
    text.push('\n')?;
    let goes = columns_go_on(model, direction) && rows_go_on(model, direction);
    if !goes || !improves(model, direction) {
        text.push_str("this is no ray\n")?;
    }
    Ok(())
}

/// Writes the basis that the ray phase ended at, where there is no ray.
fn push_dual_basis(text: &mut String, model: &Model, basis: &Basis) -> Result<()> {
    text.push_str("basis")?;
    push_basis(text, model, basis)?;
    text.push('\n')?;
    Ok(())
}

fn push_answer(text: &mut String, model: &Model, answer: &RayAnswer) -> Result<()> {
    match answer {
        RayAnswer::Ray(direction) => push_ray(text, model, direction)?,
        RayAnswer::DualBasis(basis) => push_dual_basis(text, model, basis)?,
        RayAnswer::Pivots { .. } => text.push_str("pivots\n")?,
        RayAnswer::Wide(at) => push_step(text, model, at.step)?,
        RayAnswer::Memory => bail!("no memory"),
    }
    Ok(())
}

/// Looks for a ray, and writes what was found.
pub fn ray_of(alloc: Global, model: &Model, limit: u64, text: &mut String) -> Result<()> {
    let answer = ray(alloc, model, limit);
    let pushed = push_answer(text, model, &answer);
    drop(answer);
    pushed
}
