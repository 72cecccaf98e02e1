// What the crates of cuts answer, as text.
use crate::derivations::{push_cut, push_derivations};
use anyhow::{Result, bail, ensure};
use cover_cuts::{CutPool, PoolFault, cut_row, valid};
use cut_find::separate;
use leaf_dual::{LagValue, farkas, lag};
use lp_model::{CutId, Derivation, Model, Mult, Region, WideStep};
use model_texts::{Words, is_narrow_region, multipliers_of, point_of, push_wide_step, region_of};
use row_texts::number_of;
use std::alloc::{AllocError, Global};

fn push_truth(text: &mut String, is_true: bool) -> Result<(), AllocError> {
    text.push_str(if is_true { "true" } else { "false" })
}

fn push_wide(text: &mut String, model: &Model, step: WideStep) -> Result<(), AllocError> {
    text.push_str("wide ")?;
    push_wide_step(text, model, step)
}

/// Whether a derivation derives: `true`, `false`, or `wide` and the first step without room.
pub fn push_validity(
    text: &mut String,
    model: &Model,
    from: &Derivation,
) -> Result<(), AllocError> {
    match valid(model, from) {
        Ok(derives) => push_truth(text, derives),
        Err(step) => push_wide(text, model, step),
    }
}

/// The cut of a derivation.
pub fn push_cut_of(
    alloc: Global,
    text: &mut String,
    model: &Model,
    from: &Derivation,
) -> Result<(), AllocError> {
    let cut = cut_row(alloc, model, from)?;
    push_cut(text, model, &cut)
}

/// Adds a cut to a pool: its place, or `full`.
pub fn push_added(
    text: &mut String,
    pool: &mut CutPool,
    model: &Model,
    from: Derivation,
) -> Result<()> {
    match pool.add(model, from) {
        Ok(cut) => write!(text, "{}", cut.0)?,
        Err(PoolFault::Full) => text.push_str("full")?,
        Err(PoolFault::Memory) => bail!("no memory"),
    }
    Ok(())
}

/// The place of a cut in a list of cuts.
fn cut_of(word: &str) -> Result<CutId> {
    let Ok(place) = word.parse::<u32>() else {
        bail!("no place of a cut: `{word}`");
    };
    Ok(CutId(place))
}

/// Whether the pool's cut at a place counts.
pub fn push_liveness(text: &mut String, pool: &CutPool, words: &str) -> Result<()> {
    let cut = cut_of(words)?;
    Ok(push_truth(text, pool.live(cut))?)
}

/// How many cuts a pool has, or its cut at a place.
pub fn push_kept(text: &mut String, pool: &CutPool, model: &Model, words: &str) -> Result<()> {
    let cuts = pool.rows();
    if words.is_empty() {
        write!(text, "{}", cuts.len())?;
        return Ok(());
    }
    match cuts.get(cut_of(words)?.0 as usize) {
        Some(cut) => push_cut(text, model, cut)?,
        None => text.push_str("none")?,
    }
    Ok(())
}

/// At most so many covers that a point violates, of `X 1 Y 2/3`.
fn found_at(alloc: Global, model: &Model, point: &str, most: usize) -> Result<Vec<Derivation>> {
    let mut words = Words::new(alloc, point)?;
    let point = point_of(alloc, model, &mut words)?;
    ensure!(point.as_slice().len() == model.cols().len(), "no point");
    Ok(separate(alloc, model, &point, most)?)
}

/// The covers that a point violates, of `MOST at X 1 Y 2/3`.
pub fn push_found(alloc: Global, text: &mut String, model: &Model, words: &str) -> Result<()> {
    let Some((most, point)) = words.split_once(" at") else {
        bail!("no `MOST at POINT`: {words}");
    };
    let Some(most) = number_of(most) else {
        bail!("no number: `{most}`");
    };
    let found = found_at(alloc, model, point, most as usize)?;
    Ok(push_derivations(text, model, &found)?)
}

fn push_number(
    text: &mut String,
    model: &Model,
    answer: &Result<LagValue, WideStep>,
) -> Result<(), AllocError> {
    match answer {
        Ok(LagValue::Minus) => text.push_str("minus"),
        Ok(LagValue::Num(number)) => write!(text, "{number}"),
        Err(step) => push_wide(text, model, *step),
    }
}

fn multipliers_in(alloc: Global, model: &Model, text: &str) -> Result<Mult> {
    let mut words = Words::new(alloc, text)?;
    multipliers_of(alloc, model, &mut words)
}

fn region_in(alloc: Global, model: &Model, text: &str) -> Result<Region> {
    let mut words = Words::new(alloc, text)?;
    region_of(alloc, model, &mut words)
}

/// The number of multipliers in a region with a pool's cuts.
fn push_number_in(
    text: &mut String,
    pool: &CutPool,
    model: &Model,
    is_costed: bool,
    mult: &Mult,
    region: &Region,
) -> Result<()> {
    ensure!(is_narrow_region(region.as_slice()), "no region");
    let cuts = pool.rows();
    let number = if is_costed {
        lag(model, cuts, region, mult)
    } else {
        farkas(model, cuts, region, mult)
    };
    Ok(push_number(text, model, &number)?)
}

/// The number of a leaf with a pool's cuts, of multipliers `A 1 cut#0 -1`, and behind `in` a region `X 0..0`.
pub fn push_leaf_number(
    alloc: Global,
    text: &mut String,
    pool: &CutPool,
    model: &Model,
    is_costed: bool,
    words: &str,
) -> Result<()> {
    let (mult, region) = words.split_once("in ").unwrap_or((words, ""));
    let mult = multipliers_in(alloc, model, mult)?;
    let region = region_in(alloc, model, region)?;
    push_number_in(text, pool, model, is_costed, &mult, &region)
}
