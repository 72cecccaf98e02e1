// Results of the work on a leaf, as a call says them, and how they are taken.
use crate::lists::{basis_in, multipliers_in, take_split};
use anyhow::{Result, bail, ensure};
use branch_tree::NodeResult;
use lp_model::{Model, Point};
use model_calls::{has_section, numbers_of, section};
use model_texts::{Words, point_of};
use std::alloc::Global;
use tree_edit::Taken;

/// The result of `keep`, `close` or `split COLUMN at V`, to the end, and of the line's sections.
pub fn whole_result(
    alloc: Global,
    model: &Model,
    words: &mut Words,
    line: &str,
) -> Result<NodeResult> {
    let done = result_of(alloc, model, words, line)?;
    if let Err(error) = words.end() {
        drop(done);
        return Err(error);
    }
    Ok(done)
}

/// The word for what was made of a result.
pub fn taken_word(taken: Taken) -> &'static str {
    match taken {
        Taken::Stale => "stale",
        Taken::Refused => "refused",
        Taken::Reopened => "reopened",
        Taken::Full => "full",
        Taken::Closed => "closed",
        Taken::Split => "split",
        Taken::Kept => "kept",
    }
}

fn result_of(alloc: Global, model: &Model, words: &mut Words, line: &str) -> Result<NodeResult> {
    let kind = words.next("result")?;
    match kind.as_str() {
        "keep" => kept(alloc, model, line),
        "close" => closed(alloc, model, line),
        "split" => split(alloc, model, words, line),
        _ => bail!("no result: `{kind}`"),
    }
}

/// Whether a point stands in a line.
fn has_point(line: &str) -> bool {
    has_section(line, "numbers") || has_section(line, "point")
}

/// The point of the section `numbers`, as they are, or of the section `point`, by names.
fn point_in(alloc: Global, model: &Model, line: &str) -> Result<Point> {
    if has_section(line, "numbers") {
        let mut words = section(alloc, line, "numbers")?;
        return numbers_of(alloc, &mut words);
    }
    let mut words = section(alloc, line, "point")?;
    point_of(alloc, model, &mut words)
}

fn kept(alloc: Global, model: &Model, line: &str) -> Result<NodeResult> {
    ensure!(
        !has_section(line, "multipliers") && !has_section(line, "farkas"),
        "multipliers with `keep`"
    );
    let basis = basis_in(alloc, model, line)?;
    let point = if has_point(line) {
        Some(point_in(alloc, model, line)?)
    } else {
        None
    };
    Ok(NodeResult::Keep { point, basis })
}

/// With a point, and multipliers where there are any.
fn closed_with_point(alloc: Global, model: &Model, line: &str) -> Result<NodeResult> {
    ensure!(!has_section(line, "farkas"), "`farkas` beside a point");
    let point = point_in(alloc, model, line)?;
    let mult = multipliers_in(alloc, model, line, "multipliers")?;
    let basis = basis_in(alloc, model, line)?;
    Ok(NodeResult::PointAndClose { point, mult, basis })
}

/// By multipliers alone, or with a point.
fn closed(alloc: Global, model: &Model, line: &str) -> Result<NodeResult> {
    if has_point(line) {
        return closed_with_point(alloc, model, line);
    }
    let mult = multipliers_in(alloc, model, line, "multipliers")?;
    let farkas = multipliers_in(alloc, model, line, "farkas")?;
    let basis = basis_in(alloc, model, line)?;
    Ok(NodeResult::Close {
        mult,
        farkas,
        basis,
    })
}

fn split(alloc: Global, model: &Model, words: &mut Words, line: &str) -> Result<NodeResult> {
    ensure!(!has_point(line), "a point with `split`");
    ensure!(!has_section(line, "farkas"), "`farkas` with `split`");
    let (col, v) = take_split(model, words)?;
    let mult = multipliers_in(alloc, model, line, "multipliers")?;
    let basis = basis_in(alloc, model, line)?;
    Ok(NodeResult::Split {
        col,
        v,
        mult,
        basis,
    })
}
