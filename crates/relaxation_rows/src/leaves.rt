// The work on a leaf.
use crate::firsts::first_basis;
use crate::judging::{judge_farkas, judge_point, push_value};
use crate::regions::is_lawful_region;
use crate::steps::push_step;
use anyhow::{Result, bail, ensure};
use branch_tree::{Job, NodeResult};
use cover_cuts::CutPool;
use leaf_dual::{LagValue, lag};
use lp_model::{ColId, Model, Mult, Point, Var};
use model_texts::{is_narrow_region, push_multipliers, push_point, push_variable};
use node_solve::{Worked, work};
use row_tableau::{Relax, RelaxKind};
use std::alloc::Global;

/// Writes a number of multipliers, and the end of the line.
fn push_lag(text: &mut String, number: &LagValue) -> Result<()> {
    match number {
        LagValue::Num(number) => writeln!(text, " bound {number}")?,
        LagValue::Minus => text.push_str(" no bound\n")?,
    }
    Ok(())
}

/// Writes the number of multipliers in the leaf's region, and the end of the line.
fn push_bound(text: &mut String, model: &Model, job: &Job, mult: &Mult) -> Result<()> {
    ensure!(
        is_narrow_region(job.region.as_slice()),
        "a region that is too wide"
    );
    let answer = lag(model, &[], &job.region, mult);
    match &answer {
        Ok(number) => push_lag(text, number),
        Err(_) => {
            text.push_str(" wide bound\n")?;
            Ok(())
        }
    }
}

/// The relaxation of the leaf.
fn relax_of<'a>(model: &'a Model, job: &'a Job) -> Relax<'a> {
    Relax {
        model,
        cuts: &[],
        region: job.region.as_slice(),
        kind: RelaxKind::Plain,
    }
}

/// Writes the point that closes a leaf and its value, and judges it.
fn push_closing(text: &mut String, model: &Model, job: &Job, point: &Point) -> Result<()> {
    text.push_str("point")?;
    push_point(text, model, point)?;
    text.push_str(" value")?;
    let _value = push_value(text, model, point)?;
    judge_point(text, &relax_of(model, job), point)
}

/// Writes how a leaf is closed without a point, and judges Farkas multipliers.
fn push_close(
    text: &mut String,
    model: &Model,
    job: &Job,
    mult: &Mult,
    farkas: &Mult,
) -> Result<()> {
    text.push_str("close")?;
    if farkas.as_slice().is_empty() {
        return push_bound(text, model, job, mult);
    }
    text.push_str(" farkas")?;
    push_multipliers(text, model, farkas)?;
    text.push('\n')?;
    judge_farkas(text, &relax_of(model, job), farkas)
}

/// Writes where a leaf is split, and its number.
fn push_split(
    text: &mut String,
    model: &Model,
    job: &Job,
    col: ColId,
    v: i128,
    mult: &Mult,
) -> Result<()> {
    text.push_str("split ")?;
    push_variable(text, model, Var::Col(col))?;
    write!(text, " at {v}")?;
    push_bound(text, model, job, mult)
}

fn push_result(text: &mut String, model: &Model, job: &Job, placed: &NodeResult) -> Result<()> {
    match placed {
        NodeResult::PointAndClose { point, .. } => push_closing(text, model, job, point),
        NodeResult::Close { mult, farkas, .. } => push_close(text, model, job, mult, farkas),
        NodeResult::Keep { .. } => {
            text.push_str("keep\n")?;
            Ok(())
        }
        NodeResult::Split { col, v, mult, .. } => push_split(text, model, job, *col, *v, mult),
    }
}

fn push_worked(text: &mut String, model: &Model, job: &Job, worked: &Worked) -> Result<()> {
    match worked {
        Worked::Done(placed, _) => push_result(text, model, job, placed)?,
        Worked::Pivots { .. } => text.push_str("pivots\n")?,
        Worked::Wide(at, _) => push_step(text, model, at.step)?,
        Worked::Memory => bail!("no memory"),
    }
    Ok(())
}

/// Works a leaf without cuts, and writes what that came to.
pub fn work_on(
    alloc: Global,
    model: &Model,
    job: &Job,
    pivots: u64,
    text: &mut String,
) -> Result<()> {
    ensure!(
        is_lawful_region(model, job.region.as_slice()),
        "a region of a column that is not integer"
    );
    let Some(first) = first_basis(alloc, model)? else {
        text.push_str("no first basis\n")?;
        return Ok(());
    };
    if model.is_empty_region(job.region.as_slice()) {
        drop(first);
        text.push_str("empty region\n")?;
        return Ok(());
    }
    let pool = CutPool::new(alloc);
    let worked = work(alloc, model, &pool, job, &first, 0, pivots);
    drop(first);
    let pushed = push_worked(text, model, job, &worked);
    drop(worked);
    pushed
}
