// Answers in words.
use anyhow::Result;
use frac128::Frac;
use lp_model::{Basis, Model, Region, StopWhy};
use model_calls::push_step;
use model_texts::{push_basis, push_point};
use search_answers::Answer;

/// Writes a number, and `none` where there is none.
fn push_some(got: &mut String, number: &Option<Frac>) -> Result<()> {
    match number {
        Some(number) => write!(got, " {number}")?,
        None => got.push_str(" none")?,
    }
    Ok(())
}

/// Writes whether a place is of a leaf or of the ray phase, and the basis there.
fn push_place(got: &mut String, model: &Model, path: &Option<Region>, basis: &Basis) -> Result<()> {
    match path {
        Some(_) => got.push_str(" leaf")?,
        None => got.push_str(" ray")?,
    }
    got.push_str(" basis")?;
    push_basis(got, model, basis)?;
    Ok(())
}

fn push_why(got: &mut String, model: &Model, why: &StopWhy) -> Result<()> {
    match why {
        StopWhy::Nodes | StopWhy::Tree => Ok(()),
        StopWhy::Pivots(place) => push_place(got, model, &place.path, &place.basis),
        StopWhy::Wide(at) => {
            push_place(got, model, &at.path, &at.basis)?;
            got.push(' ')?;
            push_step(got, model, at.step)
        }
    }
}

fn cause(why: &StopWhy) -> &'static str {
    match why {
        StopWhy::Nodes => "nodes",
        StopWhy::Tree => "tree",
        StopWhy::Pivots(_) => "pivots",
        StopWhy::Wide(_) => "wide",
    }
}

/// Writes what is found of a model.
pub fn push_answer(got: &mut String, model: &Model, answer: &Answer) -> Result<()> {
    match answer {
        Answer::Optimal {
            value,
            point,
            results,
        } => {
            write!(got, "optimal {value} nodes {results} at")?;
            push_point(got, model, point)?;
        }
        Answer::Within {
            gap,
            value,
            point,
            results,
        } => {
            write!(got, "within {gap} {value} nodes {results} at")?;
            push_point(got, model, point)?;
        }
        Answer::Infeasible { results } => write!(got, "infeasible nodes {results}")?,
        Answer::Unbounded { results } => write!(got, "unbounded nodes {results}")?,
        Answer::Stopped {
            why,
            results,
            bound,
            best,
        } => {
            write!(got, "stopped {} {results} bound", cause(why))?;
            push_some(got, bound)?;
            got.push_str(" best")?;
            push_some(got, best)?;
            push_why(got, model, why)?;
        }
        Answer::Memory => got.push_str("no memory")?,
    }
    Ok(())
}
