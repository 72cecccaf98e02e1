// Searches driven to where they end or stop.
ghost use Rattle.std.specs.Prelude.{◌≡◌, ◌≤◌, replicate, None, IfOk};
ghost use Rattle.dual_simplex.specs.SlackBases.{IsLawfulSlackBasis};
ghost use Rattle.tree_search.specs.Search.{IsLeft};
ghost use Rattle.tree_search.specs.Within.{IsGapLimit};

use crate::searches::push_some;
use anyhow::{Result, bail};
use dual_simplex::slack_basis;
use frac128::Frac;
use lp_model::{Basis, Model, NODE_LIMIT, Region, StopWhy};
use model_calls::{push_step, take_number};
use model_texts::{Words, push_basis, push_point};
use ray_phase::root_law;
use search_answers::Answer;
use search_calls::push_region;
use std::alloc::{AllocError, Global};
use tree_edit::Search;
use tree_manager::Manager;
use tree_search::{Limits, Searched, Ways, answer_of, search_on};

/// The basis at which a leaf that keeps none begins.
fn first_basis(alloc: Global, model: &Model) -> Result<Basis>
    ensures { IfOk result (IsLawfulSlackBasis model.now) }
{
    match slack_basis(alloc, model)? {
        Some(basis) => Ok(basis),
        None => bail!("the slack basis is not lawful"),
    }
}

/// `N` and, if there is one, `pivots N`: how many results, and moves of each relaxation, are allowed. One worker searches.
fn limits_of(alloc: Global, line: &str) -> Result<Limits>
    ensures workers { IfOk result (λ limits. 1 ≤ limits.workers) }
    ensures gap { IfOk result (λ limits. IsGapLimit limits.gap) }
{
    let mut words = Words::new(alloc, line)?;
    let nodes = take_number(&mut words)?;
    let pivots = if words.takes("pivots") {
        take_number(&mut words)?
    } else {
        u64::MAX
    };
    words.end()?;
    Ok(Limits {
        nodes,
        pivots,
        tree: NODE_LIMIT,
        workers: 1,
        seed: 0,
        gap: None,
    })
}

/// Searches on through a manager of one worker. The search comes back.
fn search_through(alloc: Global, manager: Manager, limits: &Limits) -> (Search, Result<Searched>)
    requires idle { manager.held ≡ replicate limits.now.workers None }
    requires gap { IsGapLimit limits.now.gap }
    ensures { IfOk result.1 (λ searched. IsLeft result.0 searched.ended) }
{
    let first = match first_basis(alloc, manager.search().model()) {
        Ok(first) => first,
        Err(error) => return (manager.into_search(), Err(error)),
    };
    root_law();
    let (search, searched) = search_on(alloc, manager, &Ways::Own, &first, limits);
    drop(first);
    match searched {
        Ok(searched) => (search, Ok(searched)),
        Err(error) => (search, Err(error.into())),
    }
}

/// Searches on as the line says, and writes what that shows. The search comes back.
pub fn solve(alloc: Global, search: Search, line: &str, got: &mut String) -> (Search, Result<()>) {
    let limits = match limits_of(alloc, line) {
        Ok(limits) => limits,
        Err(error) => return (search, Err(error)),
    };
    let manager = match Manager::new(alloc, search, limits.workers as usize) {
        Ok(manager) => manager,
        Err(search) => return (search, Err(AllocError.into())),
    };
    let (search, searched) = search_through(alloc, manager, &limits);
    let told = match searched {
        Ok(searched) => tell(alloc, &search, searched, got),
        Err(error) => Err(error),
    };
    (search, told)
}

/// Writes what the end of a search shows.
fn tell(alloc: Global, search: &Search, searched: Searched, got: &mut String) -> Result<()>
    requires { IsLeft search.now searched.ended }
{
    let answer = answer_of(alloc, search, searched);
    let pushed = push_answer(got, search.model(), &answer);
    drop(answer);
    pushed
}

fn push_answer(got: &mut String, model: &Model, answer: &Answer) -> Result<()> {
    match answer {
        Answer::Optimal {
            value,
            point,
            results,
        } => {
            write!(got, "optimal {value} nodes {results} at")?;
            push_point(got, model, point)?;
        }
        Answer::Within {
            gap,
            value,
            point,
            results,
        } => {
            write!(got, "within {gap} {value} nodes {results} at")?;
            push_point(got, model, point)?;
        }
        Answer::Infeasible { results } => write!(got, "infeasible nodes {results}")?,
        Answer::Unbounded { results } => write!(got, "unbounded nodes {results}")?,
        Answer::Stopped {
            why,
            results,
            bound,
            best,
        } => {
            push_stop(got, model, why, *results)?;
            got.push_str(" bound")?;
            push_some(got, bound)?;
            got.push_str(" best")?;
            push_some(got, best)?;
        }
        Answer::Memory => got.push_str("no memory")?,
    }
    Ok(())
}

fn push_stop(got: &mut String, model: &Model, why: &StopWhy, results: u64) -> Result<()> {
    match why {
        StopWhy::Nodes => write!(got, "stopped nodes {results}")?,
        StopWhy::Tree => write!(got, "stopped tree {results}")?,
        StopWhy::Pivots(place) => {
            write!(got, "stopped pivots {results}")?;
            push_place(got, model, &place.path, &place.basis)?;
        }
        StopWhy::Wide(at) => {
            write!(got, "stopped ")?;
            push_step(got, model, at.step)?;
            write!(got, " {results}")?;
            push_place(got, model, &at.path, &at.basis)?;
        }
    }
    Ok(())
}

/// Writes the path of a leaf and a basis of its relaxation.
fn push_place(got: &mut String, model: &Model, path: &Option<Region>, basis: &Basis) -> Result<()> {
    got.push_str(" region")?;
    match path {
        None => got.push_str(" ray")?,
        Some(region) => push_region(got, model, region)?,
    }
    got.push_str(" basis")?;
    push_basis(got, model, basis)?;
    Ok(())
}
