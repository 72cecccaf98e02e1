//! The solver as a library, in one program: a model is read from a text, solved, asked what another side would bring, edited, gone on
//! with, and its answer certified. `docs/LIBRARY.md` tells each call.
//!
//! The environment (`kept_env`) keeps the model, its search and the answer between the calls, as the shell does between two commands of
//! a script. Nothing stands on this program.
#![tactic(auto)]

use anyhow::{Result, bail};
use cert_commands::held_certificate;
use dual_bounds::{LowerBound, OtherNumbers, has_equal_sides, lower_bound_with};
use frac128::Frac;
use kept_env::Env;
use lp_model::{Edit, List};
use mps_model::read;
use search_answers::Answer;
use std::alloc::Global;
use sym_env::{solve, warm_solve};
use tree_edit::Search;
use tree_search::Limits;

/// The knapsack of `examples/first`: the least value of -5 X - 4 Y - 3 Z, each 0 or 1.
const KNAPSACK: &str = "NAME K
ROWS
 N C
 L A
 L B
COLUMNS
 X C -5 A 2
 X B 3
 Y C -4 A 3
 Y B 4
 Z C -3 A 1
 Z B 2
RHS
 R A 5 B 8
BOUNDS
 BV S X
 BV S Y
 BV S Z
ENDATA
";

/// No limit but the one on the tree's nodes.
const LIMITS: Limits = Limits {
    nodes: u64::MAX,
    pivots: u64::MAX,
    tree: 1_000_000,
    workers: 1,
    seed: 0,
    gap: None,
};

/// Prints what was found, with the numbers of an optimum that are not 0.
fn tell(rt: &HostRuntime, env: &Env, answer: &Answer) -> Result<()> {
    let (Answer::Optimal { value, point, .. }, Some(model)) = (answer, env.model()) else {
        bail!("no optimum");
    };
    println!(rt; "optimal {value}")?;
    for (column, number) in model.cols().iter().zip(point.as_slice()) {
        if !number.is_zero() {
            let name = str::from_utf8(column.name.as_slice()).unwrap_or("?");
            println!(rt; "  {name} {number}")?;
        }
    }
    Ok(())
}

/// What the tree proves of the best value if the sides of a row become another number. Nothing is searched, and nothing changes.
fn bound_at(alloc: Global, search: &Search, name: &str, side: i64) -> Result<LowerBound> {
    let Some(place) = search.model().find_row(name.as_bytes()) else {
        bail!("no row");
    };
    let row = &search.model().rows()[place.0 as usize];
    if !has_equal_sides(&row.lo, &row.hi) {
        bail!("two sides that differ");
    }
    let sides = List::from_slice(alloc, &[(place, Frac::whole(side))])?;
    let numbers = OtherNumbers::Sides(sides);
    Ok(lower_bound_with(alloc, search, &numbers)?)
}

/// Prints that bound.
fn tell_bound(rt: &HostRuntime, env: &Env, name: &str, side: i64) -> Result<()> {
    let Some(search) = env.search() else {
        bail!("no model");
    };
    let bound = bound_at(rt.alloc(), search, name, side)?;
    match &bound {
        LowerBound::Value(number) => println!(rt; "if {name} becomes {side}: {number} or more")?,
        LowerBound::Infeasible => println!(rt; "if {name} becomes {side}: no point")?,
        LowerBound::NoValue | LowerBound::Wide { .. } => bail!("no bound"),
    }
    Ok(())
}

/// Reads a model from its text.
fn load_text(alloc: Global, env: &mut Env, text: &str) -> Result<()> {
    let model = read(alloc, text.as_bytes(), None)?;
    env.load(model)?;
    Ok(())
}

/// Gives a row another upper side.
fn edit_side(alloc: Global, env: &mut Env, name: &str, side: i64) -> Result<()> {
    let row = List::from_slice(alloc, name.as_bytes())?;
    env.edit(Edit::SetRow {
        row,
        lo: None,
        hi: Some(Some(Frac::whole(side))),
    })?;
    Ok(())
}

/// Prints the certificate of the answer that is held.
fn tell_certificate(rt: &HostRuntime, env: &Env) -> Result<()> {
    let text = held_certificate(rt.alloc(), env)?;
    print!(rt; "{}", str::from_utf8(&text).unwrap_or("?"))?;
    Ok(())
}

/// Searches from a fresh root.
fn tell_solved(rt: &HostRuntime, env: &mut Env) -> Result<()> {
    let answer = solve(rt.alloc(), env, &LIMITS)?;
    tell(rt, env, &answer)
}

/// Goes on with the search that is kept.
fn tell_warmed(rt: &HostRuntime, env: &mut Env) -> Result<()> {
    let answer = warm_solve(rt.alloc(), env, &LIMITS)?;
    tell(rt, env, &answer)
}

fn run(rt: &HostRuntime, env: &mut Env) -> Result<()> {
    load_text(rt.alloc(), env, KNAPSACK)?;
    tell_solved(rt, env)?;
    tell_bound(rt, env, "A", 4)?;
    edit_side(rt.alloc(), env, "A", 4)?;
    tell_warmed(rt, env)?;
    tell_certificate(rt, env)
}

fn main(rt: HostRuntime) -> Result<()> {
    let mut env = Env::new(rt.alloc());
    let done = run(&rt, &mut env);
    env.end();
    done
}
