// The model of a seed, solved.
ghost use Rattle.std.specs.Prelude.{◌≡◌, [], IfOk, OnOk};
ghost use Rattle.lp_model.specs.Program.{Program};
ghost use Rattle.kept_env.specs.Env.{Holds};
ghost use Rattle.bench_models.specs.BenchModels.{bench_program};
ghost use Rattle.bench_replies.specs.Benches.{IsBenchOf, IsBenched};

use crate::telling::write_lines;
use bench_models::bench_model;
use command_words::SearchOptions;
use kept_env::Env;
use search_replies::limits_of;
use std::alloc::{AllocError, Global};
use sym_env::solve;

/// Loads the model of the seed.
fn load_bench(
    alloc: Global,
    env: &mut Env,
    seed: u64,
    rows: u64,
    cols: u64,
) -> Result<(), AllocError>
    ensures { OnOk result (Holds (bench_program seed rows cols) env.new) }
{
    let Ok(model) = bench_model(alloc, seed, rows, cols) else {
        return Err(AllocError);
    };
    match env.load(model) {
        Ok(()) => Ok(()),
        Err(fault) => {
            drop(fault);
            Err(AllocError)
        }
    }
}

/// Solves the model that is loaded, and writes the lines.
fn solve_bench(
    alloc: Global,
    text: &mut Vec<u8>,
    env: &mut Env,
    rows: u64,
    cols: u64,
    nodes: u64,
) -> Result<(), AllocError>
    requires { text.old.items ≡ [] }
    ensures { (M : Program) → Holds M env.old → IfOk result (λ _. IsBenchOf M rows cols nodes text.new.items) }
{
    let options = SearchOptions {
        nodes,
        pivots: u64::MAX,
        workers: 1,
        seed: 0,
        gap: None,
    };
    let answer = solve(alloc, env, &limits_of(options));
    let told = write_lines(alloc, text, env, rows, cols, &answer);
    drop(answer);
    told
}

/// What `bench` prints: the size of the model, the first line of the reply to its solve with so many results at most, and whether its
/// certificate is accepted.
///
/// # Errors
///
/// Where there is no memory.
pub fn bench_text(
    alloc: Global,
    seed: u64,
    rows: u64,
    cols: u64,
    nodes: u64,
) -> Result<Vec<u8>, AllocError>
    ensures { IfOk result (λ text. IsBenched seed rows cols nodes text.items) }
{
    let mut env = Env::new(alloc);
    let Ok(()) = load_bench(alloc, &mut env, seed, rows, cols) else {
        env.end();
        return Err(AllocError);
    };
    let mut text = Vec::new(alloc);
    let told = solve_bench(alloc, &mut text, &mut env, rows, cols, nodes);
    env.end();
    match told {
        Ok(()) => Ok(text),
        Err(error) => {
            drop(text);
            Err(error)
        }
    }
}
