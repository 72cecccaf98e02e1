// The top call.
ghost use Rattle.std.specs.Prelude.{◌≡◌, ◌≢◌, ◌<◌, ◌≤◌, ◌⊎◌, List, ℕ};
ghost use Rattle.std.specs.Io.KnownBytes.{Appends};
ghost use Rattle.sym_io.specs.Faults.{Rose};
ghost use Rattle.script_session.specs.Output.{WritesFront};
ghost use Rattle.script_session.specs.Run.{outside};
ghost use Rattle.program_words.specs.Forms.{Script, TakesWords, asked_form};
ghost use Rattle.program_words.specs.Laws.{IsRunForm, AsksScript, IsCheckForm, AsksCheck, IsBenchForm, AsksBench};
ghost use Rattle.sym_shell.specs.Run.{around, RunsAs, Untouched, usage};

use crate::shell::Shell;
use bench_replies::run_bench;
use command_files::run_check;
use program_words::{Form, WordsFault, form_of};
use script_session::{run_script, write_all};
use std::alloc::Global;
use sym_io::{Sink, Source, Store};

const USAGE: &[u8] = b"usage: symphony run | check MODEL CERT | bench SEED ROWS COLS NODES\n";

const STATUS_USAGE: u8 = 2;

pub(crate) const STATUS_MEMORY: u8 = 5;

/// Runs the script with a fresh shell, and answers its status.
fn run_commands<R: Source, W: Sink, S: Store>(
    alloc: Global,
    script: &mut R,
    out: &mut W,
    store: &mut S,
) -> u8
    ensures known { (result ≢ 2) × (result < 7) }
    ensures ran { RunsAs Script (around
        (outside (R.left script.old) (R.handed script.old) (R.faults script.old) (W.written out.old) (W.faults out.old))
        (outside (R.left script.new) (R.handed script.new) (R.faults script.new) (W.written out.new) (W.faults out.new))
        (S.files store.old) (S.files store.new) (S.faults store.old) (S.faults store.new)) result }
    ensures source_later { R.faults script.old ≤ R.faults script.new }
    ensures sink_later { W.faults out.old ≤ W.faults out.new }
    ensures store_later { S.faults store.old ≤ S.faults store.new }
{
    let mut shell = Shell::new(alloc);
    let status = run_script(alloc, &mut shell, script, out, store);
    shell.end();
    status
}

/// Writes the usage line, as far as the sink takes it, and answers the status. A sink that fails does not change it: what
/// was asked is wrong in any case.
fn write_usage<W: Sink>(out: &mut W) -> u8
    ensures status { result ≡ 2 }
    ensures line { Appends (W.written out.old) (W.written out.new) usage ⊎ (Rose (W.faults out.old) (W.faults out.new) × WritesFront (W.written out.old) (W.written out.new) usage) }
    ensures sink_later { W.faults out.old ≤ W.faults out.new }
{
    match write_all(out, USAGE) {
        Ok(()) => STATUS_USAGE,
        Err(_) => STATUS_USAGE,
    }
}

/// Runs the program with these words of the command line, the first of them its name: `run` answers the script's
/// commands on the sink, `check MODEL CERT` prints there whether a certificate is accepted for a model, and `bench SEED ROWS
/// COLS NODES` what a solve of the seed's model is answered. The status is
/// 0, or 1 where some command was refused or the certificate not accepted, 2 where the words are no form of the
/// command line, 3 where the source and 4 where the sink has failed, 5 where memory was wanting, and 6 where the script
/// is too long.
pub fn run<R: Source, W: Sink, S: Store>(
    alloc: Global,
    words: &[String],
    script: &mut R,
    out: &mut W,
    store: &mut S,
) -> u8
    ensures known { result < 7 }

    // Words that are refused: the whole usage line, or as much of it as a sink takes that fails; or nothing at all for want of
    // memory.
    ensures usage { result ≡ 2 → ¬ (TakesWords words.now) }
    ensures usage_only { ¬ (TakesWords words.now) → (result ≡ 2) ⊎ (result ≡ 5) }
    ensures usage_line { result ≡ 2 → Appends (W.written out.old) (W.written out.new) usage ⊎ (Rose (W.faults out.old) (W.faults out.new) × WritesFront (W.written out.old) (W.written out.new) usage) }
    ensures unwritten { ¬ (TakesWords words.now) → result ≡ 5 → W.written out.new ≡ W.written out.old }
    ensures untouched { ¬ (TakesWords words.now) → (R.left script.new ≡ R.left script.old) × (R.handed script.new ≡ R.handed script.old) × (R.faults script.new ≡ R.faults script.old)
        × (S.files store.new ≡ S.files store.old) × (S.faults store.new ≡ S.faults store.old) }

    // Which words ask for which form for sure: `run` alone, `check` with two words that begin with another byte than `-`, and `bench` with four
    // numbers in their ranges.
    ensures run_form { IsRunForm words.now → AsksScript words.now × (result ≢ 2) }
    ensures check_form { (model cert : List ℕ) → IsCheckForm words.now model cert → AsksCheck words.now model cert × (result ≢ 2) }
    ensures bench_form { (seed rows cols nodes : ℕ) → IsBenchForm words.now seed rows cols nodes → AsksBench words.now seed rows cols nodes × (result ≢ 2) }

    // Words that are taken: what they ask for is done, or nothing at all for want of memory to read them.
    ensures ran { TakesWords words.now → RunsAs (asked_form words.now) (around
        (outside (R.left script.old) (R.handed script.old) (R.faults script.old) (W.written out.old) (W.faults out.old))
        (outside (R.left script.new) (R.handed script.new) (R.faults script.new) (W.written out.new) (W.faults out.new))
        (S.files store.old) (S.files store.new) (S.faults store.old) (S.faults store.new)) result
        ⊎ ((result ≡ 5) × Untouched (around
        (outside (R.left script.old) (R.handed script.old) (R.faults script.old) (W.written out.old) (W.faults out.old))
        (outside (R.left script.new) (R.handed script.new) (R.faults script.new) (W.written out.new) (W.faults out.new))
        (S.files store.old) (S.files store.new) (S.faults store.old) (S.faults store.new))) }

    // No count of faults falls.
    ensures source_later { R.faults script.old ≤ R.faults script.new }
    ensures sink_later { W.faults out.old ≤ W.faults out.new }
    ensures store_later { S.faults store.old ≤ S.faults store.new }
{
    match form_of(alloc, words) {
        Ok(Form::Run) => run_commands(alloc, script, out, store),
        Ok(Form::Check { model, cert }) => run_check(alloc, model, cert, out, store),
        Ok(
            Form::Bench {
                seed,
                rows,
                cols,
                nodes,
            },
        ) => run_bench(alloc, seed, rows, cols, nodes, out),
        Err(WordsFault::Refused) => write_usage(out),
        Err(WordsFault::Memory) => STATUS_MEMORY,
    }
}
