// The printing of what `bench` says, and the status that it gives.
ghost use Rattle.std.specs.Prelude.{◌≡◌, ◌<◌, ◌≤◌, ◌⊎◌};
ghost use Rattle.command_files.specs.Checking.{Prints};
ghost use Rattle.bench_replies.specs.Benches.{IsBenched, bench_status};

use crate::benching::bench_text;
use script_session::write_all;
use std::alloc::Global;
use sym_io::Sink;

const STATUS_SINK: u8 = 4;

const STATUS_MEMORY: u8 = 5;

/// Solves the model of a seed, prints what comes of it, and answers the status.
pub fn run_bench<W: Sink>(
    alloc: Global,
    seed: u64,
    rows: u64,
    cols: u64,
    nodes: u64,
    out: &mut W,
) -> u8
    ensures known { (result < 2) ⊎ ((result ≡ 4) ⊎ (result ≡ 5)) }
    ensures printed { Prints (IsBenched seed rows cols nodes) bench_status (W.written out.old) (W.written out.new) (W.faults out.old) (W.faults out.new) result }
    ensures sink_later { W.faults out.old ≤ W.faults out.new }
{
    let Ok(text) = bench_text(alloc, seed, rows, cols, nodes) else {
        return STATUS_MEMORY;
    };
    match write_all(out, &text) {
        Ok(()) => 0,
        Err(_) => STATUS_SINK,
    }
}
