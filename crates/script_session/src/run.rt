// The run of a script.
ghost use Rattle.std.specs.Prelude.{◌≢◌, ◌<◌, ◌≤◌};
ghost use Rattle.script_session.specs.Request.{RequestStep};
ghost use Rattle.script_session.specs.Run.{IsRun, outside};
ghost use Rattle.script_session.specs.Stand.{stand};

use crate::machine::Machine;
use crate::session::{Session, Stop};
use std::alloc::Global;
use sym_io::{Sink, Source, Store};

/// Runs the script's commands on the machine and writes the replies, up to the script's end or the first command that
/// ends it. A line of more than [`LINE_LIMIT`] bytes is refused by `error 01 line too long`, whatever it holds, and
/// changes nothing. The status tells how it went.
///
/// | Status | The run |
/// |---|---|
/// | 0 | came to its end, and nothing was refused |
/// | 1 | came to its end, and some reply begins with `error ` |
/// | 3 | stopped where the source failed |
/// | 4 | stopped where the sink failed |
/// | 5 | wanted memory: it came to its end, and some reply is `error 90 memory`; or it stopped before something that it had no memory for |
/// | 6 | stopped at a byte too many, before which no line had ended the script |
pub fn run_script<M: Machine, R: Source, W: Sink, S: Store>(
    alloc: Global,
    machine: &mut M,
    script: &mut R,
    out: &mut W,
    store: &mut S,
) -> u8
    ensures known { (result ≢ 2) × (result < 7) }
    ensures ran { IsRun (RequestStep M.step) M.ends
        (stand machine.old (S.files store.old) (S.faults store.old)) (outside (R.left script.old) (R.handed script.old) (R.faults script.old) (W.written out.old) (W.faults out.old))
        (stand machine.new (S.files store.new) (S.faults store.new)) (outside (R.left script.new) (R.handed script.new) (R.faults script.new) (W.written out.new) (W.faults out.new))
        result }
    ensures store_later { S.faults store.old ≤ S.faults store.new }
{
    let mut session = Session::new(alloc);
    match session.read_script(machine, script, out, store) {
        Ok(()) => session.status(),
        Err(Stop::Source) => 3,
        Err(Stop::Sink) => 4,
        Err(Stop::Memory) => 5,
        Err(Stop::TooLong) => 6,
    }
}
