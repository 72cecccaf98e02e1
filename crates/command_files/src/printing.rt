// The printing of what `check` says, and the status that it gives.
ghost use Rattle.std.specs.Prelude.{◌≡◌, ◌<◌, ◌≤◌, ◌⊎◌};
ghost use Rattle.command_files.specs.Checking.{Checks, is_accepted, check_status, Prints};

use crate::checking::check_text;
use script_session::{is_memory_reply, write_all};
use std::alloc::Global;
use sym_io::{Sink, Store};

const STATUS_SINK: u8 = 4;

const STATUS_MEMORY: u8 = 5;

fn tells_accepted(reply: &[u8]) -> bool
    ensures { result ≡ is_accepted reply.now }
{
    reply.starts_with(b"accepted ")
}

/// The status after what `check` has printed.
fn status_of_check(reply: &[u8]) -> u8
    ensures { result ≡ check_status reply.now }
{
    if is_memory_reply(reply) {
        STATUS_MEMORY
    } else if tells_accepted(reply) {
        0
    } else {
        1
    }
}

/// Checks a certificate, prints what comes of it, and answers the status.
pub fn run_check<W: Sink, S: Store>(
    alloc: Global,
    model: &str,
    cert: &str,
    out: &mut W,
    store: &mut S,
) -> u8
    ensures known { (result < 2) ⊎ ((result ≡ 4) ⊎ (result ≡ 5)) }
    ensures printed { Prints (Checks (S.files store.old) model.now cert.now (S.faults store.old) (S.faults store.new)) check_status
        (W.written out.old) (W.written out.new) (W.faults out.old) (W.faults out.new) result }
    ensures files { S.files store.new ≡ S.files store.old }
    ensures sink_later { W.faults out.old ≤ W.faults out.new }
    ensures store_later { S.faults store.old ≤ S.faults store.new }
{
    let Ok(reply) = check_text(alloc, model, cert, store) else {
        return STATUS_MEMORY;
    };
    match write_all(out, &reply) {
        Ok(()) => status_of_check(&reply),
        Err(_) => STATUS_SINK,
    }
}
