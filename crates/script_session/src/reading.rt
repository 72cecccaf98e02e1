// A script, read piece by piece.
ghost use Rattle.std.specs.Prelude.{◌≤◌};
ghost use Rattle.script_session.specs.private.Causes.{SinkCause, SourceCause};
ghost use Rattle.script_session.specs.Request.{RequestStep};
ghost use Rattle.script_session.specs.private.Session.{moment_of, ServesScript};

use crate::machine::Machine;
use crate::session::{Flow, Session, Stop};
use sym_io::{Sink, Source, Store};

/// The most bytes that a script may have: 16 MiB.
pub const SCRIPT_LIMIT: usize = 16_777_216;

/// The most bytes that a line may have before its newline, a carriage return there counted: 4 KiB.
pub const LINE_LIMIT: usize = 4096;

/// The most bytes that one read takes.
pub const PIECE_LENGTH: usize = 4096;

impl Session {
    /// Answers each line of a script as soon as it is whole, up to its end or the first line that ends it.
    pub(crate) fn read_script<M: Machine, R: Source, W: Sink, S: Store>(
        &mut self,
        machine: &mut M,
        script: &mut R,
        out: &mut W,
        store: &mut S,
    ) -> Result<(), Stop>
        ensures served { ServesScript M.ends (RequestStep M.step) result (R.left script.old) (R.left script.new) (R.handed script.new)
            (moment_of self.old machine.old (W.written out.old) (S.files store.old) (S.faults store.old))
            (moment_of self.new machine.new (W.written out.new) (S.files store.new) (S.faults store.new)) }
        ensures source_cause { SourceCause result (R.faults script.old) (R.faults script.new) }
        ensures sink_cause { SinkCause result (W.faults out.old) (W.faults out.new) }
        ensures source_later { R.faults script.old ≤ R.faults script.new }
        ensures sink_later { W.faults out.old ≤ W.faults out.new }
        ensures store_later { S.faults store.old ≤ S.faults store.new }
    {
        let mut pending = Vec::new(self.alloc());
        let mut piece = [0u8; PIECE_LENGTH];
        let mut taken = 0;
        loop {
            let Ok(count) = script.read(&mut piece) else {
                return Err(Stop::Source);
            };
            if count == 0 {
                return self.serve_rest(machine, out, store, &pending);
            }
            let room = SCRIPT_LIMIT - taken;
            match self.feed(machine, out, store, &mut pending, &piece[..count.min(room)]) {
                Ok(Flow::Ended) => return Ok(()),
                Ok(Flow::Open) => {}
                Err(stop) => return Err(stop),
            }
            if count > room {
                return Err(Stop::TooLong);
            }
            taken += count;
        }
    }
}
