// Writing to a sink.
ghost use Rattle.std.specs.Prelude.{◌≤◌, OnOk, OnErr};
ghost use Rattle.std.specs.Io.KnownBytes.{Appends};
ghost use Rattle.sym_io.specs.Faults.{Rose};
ghost use Rattle.script_session.specs.Output.{WritesFront};

use sym_io::{Failed, Sink};

/// Writes all of the bytes. A failure leaves a front of them written, and not all.
pub fn write_all<W: Sink>(out: &mut W, bytes: &[u8]) -> Result<(), Failed>
    ensures ok { OnOk result (Appends (W.written out.old) (W.written out.new) bytes.now) }
    ensures err { OnErr result (WritesFront (W.written out.old) (W.written out.new) bytes.now) }
    ensures failed { OnErr result (Rose (W.faults out.old) (W.faults out.new)) }
    ensures later { W.faults out.old ≤ W.faults out.new }
{
    let mut rest = bytes;
    while !rest.is_empty() {
        let Ok(count) = out.write(rest) else {
            return Err(Failed);
        };
        if count == 0 {
            return Err(Failed);
        }
        rest = &rest[count..];
    }
    Ok(())
}
