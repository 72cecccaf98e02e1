// Reading to the end, where that is near enough.
ghost use Rattle.std.specs.Prelude.{◌<◌, ◌≤◌, ◌^◌, length, IfOk, IfSome};
ghost use Rattle.std.specs.Option.{option_map};
ghost use Rattle.sym_io.specs.private.Limited.{ReadsWithin};

use std::alloc::Global;
use std::io;
use std::io::Read;

/// All bytes of a reader, or none where they are more than the limit: of those no more than one past it are read.
///
/// # Errors
///
/// Those of the reader, and that there is no memory for the bytes.
pub(crate) fn read_limited<R: Read + Drop>(
    alloc: Global,
    reader: R,
    limit: usize,
) -> io::Result<Option<Vec<u8>>>
    requires { limit < 2 ^ 63 }
    ensures bound { IfOk result (λ answer. IfSome answer (λ v. length v.items ≤ limit)) }
    ensures read { IfOk result (λ answer. IfSome (R.remaining reader) (λ bytes. ReadsWithin limit bytes (option_map (λ v. v.items) answer))) }
{
    let mut bytes = Vec::new(alloc);
    reader.take(limit as u64 + 1).read_to_end(&mut bytes)?;
    if bytes.len() > limit {
        return Ok(None);
    }
    Ok(Some(bytes))
}
