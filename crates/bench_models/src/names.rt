// Names of rows and columns.
ghost use Rattle.std.specs.Prelude.{◌≡◌, ◌++◌, ◌+◌, ◌<◌, ◌^◌, decimal, IfOk};

use lp_model::{List, Name};
use std::alloc::{AllocError, Global};

/// A letter with a number behind it, which counts from 1.
pub(crate) fn name(alloc: Global, letter: &[u8], place: u64) -> Result<Name, AllocError>
    requires { place + 1 < 2 ^ 64 }
    ensures { IfOk result (λ name. name ≡ letter.now ++ decimal (place + 1)) }
{
    let mut bytes = Vec::from_slice(alloc, letter)?;
    let mut digits = itoa::Buffer::new();
    bytes.extend_from_slice(digits.format(place + 1).as_bytes())?;
    Ok(List::from_vec(bytes))
}
