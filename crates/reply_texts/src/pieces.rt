// Pieces of replies: words and numbers.
ghost use Rattle.std.specs.Prelude.{◌≡◌, ◌++◌, codes, decimal, IfOk};

use std::alloc::AllocError;

/// One piece behind another.
pub(crate) fn write_two(reply: &mut Vec<u8>, first: &[u8], second: &[u8]) -> Result<(), AllocError>
    ensures { IfOk result (λ _. reply.new.items ≡ reply.old.items ++ (first.now ++ second.now)) }
{
    let Ok(()) = reply.extend_from_slice(first) else {
        return Err(AllocError);
    };
    reply.extend_from_slice(second)
}

/// A line of two pieces.
pub(crate) fn write_line(reply: &mut Vec<u8>, first: &[u8], second: &[u8]) -> Result<(), AllocError>
    ensures { IfOk result (λ _. reply.new.items ≡ reply.old.items ++ (first.now ++ second.now ++ codes "\n")) }
{
    let Ok(()) = write_two(reply, first, second) else {
        return Err(AllocError);
    };
    reply.extend_from_slice(b"\n")
}

/// A piece and a number in decimal digits.
pub(crate) fn write_count(reply: &mut Vec<u8>, first: &[u8], number: u64) -> Result<(), AllocError>
    ensures { IfOk result (λ _. reply.new.items ≡ reply.old.items ++ (first.now ++ decimal number)) }
{
    let mut digits = itoa::Buffer::new();
    write_two(reply, first, digits.format(number).as_bytes())
}

/// A line of a piece and a number in decimal digits.
pub(crate) fn write_count_line(
    reply: &mut Vec<u8>,
    first: &[u8],
    number: u64,
) -> Result<(), AllocError>
    ensures { IfOk result (λ _. reply.new.items ≡ reply.old.items ++ (first.now ++ decimal number ++ codes "\n")) }
{
    let mut digits = itoa::Buffer::new();
    write_line(reply, first, digits.format(number).as_bytes())
}
