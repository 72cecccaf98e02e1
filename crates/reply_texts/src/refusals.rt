// The bytes of the refusals.
ghost use Rattle.std.specs.Prelude.{◌≡◌, ◌++◌, codes, decimal, IfOk};
ghost use Rattle.reply_texts.specs.Texts.{unknown_text, unknown_name_text, taken_text, limit_text, bounds_text, sides_text, not_whole_word, not_whole_text, number_text, mps_text, warm_text, cert_fault_text};

use crate::names::column_name;
use crate::pieces::{write_count_line, write_line, write_two};
use lp_model::{ColId, Model};
use std::alloc::AllocError;

/// The line of a text's first fault: its place behind a piece, and its code.
fn write_fault(reply: &mut Vec<u8>, first: &[u8], place: &[u8], code: u8) -> Result<(), AllocError>
    ensures { IfOk result (λ _. reply.new.items ≡ reply.old.items ++ (first.now ++ place.now ++ codes " code " ++ decimal code ++ codes "\n")) }
{
    let mut digits = itoa::Buffer::new();
    let Ok(()) = write_two(reply, first, place) else {
        return Err(AllocError);
    };
    write_line(reply, b" code ", digits.format(code).as_bytes())
}

/// The first word is no command.
pub fn write_unknown(reply: &mut Vec<u8>, word: &[u8]) -> Result<(), AllocError>
    ensures { IfOk result (λ _. reply.new.items ≡ reply.old.items ++ unknown_text word.now) }
{
    write_line(reply, b"error 02 unknown command ", word)
}

/// A word stands in a number's place and is none.
pub fn write_no_number(reply: &mut Vec<u8>, word: &[u8]) -> Result<(), AllocError>
    ensures { IfOk result (λ _. reply.new.items ≡ reply.old.items ++ number_text word.now) }
{
    write_line(reply, b"error 07 number ", word)
}

/// The first faulty line of a model's text, and the least code of its faults.
pub fn write_faulty_model(reply: &mut Vec<u8>, line: u64, code: u8) -> Result<(), AllocError>
    ensures { IfOk result (λ _. reply.new.items ≡ reply.old.items ++ mps_text line code) }
{
    let mut digits = itoa::Buffer::new();
    write_fault(
        reply,
        b"error 30 mps line ",
        digits.format(line).as_bytes(),
        code,
    )
}

/// The place of the first fault of a text that states no search, and the fault's code.
pub fn write_faulty_search(reply: &mut Vec<u8>, place: &[u8], code: u8) -> Result<(), AllocError>
    ensures { IfOk result (λ _. reply.new.items ≡ reply.old.items ++ warm_text place.now code) }
{
    write_fault(reply, b"error 31 warm place ", place, code)
}

/// The first faulty line of a certificate's text, and the least code of its faults.
pub fn write_faulty_certificate(reply: &mut Vec<u8>, line: u64, code: u8) -> Result<(), AllocError>
    ensures { IfOk result (λ _. reply.new.items ≡ reply.old.items ++ cert_fault_text line code) }
{
    let mut digits = itoa::Buffer::new();
    write_fault(
        reply,
        b"error 32 cert line ",
        digits.format(line).as_bytes(),
        code,
    )
}

/// No row or column has the name.
pub fn write_unknown_name(reply: &mut Vec<u8>, name: &[u8]) -> Result<(), AllocError>
    ensures { IfOk result (λ _. reply.new.items ≡ reply.old.items ++ unknown_name_text name.now) }
{
    write_line(reply, b"error 05 unknown ", name)
}

/// The name of a new row or column is taken.
pub fn write_taken(reply: &mut Vec<u8>, name: &[u8]) -> Result<(), AllocError>
    ensures { IfOk result (λ _. reply.new.items ≡ reply.old.items ++ taken_text name.now) }
{
    write_line(reply, b"error 06 taken ", name)
}

/// A count would pass this limit.
pub fn write_limit(reply: &mut Vec<u8>, limit: u64) -> Result<(), AllocError>
    ensures { IfOk result (λ _. reply.new.items ≡ reply.old.items ++ limit_text limit) }
{
    write_count_line(reply, b"error 08 limit ", limit)
}

/// An integer column would lack a bound.
pub fn write_bounds(reply: &mut Vec<u8>, name: &[u8]) -> Result<(), AllocError>
    ensures { IfOk result (λ _. reply.new.items ≡ reply.old.items ++ bounds_text name.now) }
{
    write_line(reply, b"error 10 bounds ", name)
}

/// A row would have no side, or sides that are no range.
pub fn write_sides(reply: &mut Vec<u8>, name: &[u8]) -> Result<(), AllocError>
    ensures { IfOk result (λ _. reply.new.items ≡ reply.old.items ++ sides_text name.now) }
{
    write_line(reply, b"error 11 sides ", name)
}

fn not_whole_word(model: &Model, column: Option<ColId>) -> &[u8]
    ensures { result.now ≡ not_whole_word model.now column }
{
    match column {
        Some(place) => column_name(model, place),
        None => b"constant",
    }
}

/// An objective, by its number, is not whole: its first such column, or else the constant.
pub fn write_not_whole(
    reply: &mut Vec<u8>,
    model: &Model,
    which: u8,
    column: Option<ColId>,
) -> Result<(), AllocError>
    ensures { IfOk result (λ _. reply.new.items ≡ reply.old.items ++ not_whole_text model.now which column) }
{
    let mut digits = itoa::Buffer::new();
    let Ok(()) = write_two(
        reply,
        b"error 12 not whole ",
        digits.format(which).as_bytes(),
    ) else {
        return Err(AllocError);
    };
    write_line(reply, b" ", not_whole_word(model, column))
}
