// Lines put behind a text.
ghost use Rattle.std.specs.Prelude.{◌≡◌, ◌++◌, ◌∷◌, [], IfOk};
ghost use Rattle.frac128.specs.Printing.{printed};
ghost use Rattle.mps_writer.specs.Canonical.{Header, Data, written_text, entry_line, number_line};
ghost use Rattle.text_lines.specs.Words.{spaced};

use frac128::Frac;
use lp_model::is_zero;
use std::alloc::AllocError;

/// One more word of a line.
pub(crate) fn put_word(text: &mut Vec<u8>, word: &[u8]) -> Result<(), AllocError>
    ensures { IfOk result (λ _. text.new.items ≡ text.old.items ++ spaced (word.now ∷ [])) }
{
    text.push(b' ')?;
    text.extend_from_slice(word)?;
    Ok(())
}

/// A number as one more word.
fn put_number(text: &mut Vec<u8>, number: &Frac) -> Result<(), AllocError>
    ensures { IfOk result (λ _. text.new.items ≡ text.old.items ++ spaced (printed number.now ∷ [])) }
{
    text.push(b' ')?;
    number.write_to(text)?;
    Ok(())
}

/// A header of one word.
pub(crate) fn put_header(text: &mut Vec<u8>, word: &[u8]) -> Result<(), AllocError>
    ensures { IfOk result (λ _. text.new.items ≡ text.old.items ++ written_text (Header (word.now ∷ []) ∷ [])) }
{
    let Ok(()) = text.extend_from_slice(word) else {
        return Err(AllocError);
    };
    let Ok(()) = text.push(b'\n') else {
        return Err(AllocError);
    };
    Ok(())
}

/// A data line of two words.
pub(crate) fn put_two(text: &mut Vec<u8>, first: &[u8], second: &[u8]) -> Result<(), AllocError>
    ensures { IfOk result (λ _. text.new.items ≡ text.old.items ++ written_text (Data (first.now ∷ second.now ∷ []) ∷ [])) }
{
    let Ok(()) = put_word(text, first) else {
        return Err(AllocError);
    };
    let Ok(()) = put_word(text, second) else {
        return Err(AllocError);
    };
    let Ok(()) = text.push(b'\n') else {
        return Err(AllocError);
    };
    Ok(())
}

/// A data line of three words.
pub(crate) fn put_three(
    text: &mut Vec<u8>,
    first: &[u8],
    second: &[u8],
    third: &[u8],
) -> Result<(), AllocError>
    ensures { IfOk result (λ _. text.new.items ≡ text.old.items ++ written_text (Data (first.now ∷ second.now ∷ third.now ∷ []) ∷ [])) }
{
    let Ok(()) = put_word(text, first) else {
        return Err(AllocError);
    };
    put_two(text, second, third)
}

/// A data line of two words and a number.
pub(crate) fn put_entry(
    text: &mut Vec<u8>,
    first: &[u8],
    name: &[u8],
    number: &Frac,
) -> Result<(), AllocError>
    ensures { IfOk result (λ _. text.new.items ≡ text.old.items ++ written_text (entry_line first.now name.now number.now ∷ [])) }
{
    let Ok(()) = put_word(text, first) else {
        return Err(AllocError);
    };
    let Ok(()) = put_word(text, name) else {
        return Err(AllocError);
    };
    let Ok(()) = put_number(text, number) else {
        return Err(AllocError);
    };
    let Ok(()) = text.push(b'\n') else {
        return Err(AllocError);
    };
    Ok(())
}

/// A data line of three words and a number.
pub(crate) fn put_bound(
    text: &mut Vec<u8>,
    kind: &[u8],
    set: &[u8],
    name: &[u8],
    number: &Frac,
) -> Result<(), AllocError>
    ensures { IfOk result (λ _. text.new.items ≡ text.old.items ++ written_text (Data (kind.now ∷ set.now ∷ name.now ∷ printed number.now ∷ []) ∷ [])) }
{
    let Ok(()) = put_word(text, kind) else {
        return Err(AllocError);
    };
    put_entry(text, set, name, number)
}

/// The line of a number that isn't 0.
pub(crate) fn put_nonzero(
    text: &mut Vec<u8>,
    first: &[u8],
    name: &[u8],
    number: &Frac,
) -> Result<(), AllocError>
    ensures { IfOk result (λ _. text.new.items ≡ text.old.items ++ written_text (number_line first.now name.now number.now)) }
{
    if is_zero(number) {
        return Ok(());
    }
    put_entry(text, first, name, number)
}
