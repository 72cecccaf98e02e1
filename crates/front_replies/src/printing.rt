// The lines of outcomes.
ghost use Rattle.std.specs.Prelude.{◌≡◌, ◌++◌, ◌∷◌, [], map, IfOk};
ghost use Rattle.text_lines.specs.Words.{spaced};
ghost use Rattle.cert_writer.specs.CertText.{line_text, lines_text};
ghost use Rattle.front_replies.specs.FrontReplies.{value_words, row_words, head_words, complete_front_text, front_part_text};

use cert_writer::put_word;
use frontier::Outcome;
use itoa::Buffer;
use std::alloc::AllocError;

/// An outcome's values, each as one more word.
pub(crate) fn put_values(text: &mut Vec<u8>, outcome: &Outcome) -> Result<(), AllocError>
    ensures { IfOk result (λ _. text.new.items ≡ text.old.items ++ spaced (value_words outcome.now)) }
{
    let mut first = Buffer::new();
    let mut second = Buffer::new();
    let Outcome { f1, f2 } = outcome;
    let Ok(()) = put_word(text, first.format(*f1).as_bytes()) else {
        return Err(AllocError);
    };
    put_word(text, second.format(*f2).as_bytes())
}

/// An outcome's line, without its newline.
fn put_row(text: &mut Vec<u8>, outcome: &Outcome) -> Result<(), AllocError>
    ensures { IfOk result (λ _. text.new.items ≡ text.old.items ++ line_text (row_words outcome.now)) }
{
    let Ok(()) = text.push(b'f') else {
        return Err(AllocError);
    };
    put_values(text, outcome)
}

/// The lines of outcomes.
fn put_rows(text: &mut Vec<u8>, outcomes: &[Outcome]) -> Result<(), AllocError>
    ensures { IfOk result (λ _. text.new.items ≡ text.old.items ++ lines_text (map row_words outcomes.now)) }
{
    for outcome in outcomes {
        let Ok(()) = put_row(text, outcome) else {
            return Err(AllocError);
        };
        let Ok(()) = text.push(b'\n') else {
            return Err(AllocError);
        };
    }
    Ok(())
}

/// The first line, without its newline.
fn put_head(text: &mut Vec<u8>, kind: &[u8], outcomes: &[Outcome]) -> Result<(), AllocError>
    ensures { IfOk result (λ _. text.new.items ≡ text.old.items ++ line_text (head_words kind.now outcomes.now)) }
{
    let mut buffer = Buffer::new();
    let Ok(()) = text.extend_from_slice(b"frontier") else {
        return Err(AllocError);
    };
    let Ok(()) = put_word(text, kind) else {
        return Err(AllocError);
    };
    put_word(text, buffer.format(outcomes.len()).as_bytes())
}

/// The first line, and the lines of outcomes.
fn put_told(text: &mut Vec<u8>, kind: &[u8], outcomes: &[Outcome]) -> Result<(), AllocError>
    ensures { IfOk result (λ _. text.new.items ≡ text.old.items ++ lines_text (head_words kind.now outcomes.now ∷ map row_words outcomes.now)) }
{
    let Ok(()) = put_head(text, kind, outcomes) else {
        return Err(AllocError);
    };
    let Ok(()) = text.push(b'\n') else {
        return Err(AllocError);
    };
    put_rows(text, outcomes)
}

/// A whole front behind a text: its outcomes in the model's own sense, by rising first value.
pub fn put_complete_front(text: &mut Vec<u8>, outcomes: &[Outcome]) -> Result<(), AllocError>
    ensures { IfOk result (λ _. text.new.items ≡ text.old.items ++ complete_front_text outcomes.now) }
{
    let Ok(()) = put_told(text, b"complete", outcomes) else {
        return Err(AllocError);
    };
    text.extend_from_slice(b"end\n")
}

/// The outcomes of a part of a front behind a text, in the model's own sense, by rising first value.
pub(crate) fn put_front_part(text: &mut Vec<u8>, outcomes: &[Outcome]) -> Result<(), AllocError>
    ensures { IfOk result (λ _. text.new.items ≡ text.old.items ++ front_part_text outcomes.now) }
{
    put_told(text, b"part", outcomes)
}
