// The lines of a text, from the first one on.
ghost use Rattle.std.specs.Prelude.{◌≡◌, ◌∷◌, ◌++◌, IfSome, IfNone};
ghost use Rattle.std.specs.Str.Lines.{strip_carriage_return};
ghost use Rattle.text_lines.specs.Lines.{is_newline, HasNoNewline, text_of};

fn is_newline_byte(byte: u8) -> bool
    ensures { result ≡ is_newline byte }
{
    byte == b'\n'
}

/// The first line, without its newline, and what follows that. None where the text has no newline.
pub fn cut_line(text: &[u8]) -> Option<(&[u8], &[u8])>
    ensures none { IfNone result (HasNoNewline text.now) }
    ensures clean { IfSome result (λ parts. HasNoNewline parts.0.now) }
    ensures parts { IfSome result (λ parts. text.now ≡ parts.0.now ++ 10 ∷ parts.1.now) }
{
    for end in 0..text.len() {
        if is_newline_byte(text[end]) {
            return Some((&text[..end], &text[end + 1..]));
        }
    }
    None
}

/// The line without the carriage return at its end, if it has one.
fn without_carriage_return(line: &[u8]) -> &[u8]
    ensures { result.now ≡ strip_carriage_return line.now }
{
    match line {
        [front @ .., b'\r'] => front,
        _ => line,
    }
}

/// What is read of the line of these bytes, `ended` by a newline or not: a carriage return before the newline is dropped.
pub fn line_text(bytes: &[u8], ended: bool) -> &[u8]
    ensures { result.now ≡ text_of (record { bytes = bytes.now; ended = ended }) }
{
    if ended {
        without_carriage_return(bytes)
    } else {
        bytes
    }
}
