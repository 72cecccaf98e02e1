// Exact bytes as rows write them. A text is a list of lines `| TEXT`, and `/ TEXT` is another form of the line above it.
use crate::numbers::{split_number, split_range};
use anyhow::{Result, bail};
use std::alloc::{AllocError, Global};

/// The first byte that a text writes, and the text behind it: none at the end, at a brace, and where a backslash is wrong.
fn first_byte(text: &[u8]) -> Option<(u8, &[u8])> {
    let Some((first, after)) = text.split_first() else {
        return None;
    };
    if *first == b'{' {
        return None;
    }
    if *first != b'\\' {
        return Some((*first, after));
    }
    escaped(after)
}

/// The byte that stands behind a backslash.
fn escaped(text: &[u8]) -> Option<(u8, &[u8])> {
    let Some((letter, after)) = text.split_first() else {
        return None;
    };
    match *letter {
        b'n' => Some((b'\n', after)),
        b'r' => Some((b'\r', after)),
        b't' => Some((b'\t', after)),
        b'\\' | b'{' => Some((*letter, after)),
        b'x' => hexadecimal(after),
        _ => None,
    }
}

/// The value of a hexadecimal digit.
fn digit(byte: u8) -> Option<u8> {
    match byte {
        b'0'..=b'9' => Some(byte - b'0'),
        b'a'..=b'f' => Some(byte - b'a' + 10),
        _ => None,
    }
}

/// The byte of two hexadecimal digits.
fn byte_of(high: u8, low: u8) -> Option<u8> {
    let Some(high) = digit(high) else {
        return None;
    };
    let Some(low) = digit(low) else {
        return None;
    };
    Some(high.wrapping_mul(16).wrapping_add(low))
}

/// The byte of the two hexadecimal digits at the front of a text, and the text behind them.
fn hexadecimal(text: &[u8]) -> Option<(u8, &[u8])> {
    let [high, low, rest @ ..] = text else {
        return None;
    };
    match byte_of(*high, *low) {
        Some(byte) => Some((byte, rest)),
        None => None,
    }
}

/// What a line of text writes, behind its mark.
fn form_of(line: &str) -> &[u8] {
    let bytes = line.as_bytes();
    bytes.get(2..).unwrap_or(&[])
}

/// Writes the bytes of a line's form at the end of others, up to where they are none, and answers what stands there.
fn push_form<'a>(bytes: &mut Vec<u8>, form: &'a [u8]) -> Result<&'a [u8], AllocError> {
    let mut rest = form;
    for _ in 0..form.len() {
        let Some((byte, after)) = first_byte(rest) else {
            break;
        };
        bytes.push(byte)?;
        rest = after;
    }
    Ok(rest)
}

/// Writes the bytes of a line that has one form at the end of others.
fn push_plain(bytes: &mut Vec<u8>, line: &str) -> Result<()> {
    let rest = push_form(bytes, form_of(line))?;
    let is_whole = rest.is_empty();
    if !line.starts_with('|') || !is_whole && rest != b"\\".as_slice() {
        bail!("no plain bytes: {line}");
    }
    if is_whole {
        bytes.push(b'\n')?;
    }
    Ok(())
}

fn push_plains(bytes: &mut Vec<u8>, text: &[String]) -> Result<()> {
    for line in text {
        push_plain(bytes, line)?;
    }
    Ok(())
}

/// The bytes of a text in which no line has two forms and no number a range. A line feed ends each line, but where the
/// line ends in a backslash.
pub fn bytes_of(alloc: Global, text: &[String]) -> Result<Vec<u8>> {
    let mut bytes = Vec::new(alloc);
    match push_plains(&mut bytes, text) {
        Ok(()) => Ok(bytes),
        Err(error) => {
            drop(bytes);
            Err(error)
        }
    }
}

/// The range in braces at the front of a form, and what stands behind it.
fn range_at(form: &[u8]) -> Option<(u64, u64, &[u8])> {
    let Some(range) = form.strip_prefix(b"{") else {
        return None;
    };
    let Some((low, high, after)) = split_range(range) else {
        return None;
    };
    match after.strip_prefix(b"}") {
        Some(rest) => Some((low, high, rest)),
        None => None,
    }
}

/// What stands behind a range at the front of a form, and behind the number at the front of a text that is in it.
fn behind_range<'a, 'b>(form: &'a [u8], text: &'b [u8]) -> Option<(&'a [u8], &'b [u8])> {
    let Some((low, high, after)) = range_at(form) else {
        return None;
    };
    let Some((value, rest)) = split_number(text) else {
        return None;
    };
    if low <= value && value <= high {
        Some((after, rest))
    } else {
        None
    }
}

/// What stands behind the first byte of a form, or behind the range there, and behind what it writes in a text.
fn behind_first<'a, 'b>(form: &'a [u8], text: &'b [u8]) -> Option<(&'a [u8], &'b [u8])> {
    let Some((byte, after)) = first_byte(form) else {
        return behind_range(form, text);
    };
    match text.strip_prefix(&[byte]) {
        Some(rest) => Some((after, rest)),
        None => None,
    }
}

/// What stands behind a form at the front of a text.
fn behind<'a>(form: &[u8], text: &'a [u8]) -> Option<&'a [u8]> {
    let mut form = form;
    let mut rest = text;
    for _ in 0..form.len() {
        if form.is_empty() {
            break;
        }
        if form == b"\\".as_slice() {
            return Some(rest);
        }
        let Some((after, behind)) = behind_first(form, rest) else {
            return None;
        };
        form = after;
        rest = behind;
    }
    rest.strip_prefix(b"\n")
}

/// How many lines of a text the bytes meet from the front on, with their other forms, and the bytes behind these. Each line
/// is met by the first of its forms that fits: a form that is a front of another one of the same line stands behind it.
pub fn met<'a>(text: &[String], bytes: &'a [u8]) -> (usize, &'a [u8]) {
    let mut count = 0usize;
    let mut before = bytes;
    let mut after = Some(bytes);
    for (at, line) in text.iter().enumerate() {
        if line.starts_with('|') {
            let Some(rest) = after else { break };
            count = at;
            before = rest;
            after = behind(form_of(line), before);
        } else if after.is_none() {
            after = behind(form_of(line), before);
        }
    }
    match after {
        Some(rest) => (text.len(), rest),
        None => (count, before),
    }
}

/// Writes a byte as rows do.
fn push_shown(line: &mut String, byte: u8) -> Result<(), AllocError> {
    match byte {
        b'\\' | b'{' => write!(line, "\\{}", char::from(byte)),
        b' '..=b'~' => line.push(char::from(byte)),
        _ => write!(line, "\\x{byte:02x}"),
    }
}

/// Writes a byte at the end of the line that stands last. A line feed puts the line behind the others, and begins another one.
fn push_byte(
    alloc: Global,
    lines: &mut Vec<String>,
    line: &mut String,
    byte: u8,
) -> Result<(), AllocError> {
    if byte != b'\n' {
        return push_shown(line, byte);
    }
    let ended = std::mem::replace(line, String::from_str(alloc, "| ")?);
    lines.push(ended)?;
    Ok(())
}

/// Writes bytes, all but the last line behind the others.
fn push_bytes(
    alloc: Global,
    lines: &mut Vec<String>,
    line: &mut String,
    bytes: &[u8],
) -> Result<(), AllocError> {
    for byte in bytes {
        push_byte(alloc, lines, line, *byte)?;
    }
    Ok(())
}

/// Puts the last line behind the others, unless nothing stands in it.
fn push_last(lines: &mut Vec<String>, line: String) -> Result<(), AllocError> {
    let mut line = line;
    if line.len() <= 2 {
        drop(line);
        return Ok(());
    }
    match line.push('\\') {
        Ok(()) => Ok(lines.push(line)?),
        Err(error) => {
            drop(line);
            Err(error)
        }
    }
}

fn push_lines(alloc: Global, lines: &mut Vec<String>, bytes: &[u8]) -> Result<(), AllocError> {
    let mut line = String::from_str(alloc, "| ")?;
    match push_bytes(alloc, lines, &mut line, bytes) {
        Ok(()) => push_last(lines, line),
        Err(error) => {
            drop(line);
            Err(error)
        }
    }
}

/// The text that writes these bytes: `bytes_of` gives them back.
pub fn lines_of(alloc: Global, bytes: &[u8]) -> Result<Vec<String>, AllocError> {
    let mut lines = Vec::new(alloc);
    match push_lines(alloc, &mut lines, bytes) {
        Ok(()) => Ok(lines),
        Err(error) => {
            drop(lines);
            Err(error)
        }
    }
}

/// Writes the lines that are wanted, of which the first ones are got.
fn push_wanted(report: &mut String, wanted: &[String], count: usize) -> Result<(), AllocError> {
    for (at, line) in wanted.iter().enumerate() {
        let mark = if at < count { ' ' } else { '-' };
        writeln!(report, "  {mark} {line}")?;
    }
    Ok(())
}

fn push_got(report: &mut String, lines: &[String]) -> Result<(), AllocError> {
    for line in lines {
        writeln!(report, "  + {line}")?;
    }
    Ok(())
}

/// Writes at the end of a report how bytes differ from the text that is wanted: what is as wanted, and then the wanted and
/// the got lines. It writes nothing where the bytes meet the whole text. `what` names the bytes in the report's head.
pub fn compare(
    alloc: Global,
    report: &mut String,
    what: &str,
    wanted: &[String],
    got: &[u8],
) -> Result<(), AllocError> {
    let (count, rest) = met(wanted, got);
    if count == wanted.len() && rest.is_empty() {
        return Ok(());
    }
    writeln!(report, "  {what}: wanted - and got +")?;
    push_wanted(report, wanted, count)?;
    let lines = lines_of(alloc, rest)?;
    let pushed = push_got(report, &lines);
    drop(lines);
    pushed
}
