// The lines of a file of rows: comments go, and what stands between `each` and `done` is repeated.
use crate::numbers::{number_of, split_range};
use anyhow::{Result, bail, ensure};
use std::alloc::{AllocError, Global};

/// The most lines that a file says, so that a wrong range is told soon.
const MOST_LINES: u32 = 1_000_000;

/// A line, and its number in the file, from 1.
#[derive(Drop)]
pub struct Line {
    pub number: usize,
    pub text: String,
}

/// A counter of the lines from `start` to `done`, with its value now and the last one.
#[derive(Drop)]
struct Counter<'a> {
    name: &'a str,
    value: u64,
    last: u64,
    start: usize,
}

fn value_of(counters: &[Counter<'_>], name: &str) -> Option<u64> {
    for counter in counters {
        if counter.name == name {
            return Some(counter.value);
        }
    }
    None
}

/// The count and the text of `COUNT*TEXT`.
fn repetition_of(text: &str) -> Option<(u64, &str)> {
    let (count, repeated) = text.split_once('*')?;
    Some((number_of(count)?, repeated))
}

/// Writes what stands for the text between two braces: a counter's value, a text that is repeated, or itself.
fn push_braced(
    line: &mut String,
    inside: &str,
    counters: &[Counter<'_>],
) -> Result<(), AllocError> {
    if let Some(value) = value_of(counters, inside) {
        return write!(line, "{value}");
    }
    let Some((count, text)) = repetition_of(inside) else {
        return write!(line, "{{{inside}}}");
    };
    for _ in 0..count {
        line.push_str(text)?;
    }
    Ok(())
}

/// Whether what stands behind this text stands behind a backslash that is no backslash's second.
fn ends_escaped(text: &str) -> bool {
    let mut escaped = false;
    for byte in text.as_bytes() {
        escaped = *byte == b'\\' && !escaped;
    }
    escaped
}

/// Writes the text before a brace, and what the brace and the text behind it up to a closing brace stand for. It answers the
/// text behind that. A brace behind a backslash stays.
fn push_filled<'a>(
    filled: &mut String,
    before: &str,
    behind: &'a str,
    counters: &[Counter<'_>],
) -> Result<&'a str, AllocError> {
    filled.push_str(before)?;
    if !ends_escaped(before) {
        if let Some((inside, after)) = behind.split_once('}') {
            push_braced(filled, inside, counters)?;
            return Ok(after);
        }
    }
    filled.push('{')?;
    Ok(behind)
}

/// Writes a line with what stands for each text in braces.
fn push_line(filled: &mut String, line: &str, counters: &[Counter<'_>]) -> Result<(), AllocError> {
    let mut rest = line;
    for _ in 0..line.len() {
        let Some((before, behind)) = rest.split_once('{') else {
            break;
        };
        rest = push_filled(filled, before, behind, counters)?;
    }
    filled.push_str(rest)
}

/// The line with what stands for each text in braces.
fn filled(alloc: Global, line: &str, counters: &[Counter<'_>]) -> Result<String, AllocError> {
    let mut filled = String::new(alloc);
    push_line(&mut filled, line, counters)?;
    Ok(filled)
}

/// The counter of `NAME LOW..HIGH`.
fn counter_of(text: &str, start: usize) -> Option<Counter<'_>> {
    let (name, range) = text.split_once(' ')?;
    match split_range(range.as_bytes()) {
        Some((value, last, [])) => Some(Counter {
            name,
            value,
            last,
            start,
        }),
        _ => None,
    }
}

/// Puts the lines of a text one behind the other.
fn push_text<'a>(lines: &mut Vec<&'a str>, text: &'a str) -> Result<(), AllocError> {
    for line in text.lines() {
        lines.push(line)?;
    }
    Ok(())
}

/// Where a `done` leads whose next line is this one.
fn behind_done(counters: &mut Vec<Counter<'_>>, at: usize) -> Result<usize> {
    let Some(counter) = counters.last_mut() else {
        bail!("line {at}: no `each` for this `done`");
    };
    if counter.value < counter.last {
        counter.value += 1;
        Ok(counter.start)
    } else {
        let _ = counters.pop();
        Ok(at)
    }
}

/// Begins a repetition.
fn begin_each<'a>(counters: &mut Vec<Counter<'a>>, range: &'a str, at: usize) -> Result<()> {
    match counter_of(range, at) {
        Some(counter) => Ok(counters.push(counter)?),
        None => bail!("line {at}: no `each NAME LOW..HIGH`"),
    }
}

/// Puts a line behind the others, with what stands for each text in braces.
fn push_filled_line(
    alloc: Global,
    expanded: &mut Vec<Line>,
    line: &str,
    number: usize,
    counters: &[Counter<'_>],
) -> Result<(), AllocError> {
    let text = filled(alloc, line, counters)?;
    expanded.push(Line { number, text })?;
    Ok(())
}

/// Reads a line, and answers where the next one stands: that is `at`, the line's own number, but behind a `done`.
fn read_line<'a>(
    alloc: Global,
    line: &'a str,
    at: usize,
    counters: &mut Vec<Counter<'a>>,
    expanded: &mut Vec<Line>,
) -> Result<usize> {
    if line == "done" {
        return behind_done(counters, at);
    }
    if let Some(range) = line.strip_prefix("each ") {
        begin_each(counters, range, at)?;
    } else if !line.is_empty() && !line.starts_with('#') {
        push_filled_line(alloc, expanded, line, at, counters.as_slice())?;
    }
    Ok(at)
}

/// Reads lines to their end.
fn read_lines<'a>(
    alloc: Global,
    lines: &[&'a str],
    counters: &mut Vec<Counter<'a>>,
    expanded: &mut Vec<Line>,
) -> Result<()> {
    let mut at = 0usize;
    for _ in 0..MOST_LINES {
        let Some(line) = lines.get(at) else {
            ensure!(counters.is_empty(), "an `each` has no `done`");
            return Ok(());
        };
        at = read_line(alloc, *line, at.saturating_add(1), counters, expanded)?;
    }
    bail!("more than {MOST_LINES} lines")
}

fn read_text(alloc: Global, text: &str, expanded: &mut Vec<Line>) -> Result<()> {
    let mut lines = Vec::new(alloc);
    let mut counters: Vec<Counter<'_>> = Vec::new(alloc);
    let read = match push_text(&mut lines, text) {
        Ok(()) => read_lines(alloc, &lines, &mut counters, expanded),
        Err(error) => Err(error.into()),
    };
    drop(counters);
    drop(lines);
    read
}

/// The lines that the text of a file says. An error where `each` and `done` don't fit, and past a million lines.
pub fn expanded(alloc: Global, text: &str) -> Result<Vec<Line>> {
    let mut expanded = Vec::new(alloc);
    let read = read_text(alloc, text, &mut expanded);
    if let Err(error) = read {
        drop(expanded);
        return Err(error);
    }
    Ok(expanded)
}
