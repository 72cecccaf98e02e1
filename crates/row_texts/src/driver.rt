// The way from standard input, which names the files, to the line that each row prints.
use crate::lines::{Line, expanded};
use crate::texts::lines_of;
use anyhow::{Context, Result, ensure};
use std::alloc::Global;
use std::fs;
use std::process::ExitCode;

/// What does what a row says. A row is a list of headings, each a word and what stands behind it, and some with a text.
pub trait Stage: Drop + Sized {
    /// A row that has said nothing yet.
    fn new(alloc: Global) -> Result<Self>;

    /// Whether a heading of this word has a text: the lines `| ..` and `/ ..` below it, or the bytes of the file of the
    /// data folder that it names behind `< `.
    fn has_text(word: &str) -> bool;

    /// Does what a heading says. `rest` is what stands behind the word, without `< PATH`, and `text` has no line where the
    /// heading has no text. An error says that the row is no row, and ends the program.
    fn take(&mut self, word: &str, rest: &str, text: &[String]) -> Result<()>;

    /// How what was got differs from what the row wants: empty where nothing does. It is asked for at the row's end, and is
    /// an error where the row wanted too little.
    fn end(&self) -> Result<&str>;
}

/// Which stage a file's rows run on: that of the folder of the data folder that the file lies in.
pub trait Stages {
    /// Runs the rows of a file by `run_file`, on the stage of its folder, which is empty where the file lies in none: how many
    /// differ. It is an error where the folder has no stage.
    fn run_in(rt: &HostRuntime, folder: &str, file: &str) -> Result<u64>;
}

/// Whether a line is one of a text.
fn is_text(line: &Line) -> bool {
    line.text.starts_with('|') || line.text.starts_with('/')
}

/// Refuses a line of text that has no form.
fn judge_form(line: &Line, is_first: bool) -> Result<()> {
    let text = line.text.as_str();
    ensure!(
        text == "|" || text.starts_with("| ") || text.starts_with("/ "),
        "line {}: no blank behind the mark",
        line.number
    );
    ensure!(
        !is_first || text.starts_with('|'),
        "line {}: no line above this other form",
        line.number
    );
    Ok(())
}

fn push_text(text: &mut Vec<String>, line: &Line) -> Result<()> {
    judge_form(line, text.is_empty())?;
    let form = line.text.clone()?;
    text.push(form)?;
    Ok(())
}

fn push_texts(text: &mut Vec<String>, below: &[Line]) -> Result<()> {
    for line in below {
        if !is_text(line) {
            break;
        }
        push_text(text, line)?;
    }
    Ok(())
}

/// The text of a file of the data folder.
fn text_in_file(rt: &HostRuntime, path: &str) -> Result<Vec<String>> {
    let bytes = fs::read(rt, path).context(format_args!("{path}"))?;
    let lines = lines_of(rt.alloc(), &bytes);
    drop(bytes);
    Ok(lines?)
}

/// Does what a heading says that has the text of a file.
fn take_file<S: Stage>(
    rt: &HostRuntime,
    stage: &mut S,
    word: &str,
    rest: &str,
    path: &str,
) -> Result<()> {
    let text = text_in_file(rt, path)?;
    let taken = stage.take(word, rest, &text);
    drop(text);
    taken
}

fn take_texts<S: Stage>(
    stage: &mut S,
    word: &str,
    rest: &str,
    below: &[Line],
    text: &mut Vec<String>,
) -> Result<()> {
    push_texts(text, below)?;
    stage.take(word, rest, text.as_slice())
}

/// Does what a heading says that has the lines of text at the front.
fn take_below<S: Stage>(
    alloc: Global,
    stage: &mut S,
    word: &str,
    rest: &str,
    below: &[Line],
) -> Result<()> {
    let mut text = Vec::new(alloc);
    let taken = take_texts(stage, word, rest, below, &mut text);
    drop(text);
    taken
}

/// Does what a heading with a text says, and answers whether the lines of text below it are its own.
fn take_with_text<S: Stage>(
    rt: &HostRuntime,
    stage: &mut S,
    word: &str,
    rest: &str,
    below: &[Line],
) -> Result<bool> {
    match rest.split_once("< ") {
        Some((rest, path)) => {
            take_file(rt, stage, word, rest.trim(), path)?;
            Ok(false)
        }
        None => {
            take_below(rt.alloc(), stage, word, rest, below)?;
            Ok(true)
        }
    }
}

/// Does what a heading says, and answers whether the lines of text below it are its own.
fn take_heading<S: Stage>(
    rt: &HostRuntime,
    stage: &mut S,
    line: &str,
    below: &[Line],
) -> Result<bool> {
    let (word, rest) = line.split_once(' ').unwrap_or((line, ""));
    if S::has_text(word) {
        return take_with_text(rt, stage, word, rest, below);
    }
    stage.take(word, rest, &[])?;
    Ok(false)
}

/// Does what a line says, where it is a heading, and answers whether the lines of text below it are a heading's own.
fn take_line<S: Stage>(
    rt: &HostRuntime,
    stage: &mut S,
    line: &Line,
    below: &[Line],
    takes_text: bool,
) -> Result<bool> {
    let number = line.number;
    if is_text(line) {
        ensure!(takes_text, "line {number}: text below no heading of one");
        return Ok(true);
    }
    take_heading(rt, stage, &line.text, below).context(format_args!("line {number}"))
}

/// Does what the lines say, up to the first `row NAME`.
fn take_lines<S: Stage>(rt: &HostRuntime, stage: &mut S, lines: &[Line]) -> Result<()> {
    let mut takes_text = false;
    for (at, line) in lines.iter().enumerate() {
        if line.text.starts_with("row ") {
            break;
        }
        let below = lines.get(at.saturating_add(1)..).unwrap_or(&[]);
        takes_text = take_line(rt, stage, line, below, takes_text)?;
    }
    Ok(())
}

/// Prints how a row went: how many rows differ.
fn print_row(rt: &HostRuntime, name: &str, report: &str) -> Result<u64> {
    if report.is_empty() {
        println!(rt; "ok {name}")?;
        return Ok(0);
    }
    println!(rt; "differs {name}\n{report}")?;
    Ok(1)
}

/// Does what the lines of a row say, and prints how it went: how many rows differ.
fn run_on<S: Stage>(
    rt: &HostRuntime,
    stage: &mut S,
    name: &str,
    shared: &[Line],
    own: &[Line],
) -> Result<u64> {
    take_lines(rt, stage, shared)?;
    take_lines(rt, stage, own)?;
    let report = stage.end().context(format_args!("{name}"))?;
    print_row(rt, name, report)
}

/// Runs a row, which is read behind the lines that its file's rows share, and prints how it went: how many rows differ.
fn run_row<S: Stage>(rt: &HostRuntime, name: &str, shared: &[Line], own: &[Line]) -> Result<u64> {
    let mut stage = S::new(rt.alloc())?;
    let differing = run_on::<S>(rt, &mut stage, name, shared, own);
    drop(stage);
    differing
}

/// Runs a row by the name of its file and its own.
fn run_named<S: Stage>(
    rt: &HostRuntime,
    file: &str,
    row: &str,
    shared: &[Line],
    own: &[Line],
) -> Result<u64> {
    let name = format!(in rt.alloc(); "{file}: {row}")?;
    let differing = run_row::<S>(rt, &name, shared, own);
    drop(name);
    differing
}

fn lines_in_file(rt: &HostRuntime, file: &str) -> Result<Vec<Line>> {
    let text = fs::read_to_string(rt, file)?;
    let lines = expanded(rt.alloc(), &text);
    drop(text);
    lines
}

/// Runs the rows that lines say: how many differ.
fn run_lines<S: Stage>(rt: &HostRuntime, file: &str, lines: &[Line]) -> Result<u64> {
    let mut differing = 0u64;
    let mut count = 0u64;
    for (at, line) in lines.iter().enumerate() {
        let Some(row) = line.text.strip_prefix("row ") else {
            continue;
        };
        count = count.saturating_add(1);
        let own = lines.get(at.saturating_add(1)..).unwrap_or(&[]);
        differing = differing.saturating_add(run_named::<S>(rt, file, row, lines, own)?);
    }
    if count == 0 {
        return run_row::<S>(rt, file, lines, &[]);
    }
    Ok(differing)
}

/// Runs the rows of a file, each on a stage of its own: how many differ. What stands above the first line `row NAME` is read
/// at the head of each row, and a file with no such line is one row. A row that is answered as it wants prints `ok` and its
/// name, another `differs`, its name and its report. It is an error where the file says no rows.
pub fn run_file<S: Stage>(rt: &HostRuntime, file: &str) -> Result<u64> {
    let lines = lines_in_file(rt, file)?;
    let differing = run_lines::<S>(rt, file, &lines);
    drop(lines);
    differing
}

/// Runs the rows of the file that a line names, if it names one: how many differ.
fn run_named_file<S: Stages>(rt: &HostRuntime, line: &str) -> Result<u64> {
    let file = line.trim();
    if file.is_empty() || file.starts_with('#') {
        return Ok(0);
    }
    let (folder, _) = file.split_once('/').unwrap_or(("", file));
    S::run_in(rt, folder, file).context(format_args!("{file}"))
}

/// Runs the rows of each file that standard input names: how many differ.
fn run_files<S: Stages>(rt: &HostRuntime) -> Result<u64> {
    let mut differing = 0u64;
    for line in rt.lines(rt.alloc()) {
        let line = line?;
        let more = run_named_file::<S>(rt, &line);
        drop(line);
        differing = differing.saturating_add(more?);
    }
    Ok(differing)
}

/// Runs the rows of the files that standard input names, one a line as `FOLDER/FILE`, or as `FILE` where it lies in no folder. The status
/// is 0 where no row differs, 1 where one does, and 2 where a file says no rows or its folder has no stage, with that fault in the last line.
pub fn run_rows<S: Stages>(rt: &HostRuntime) -> ExitCode {
    match run_files::<S>(rt) {
        Ok(0) => ExitCode::SUCCESS,
        Ok(_) => ExitCode::from(1),
        Err(error) => {
            let _ = println!(rt; "no rows: {error:#}");
            ExitCode::from(2)
        }
    }
}
