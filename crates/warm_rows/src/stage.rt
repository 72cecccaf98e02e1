// What a row of warm files has said so far, and how its answers differ.
use anyhow::{Result, bail, ensure};
use lp_model::Name;
use row_texts::{Stage, bytes_of, compare, lines_of};
use std::alloc::{AllocError, Global};
use std::slice;
use warm_file::{WarmFault, read};
use warm_writer::write;

/// The bytes of a warm file, and how what was got of them differs from what the row wants.
#[derive(Drop)]
pub struct WarmStage {
    alloc: Global,
    bytes: Vec<u8>,
    /// Whether the row has said what it wants.
    is_judged: bool,
    report: String,
}

/// Where a part stands first among the bytes.
fn place_of(bytes: &[u8], part: &[u8]) -> Option<usize> {
    for place in 0..bytes.len() {
        if bytes.get(place..)?.starts_with(part) {
            return Some(place);
        }
    }
    None
}

/// Three parts, one behind the other.
fn joined(alloc: Global, first: &[u8], second: &[u8], third: &[u8]) -> Result<Vec<u8>, AllocError> {
    let mut joined = Vec::from_slice(alloc, first)?;
    joined.extend_from_slice(second)?;
    joined.extend_from_slice(third)?;
    Ok(joined)
}

/// The bytes with another part in place of so many bytes from this place on.
fn replaced(
    alloc: Global,
    bytes: &[u8],
    place: usize,
    length: usize,
    new: &str,
) -> Result<Vec<u8>, AllocError> {
    let before = bytes.get(..place).unwrap_or(&[]);
    let behind = bytes.get(place.saturating_add(length)..).unwrap_or(&[]);
    joined(alloc, before, new.as_bytes(), behind)
}

/// The bytes with another part at the place where the old one stands first.
fn changed(alloc: Global, bytes: &[u8], old: &str, new: &str) -> Result<Vec<u8>> {
    match place_of(bytes, old.as_bytes()) {
        Some(place) => Ok(replaced(alloc, bytes, place, old.len(), new)?),
        None => bail!("nowhere in the text: {old}"),
    }
}

/// The line that tells a fault.
fn fault_line(alloc: Global, place: &Name, code: u8) -> Result<Vec<u8>, AllocError> {
    let code = format!(in alloc; " code {code}\n")?;
    let line = joined(alloc, b"place ", place.as_slice(), code.as_bytes());
    drop(code);
    line
}

/// Compares bytes with what stands behind `place`.
fn compare_fault(
    alloc: Global,
    report: &mut String,
    words: &str,
    got: &[u8],
) -> Result<(), AllocError> {
    let line = format!(in alloc; "| place {words}")?;
    let compared = compare(alloc, report, "fault", slice::from_ref(&line), got);
    drop(line);
    compared
}

/// The line of a fault. No such line is a warm file.
fn fault_told(alloc: Global, fault: WarmFault) -> Result<Vec<u8>> {
    match fault {
        WarmFault::Bad { place, code } => {
            let line = fault_line(alloc, &place, code);
            drop(place);
            Ok(line?)
        }
        WarmFault::Memory => bail!("no memory"),
    }
}

/// What is written of the search that the bytes state, or the line of their first fault.
fn answer_of(alloc: Global, bytes: &[u8]) -> Result<Vec<u8>> {
    let search = match read(alloc, bytes) {
        Ok(search) => search,
        Err(fault) => return fault_told(alloc, fault),
    };
    let written = write(alloc, &search);
    drop(search);
    Ok(written?)
}

/// Compares what is written of the search that bytes state with a text, and answers it.
fn compare_written(
    alloc: Global,
    report: &mut String,
    what: &str,
    wanted: &[String],
    bytes: &[u8],
) -> Result<Vec<u8>> {
    let written = answer_of(alloc, bytes)?;
    compare(alloc, report, what, wanted, &written)?;
    Ok(written)
}

impl WarmStage {
    /// Changes the text as `OLD => NEW` says.
    fn change(&mut self, words: &str) -> Result<()> {
        match words.split_once(" => ") {
            Some((old, new)) => self.put(old, new),
            None => bail!("no `OLD => NEW`: {words}"),
        }
    }

    /// Puts a part in place of an old one.
    fn put(&mut self, old: &str, new: &str) -> Result<()> {
        self.bytes = changed(self.alloc, &self.bytes, old, new)?;
        Ok(())
    }

    /// Compares what is written with the text, and what is written when that is read.
    fn judge_written(&mut self, wanted: &[String]) -> Result<()> {
        self.is_judged = true;
        let once = compare_written(self.alloc, &mut self.report, "written", wanted, &self.bytes)?;
        let twice = compare_written(self.alloc, &mut self.report, "written again", wanted, &once);
        drop(once);
        drop(twice?);
        Ok(())
    }

    /// Compares what is written with the text that stands.
    fn judge_again(&mut self) -> Result<()> {
        let same = lines_of(self.alloc, &self.bytes)?;
        let judged = self.judge_written(&same);
        drop(same);
        judged
    }

    /// Compares what is written with the text that stands, as a file of the second version.
    fn judge_older(&mut self) -> Result<()> {
        let second = changed(self.alloc, &self.bytes, "\"warm\":1", "\"warm\":2")?;
        let lines = lines_of(self.alloc, &second);
        drop(second);
        let lines = lines?;
        let judged = self.judge_written(&lines);
        drop(lines);
        judged
    }

    /// Compares the first fault with what stands behind `place`.
    fn judge_fault(&mut self, words: &str) -> Result<()> {
        self.is_judged = true;
        let got = answer_of(self.alloc, &self.bytes)?;
        let compared = compare_fault(self.alloc, &mut self.report, words, &got);
        drop(got);
        Ok(compared?)
    }

    /// Judges by a heading without a text.
    fn judge(&mut self, word: &str, rest: &str) -> Result<()> {
        match word {
            "place" => self.judge_fault(rest),
            "older" => self.judge_older(),
            "again" => self.judge_again(),
            _ => bail!("no heading `{word}`"),
        }
    }

    fn take_text(&mut self, word: &str, text: &[String]) -> Result<()> {
        if word == "written" {
            return self.judge_written(text);
        }
        ensure!(!self.is_judged, "a text behind what is wanted");
        self.bytes = bytes_of(self.alloc, text)?;
        Ok(())
    }
}

impl Stage for WarmStage {
    fn new(alloc: Global) -> Result<Self> {
        Ok(WarmStage {
            alloc,
            bytes: Vec::new(alloc),
            is_judged: false,
            report: String::new(alloc),
        })
    }

    fn has_text(word: &str) -> bool {
        matches!(word, "text" | "written")
    }

    fn take(&mut self, word: &str, rest: &str, text: &[String]) -> Result<()> {
        match word {
            "text" | "written" => self.take_text(word, text),
            "change" => self.change(rest),
            _ => self.judge(word, rest),
        }
    }

    fn end(&self) -> Result<&str> {
        ensure!(self.is_judged, "no `again`, `older`, `written` or `place`");
        Ok(self.report.as_str())
    }
}
