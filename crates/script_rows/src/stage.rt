// What a row has said so far, and what its runs were answered.
use anyhow::{Result, bail, ensure};
use memory_ends::{MemSink, MemSource, MemStore};
use row_texts::{Stage, bytes_of, compare, number_of};
use std::alloc::{AllocError, Global};
use std::collections::BTreeMap;
use std::mem::replace;
use sym_io::{Store, StoreFault};

/// The most faults in a row that a file's reader goes past.
const MOST_FAULTS: u32 = 100;

/// The files until the first run makes a store of them, what the next run is given, and how the runs differ so far.
#[derive(Drop)]
pub struct ScriptStage {
    alloc: Global,
    files: BTreeMap<String, Vec<u8>>,
    store_fails: Vec<u64>,
    store: Option<MemStore>,
    words: Vec<String>,
    script: Vec<u8>,
    source_fails: Vec<u64>,
    sink_fails: Vec<u64>,
    /// The status of the last run, until the row says which one it wants.
    status: Option<u8>,
    report: String,
}

/// The program's name and the words between blanks.
fn words_of(alloc: Global, text: &str) -> Result<Vec<String>, AllocError> {
    let mut words = Vec::new(alloc);
    words.push(String::from_str(alloc, "symphony")?)?;
    for word in text.split_whitespace() {
        words.push(String::from_str(alloc, word)?)?;
    }
    Ok(words)
}

/// The numbers of calls behind `fails`.
fn calls_of(alloc: Global, text: &str) -> Result<Vec<u64>> {
    let Some(text) = text.strip_prefix("fails") else {
        bail!("no `fails` and numbers of calls");
    };
    let mut calls = Vec::new(alloc);
    for word in text.split_whitespace() {
        let Some(call) = number_of(word) else {
            bail!("no number of a call: {word}");
        };
        calls.push(call)?;
    }
    Ok(calls)
}

/// The file as it is now. Where a fault was planned for this call it is asked for again.
fn file_now(alloc: Global, store: &mut MemStore, name: &str) -> Result<Vec<u8>, StoreFault> {
    for _ in 0..MOST_FAULTS {
        match store.get(alloc, name) {
            Err(StoreFault::Failed) => (),
            answer => return answer,
        }
    }
    Err(StoreFault::Failed)
}

/// Compares a file with the text, or with its absence where there is none.
fn push_file(
    alloc: Global,
    report: &mut String,
    name: &str,
    wanted: Option<&[String]>,
    got: &Result<Vec<u8>, StoreFault>,
) -> Result<()> {
    match (got, wanted) {
        (Ok(got), Some(wanted)) => compare(alloc, report, name, wanted, got)?,
        (Err(StoreFault::Missing), None) => (),
        (Ok(_), None) => writeln!(report, "  {name}: a file that is not wanted")?,
        (Err(fault), _) => writeln!(report, "  {name}: {fault}")?,
    }
    Ok(())
}

/// The status of the program with these words.
fn status_of(
    alloc: Global,
    words: &[String],
    source: &mut MemSource,
    sink: &mut MemSink,
    store: &mut MemStore,
) -> u8 {
    sym_shell::run(alloc, words, source, sink, store)
}

impl Stage for ScriptStage {
    fn new(alloc: Global) -> Result<Self> {
        Ok(ScriptStage {
            alloc,
            files: BTreeMap::new(alloc),
            store_fails: Vec::new(alloc),
            store: None,
            words: words_of(alloc, "run")?,
            script: Vec::new(alloc),
            source_fails: Vec::new(alloc),
            sink_fails: Vec::new(alloc),
            status: None,
            report: String::new(alloc),
        })
    }

    fn has_text(word: &str) -> bool {
        matches!(word, "file" | "script" | "replies" | "keeps")
    }

    fn take(&mut self, word: &str, rest: &str, text: &[String]) -> Result<()> {
        match word {
            "file" => self.take_file(rest, text),
            "script" => self.take_script(rest, text),
            "replies" => self.run(rest, text),
            "keeps" => self.compare_file(rest, Some(text)),
            "lacks" => self.compare_file(rest, None),
            "status" => self.compare_status(rest),
            _ => self.take_words(word, rest),
        }
    }

    fn end(&self) -> Result<&str> {
        ensure!(self.store.is_some(), "no `replies`");
        ensure!(self.status.is_none(), "no `status` at the end");
        Ok(self.report.as_str())
    }
}

impl ScriptStage {
    fn take_words(&mut self, word: &str, rest: &str) -> Result<()> {
        match word {
            "words" => self.words = words_of(self.alloc, rest)?,
            "source" => self.source_fails = calls_of(self.alloc, rest)?,
            "sink" => self.sink_fails = calls_of(self.alloc, rest)?,
            "store" => self.store_fails = calls_of(self.alloc, rest)?,
            _ => bail!("no heading `{word}`"),
        }
        Ok(())
    }

    fn take_script(&mut self, rest: &str, text: &[String]) -> Result<()> {
        ensure!(rest.is_empty(), "no name stands here: {rest}");
        self.script = bytes_of(self.alloc, text)?;
        Ok(())
    }

    fn take_file(&mut self, name: &str, text: &[String]) -> Result<()> {
        ensure!(self.store.is_none(), "a file below `replies`");
        ensure!(!name.contains(' '), "no name: {name}");
        let name = String::from_str(self.alloc, name)?;
        let bytes = bytes_of(self.alloc, text)?;
        self.files.insert(name, bytes)?;
        Ok(())
    }

    /// Makes the store of the files, where this is the first run.
    fn begin_store(&mut self) {
        if self.store.is_none() {
            let alloc = self.alloc;
            let files = replace(&mut self.files, BTreeMap::new(alloc));
            let failing = replace(&mut self.store_fails, Vec::new(alloc));
            self.store = Some(MemStore::new(alloc, files, failing));
        }
    }

    /// Runs the program over the row's store, and compares what it writes with the text.
    fn run(&mut self, rest: &str, wanted: &[String]) -> Result<()> {
        ensure!(rest.is_empty(), "no name stands here: {rest}");
        ensure!(self.status.is_none(), "no `status` for the run above");
        self.begin_store();
        let mut sink = MemSink::new(self.alloc, self.sink_fails.clone()?);
        let run = self.run_into(&mut sink, wanted);
        drop(sink);
        run
    }

    /// Runs the program over the row's store into a sink, and compares what it writes with the text.
    fn run_into(&mut self, sink: &mut MemSink, wanted: &[String]) -> Result<()> {
        let Some(store) = &mut self.store else {
            bail!("no store");
        };
        let mut source = MemSource::new(self.script.clone()?, self.source_fails.clone()?);
        let status = status_of(self.alloc, &self.words, &mut source, sink, store);
        drop(source);
        self.status = Some(status);
        compare(
            self.alloc,
            &mut self.report,
            "replies",
            wanted,
            sink.bytes(),
        )?;
        Ok(())
    }

    /// Compares the status of the run above with the one that is wanted.
    fn compare_status(&mut self, rest: &str) -> Result<()> {
        let Some(got) = self.status.take() else {
            bail!("no `replies` above");
        };
        let Some(wanted) = number_of(rest) else {
            bail!("no status: {rest}");
        };
        if u64::from(got) != wanted {
            writeln!(self.report, "  status: wanted {wanted} and got {got}")?;
        }
        Ok(())
    }

    /// Compares a file as it is now with the text, or with its absence where there is none.
    fn compare_file(&mut self, name: &str, wanted: Option<&[String]>) -> Result<()> {
        let Some(store) = &mut self.store else {
            bail!("no `replies` above");
        };
        let got = file_now(self.alloc, store, name);
        let compared = push_file(self.alloc, &mut self.report, name, wanted, &got);
        drop(got);
        compared
    }
}
