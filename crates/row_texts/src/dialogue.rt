// Rows of commands and answers.
use crate::driver::Stage;
use crate::texts::compare;
use anyhow::{Result, bail, ensure};
use std::alloc::Global;

/// What answers commands, and stands anew for each row.
pub trait Subject: Drop + Sized {
    /// A subject that was told nothing yet.
    fn new(alloc: Global) -> Result<Self>;

    /// Does what a command says, and writes what it answers, lines with their line feeds, at the end of `replies`. An error
    /// says that the command is none, and ends the program.
    fn answer(&mut self, command: &str, replies: &mut String) -> Result<()>;
}

/// A subject's stage: below `script` stand its commands, one a line and as they are, and below `replies` all that it is to
/// answer to them. Each `script` wants its `replies`.
#[derive(Drop)]
pub struct Dialogue<S: Subject> {
    alloc: Global,
    subject: S,
    /// What was answered to the script above, until the row says what it wants.
    replies: Option<String>,
    /// Whether any `replies` stood.
    is_judged: bool,
    report: String,
}

fn answer_all<S: Subject>(subject: &mut S, script: &[String], replies: &mut String) -> Result<()> {
    for line in script {
        match line.strip_prefix("| ") {
            Some(command) => subject.answer(command, replies)?,
            None => bail!("no command: {line}"),
        }
    }
    Ok(())
}

impl<S: Subject> Dialogue<S> {
    fn run(&mut self, script: &[String]) -> Result<()> {
        ensure!(self.replies.is_none(), "no `replies` for the script above");
        let mut replies = String::new(self.alloc);
        let answered = answer_all(&mut self.subject, script, &mut replies);
        self.replies = Some(replies);
        answered
    }

    fn judge(&mut self, wanted: &[String]) -> Result<()> {
        let Some(replies) = self.replies.take() else {
            bail!("no `script` above");
        };
        self.is_judged = true;
        let got = replies.as_bytes();
        let compared = compare(self.alloc, &mut self.report, "replies", wanted, got);
        drop(replies);
        Ok(compared?)
    }
}

impl<S: Subject> Stage for Dialogue<S> {
    fn new(alloc: Global) -> Result<Self> {
        Ok(Dialogue {
            alloc,
            subject: S::new(alloc)?,
            replies: None,
            is_judged: false,
            report: String::new(alloc),
        })
    }

    fn has_text(word: &str) -> bool {
        matches!(word, "script" | "replies")
    }

    fn take(&mut self, word: &str, rest: &str, text: &[String]) -> Result<()> {
        ensure!(rest.is_empty(), "no name stands here: {rest}");
        match word {
            "script" => self.run(text),
            "replies" => self.judge(text),
            _ => bail!("no heading `{word}`"),
        }
    }

    fn end(&self) -> Result<&str> {
        ensure!(self.is_judged, "no `replies`");
        ensure!(self.replies.is_none(), "no `replies` at the end");
        Ok(self.report.as_str())
    }
}
