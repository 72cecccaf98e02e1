// Rows of questions.
use crate::fractions::answer_to;
use anyhow::{Result, bail, ensure};
use row_texts::Stage;
use std::alloc::{AllocError, Global};

/// Writes an answer that isn't the wanted one, with its question.
fn push_judged(
    report: &mut String,
    word: &str,
    words: &str,
    wanted: &str,
    answer: &str,
) -> Result<(), AllocError> {
    if answer == wanted {
        return Ok(());
    }
    writeln!(report, "  {word} {words}\n  - {wanted}\n  + {answer}")
}

/// A stage whose headings are questions with the answers that they want: each a line `QUESTION -> ANSWER`.
#[derive(Drop)]
pub struct Questions {
    alloc: Global,
    has_asked: bool,
    report: String,
}

impl Questions {
    /// Asks a question, and notes an answer that isn't the wanted one.
    fn ask(&mut self, word: &str, words: &str, wanted: &str) -> Result<()> {
        let answer = answer_to(self.alloc, word, words)?;
        self.has_asked = true;
        let judged = push_judged(&mut self.report, word, words, wanted, &answer);
        drop(answer);
        Ok(judged?)
    }
}

impl Stage for Questions {
    fn new(alloc: Global) -> Result<Self> {
        Ok(Questions {
            alloc,
            has_asked: false,
            report: String::new(alloc),
        })
    }

    fn has_text(_word: &str) -> bool {
        false
    }

    fn take(&mut self, word: &str, rest: &str, _text: &[String]) -> Result<()> {
        match rest.split_once("-> ") {
            Some((words, wanted)) => self.ask(word, words.trim_end(), wanted),
            None => bail!("no `QUESTION -> ANSWER`"),
        }
    }

    fn end(&self) -> Result<&str> {
        ensure!(self.has_asked, "no question");
        Ok(self.report.as_str())
    }
}
