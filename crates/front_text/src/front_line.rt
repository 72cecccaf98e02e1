// What one line of a front's text says.
ghost use Rattle.std.specs.Prelude.{◌≡◌, map, IfOk, Ok};
ghost use Rattle.frac_text.specs.Parsing.{spelled_number};
ghost use Rattle.cert_text.specs.Reading.{Says};
ghost use Rattle.front_text.specs.Lines.{header_says, whole_number, two_values, outcome_says, least_says, tree_says, front_word_says, front_word_of, common_statement, front_known_says, front_words_say, front_line_says, has_front_word, begin_front};
ghost use Rattle.front_text.specs.Reading.{IsNarrowFrontStatement};

use crate::front::TreeOf;
use cert_text::{
    CertNode, LineFault, NamedCut, Statement, begins_blank, ends_blank, line_says, number_code,
    number_of_cut,
};
use frac128::Frac;
use lp_model::{List, Name};
use std::alloc::{AllocError, Global};
use text_lines::{is_word, words};

/// The first words that only one kind of certificate has.
#[derive(Clone, Copy)]
pub enum FrontWord {
    Front,
    Outcome,
    Tree,
    /// A word of certificates of one value.
    Foreign,
}

/// What a line of a front's text says.
#[derive(Drop)]
pub enum FrontStatement {
    Header,
    /// The two values.
    Outcome(i128, i128),
    Point(List<(Name, Frac)>),
    Tree(TreeOf),
    Cut(NamedCut),
    Node(CertNode),
    End,
    /// What has no place in a certificate of this kind.
    Foreign,
}

fn front_word(word: &[u8]) -> Option<FrontWord>
    ensures { result ≡ front_word_of word.now }
{
    if is_word(b"front", word) {
        Some(FrontWord::Front)
    } else if is_word(b"outcome", word) {
        Some(FrontWord::Outcome)
    } else if is_word(b"tree", word) {
        Some(FrontWord::Tree)
    } else if is_word(b"cert", word) || is_word(b"claim", word) || is_word(b"ray", word) {
        Some(FrontWord::Foreign)
    } else {
        None
    }
}

/// What `front` with these further words says.
fn header_says(words: &[&[u8]]) -> Result<FrontStatement, LineFault>
    ensures says { Says (header_says (map (λ word. word.now) words.now)) result }
    ensures narrow { IfOk result IsNarrowFrontStatement }
{
    match words {
        [version] if is_word(b"1", version) => Ok(FrontStatement::Header),
        _ => Err(LineFault::Code(3)),
    }
}

/// The whole number that a word spells, or the code of its fault.
fn whole_number(word: &[u8]) -> Result<i128, u8>
    ensures { result ≡ whole_number (spelled_number word.now) }
{
    match frac_text::parse(word) {
        Ok(value) => {
            if value.denominator() == 1 {
                Ok(value.numerator())
            } else {
                Err(3)
            }
        }
        Err(fault) => Err(number_code(fault)),
    }
}

/// An outcome by its two values, or the least code of their faults.
fn two_values(
    first: Result<i128, u8>,
    second: Result<i128, u8>,
) -> Result<FrontStatement, LineFault>
    ensures says { Says (two_values first second) result }
    ensures narrow { IfOk result IsNarrowFrontStatement }
{
    match (first, second) {
        (Ok(v1), Ok(v2)) => Ok(FrontStatement::Outcome(v1, v2)),
        (Ok(_), Err(code)) => Err(LineFault::Code(code)),
        (Err(code), Ok(_)) => Err(LineFault::Code(code)),
        (Err(code), Err(other)) => Err(LineFault::Code(code.min(other))),
    }
}

/// What `outcome` with these further words says.
fn outcome_says(words: &[&[u8]]) -> Result<FrontStatement, LineFault>
    ensures says { Says (outcome_says (map (λ word. word.now) words.now)) result }
    ensures narrow { IfOk result IsNarrowFrontStatement }
{
    match words {
        [first, second] => two_values(whole_number(first), whole_number(second)),
        _ => Err(LineFault::Code(3)),
    }
}

/// What `tree` with this one word says.
fn least_says(kind: &[u8]) -> Result<FrontStatement, LineFault>
    ensures says { Says (least_says kind.now) result }
    ensures narrow { IfOk result IsNarrowFrontStatement }
{
    if is_word(b"least1", kind) {
        Ok(FrontStatement::Tree(TreeOf::Least1))
    } else if is_word(b"least2", kind) {
        Ok(FrontStatement::Tree(TreeOf::Least2))
    } else {
        Err(LineFault::Code(3))
    }
}

/// What `tree` with these further words says.
fn tree_says(words: &[&[u8]]) -> Result<FrontStatement, LineFault>
    ensures says { Says (tree_says (map (λ word. word.now) words.now)) result }
    ensures narrow { IfOk result IsNarrowFrontStatement }
{
    match words {
        [kind] => least_says(kind),
        [kind, number] if is_word(b"gap", kind) => match number_of_cut(number) {
            Ok(number) => Ok(FrontStatement::Tree(TreeOf::Gap(number))),
            Err(code) => Err(LineFault::Code(code)),
        },
        _ => Err(LineFault::Code(3)),
    }
}

/// What a word that only one kind of certificate has says with these further words.
fn front_word_says(word: FrontWord, words: &[&[u8]]) -> Result<FrontStatement, LineFault>
    ensures says { Says (front_word_says word (map (λ word. word.now) words.now)) result }
    ensures narrow { IfOk result IsNarrowFrontStatement }
{
    match word {
        FrontWord::Front => header_says(words),
        FrontWord::Outcome => outcome_says(words),
        FrontWord::Tree => tree_says(words),
        FrontWord::Foreign => Ok(FrontStatement::Foreign),
    }
}

/// What a line that both kinds have says here.
fn common_statement(statement: Statement) -> FrontStatement
    ensures { result ≡ common_statement statement }
{
    match statement {
        Statement::Point(named) => FrontStatement::Point(named),
        Statement::Cut(cut) => FrontStatement::Cut(cut),
        Statement::Node(node) => FrontStatement::Node(node),
        Statement::End => FrontStatement::End,
        Statement::Header | Statement::Claims(_) | Statement::Ray(_) | Statement::Foreign =>
            FrontStatement::Foreign,
    }
}

/// What a line says by its first word.
fn front_known_says(
    alloc: Global,
    word: Option<FrontWord>,
    line: &[u8],
    words: &[&[u8]],
) -> Result<FrontStatement, LineFault>
    ensures says { Says (front_known_says word line.now (map (λ word. word.now) words.now)) result }
    ensures narrow { IfOk result IsNarrowFrontStatement }
{
    let Some(word) = word else {
        return match line_says(alloc, line) {
            Ok(statement) => Ok(common_statement(statement)),
            Err(fault) => Err(fault),
        };
    };
    if begins_blank(line) {
        Err(LineFault::Code(2))
    } else if ends_blank(line) {
        Err(LineFault::Code(3))
    } else {
        front_word_says(word, words)
    }
}

/// What a line with these words says.
fn front_words_say(alloc: Global, line: &[u8], words: &[&[u8]]) -> Result<FrontStatement, LineFault>
    ensures says { Says (front_words_say line.now (map (λ word. word.now) words.now)) result }
    ensures narrow { IfOk result IsNarrowFrontStatement }
{
    let [first, more @ ..] = words else {
        return front_known_says(alloc, None, line, words);
    };
    front_known_says(alloc, front_word(first), line, more)
}

/// What a line says by itself.
pub(crate) fn front_line_says(alloc: Global, line: &[u8]) -> Result<FrontStatement, LineFault>
    ensures says { Says (front_line_says line.now) result }
    ensures narrow { IfOk result IsNarrowFrontStatement }
{
    let Ok(words) = words(alloc, line) else {
        return Err(LineFault::Memory);
    };
    front_words_say(alloc, line, &words)
}

/// Whether the first word is `front`.
fn has_front_word(words: &[&[u8]]) -> bool
    ensures { result ≡ has_front_word (map (λ word. word.now) words.now) }
{
    let [first, ..] = words else {
        return false;
    };
    is_word(b"front", first)
}

/// Whether the first word of the first line is `front`.
pub(crate) fn begin_front(alloc: Global, lines: &[&[u8]]) -> Result<bool, AllocError>
    ensures { IfOk result (λ front. front ≡ begin_front (map (λ line. line.now) lines.now)) }
{
    let [line, ..] = lines else {
        return Ok(false);
    };
    match words(alloc, line) {
        Ok(words) => Ok(has_front_word(&words)),
        Err(error) => Err(error),
    }
}
