// What one line of a certificate's text says.
ghost use Rattle.std.specs.Prelude.{◌≡◌, ◌↔◌, map, pos, IfOk, IsTrue, Ok, Err};
ghost use Rattle.frac128.specs.Rational.{int, ◌≤ℚ◌};
ghost use Rattle.cert_text.specs.CutLines.{cut_line_in};
ghost use Rattle.cert_text.specs.Lines.{begins_blank, ends_blank, is_whole, word_of, word_behind_leaf, named_in, as_point, as_ray, as_cut, cert_says, claim_word, is_gap, within_claimed, claim_says, split_at, split_says, leaf_says, end_says, word_says, words_say, line_says};
ghost use Rattle.cert_text.specs.Reading.{Says};
ghost use Rattle.frac_text.specs.Parsing.{spelled_number};
ghost use Rattle.cert_text.specs.Whole.{IsLawfulStatement};

use crate::cert::{CertNode, Claim, NamedCut};
use crate::cut_line::cut_in;
use crate::mults::mults_in;
use crate::named::{named_in, number_code};
use frac_text::NumFault;
use frac128::Frac;
use lp_model::{List, Name};
use std::alloc::Global;
use text_lines::{is_blank_byte, is_word, words};

/// The first words that there are.
#[derive(Clone, Copy)]
pub enum LineWord {
    Cert,
    Claim,
    Point,
    Split,
    Leaf,
    End,
    Ray,
    Cut,
    /// A word of certificates of other kinds.
    Foreign,
}

/// What a line says.
#[derive(Drop)]
pub enum Statement {
    Header,
    Claims(Claim),
    Point(List<(Name, Frac)>),
    Node(CertNode),
    End,
    Ray(List<(Name, Frac)>),
    Cut(NamedCut),
    /// What has no place in a certificate of this kind.
    Foreign,
}

/// Why a line says nothing.
#[derive(Clone, Copy, Drop)]
pub enum LineFault {
    /// The least code of its faults, 2 to 5.
    Code(u8),
    /// There is no memory.
    Memory,
}

/// Whether the line begins with a blank.
pub fn begins_blank(line: &[u8]) -> bool
    ensures { result ≡ begins_blank line.now }
{
    match line.first() {
        Some(byte) => is_blank_byte(*byte),
        None => false,
    }
}

/// Whether the line ends with a blank.
pub fn ends_blank(line: &[u8]) -> bool
    ensures { result ≡ ends_blank line.now }
{
    match line.last() {
        Some(byte) => is_blank_byte(*byte),
        None => false,
    }
}

fn line_word(word: &[u8]) -> Option<LineWord>
    ensures { result ≡ word_of word.now }
{
    if is_word(b"cert", word) {
        Some(LineWord::Cert)
    } else if is_word(b"claim", word) {
        Some(LineWord::Claim)
    } else if is_word(b"point", word) {
        Some(LineWord::Point)
    } else if is_word(b"split", word) {
        Some(LineWord::Split)
    } else if is_word(b"leaf", word) {
        Some(LineWord::Leaf)
    } else {
        word_behind_leaf(word)
    }
}

/// The first word that a word is, where it is none up to `leaf`.
fn word_behind_leaf(word: &[u8]) -> Option<LineWord>
    ensures { result ≡ word_behind_leaf word.now }
{
    if is_word(b"end", word) {
        Some(LineWord::End)
    } else if is_word(b"ray", word) {
        Some(LineWord::Ray)
    } else if is_word(b"cut", word) {
        Some(LineWord::Cut)
    } else if is_word(b"front", word) || is_word(b"outcome", word) || is_word(b"tree", word) {
        Some(LineWord::Foreign)
    } else {
        None
    }
}

/// What `cert` with these further words says.
fn cert_says(words: &[&[u8]]) -> Result<Statement, LineFault>
    ensures says { Says (cert_says (map (λ word. word.now) words.now)) result }
    ensures narrow { IfOk result IsLawfulStatement }
{
    match words {
        [version] if is_word(b"1", version) => Ok(Statement::Header),
        _ => Err(LineFault::Code(3)),
    }
}

/// What `claim` with this one word says.
fn claim_word(kind: &[u8]) -> Result<Statement, LineFault>
    ensures says { Says (claim_word kind.now) result }
    ensures narrow { IfOk result IsLawfulStatement }
{
    if is_word(b"infeasible", kind) {
        Ok(Statement::Claims(Claim::Infeasible))
    } else if is_word(b"unbounded", kind) {
        Ok(Statement::Claims(Claim::Unbounded))
    } else {
        Err(LineFault::Code(3))
    }
}

/// Whether a number may be a gap: it is at least 0.
fn is_gap(number: &Frac) -> bool
    ensures test { result ≡ is_gap number.now }
    ensures decides { IsTrue result ↔ (int (pos 0) ≤ℚ number.now) }
{
    Frac::whole(0).is_at_most(number)
}

/// The least code of the line where the word for its gap is no number, and this word stands for its value.
fn gap_code(fault: NumFault, number: &[u8]) -> u8
    ensures { within_claimed (Err fault) (spelled_number number.now) ≡ Err result }
{
    let code = number_code(fault);
    match frac_text::parse(number) {
        Ok(_) => code,
        Err(other) => code.min(number_code(other)),
    }
}

/// What `claim within` with these two words says.
fn within_says(gap: &[u8], number: &[u8]) -> Result<Statement, LineFault>
    ensures says { Says (within_claimed (spelled_number gap.now) (spelled_number number.now)) result }
    ensures narrow { IfOk result IsLawfulStatement }
{
    match frac_text::parse(gap) {
        Err(fault) => Err(LineFault::Code(gap_code(fault, number))),
        Ok(gap) => {
            if !is_gap(&gap) {
                return Err(LineFault::Code(3));
            }
            match frac_text::parse(number) {
                Ok(value) => Ok(Statement::Claims(Claim::Within { gap, value })),
                Err(fault) => Err(LineFault::Code(number_code(fault))),
            }
        }
    }
}

/// What `claim` with these further words says.
fn claim_says(words: &[&[u8]]) -> Result<Statement, LineFault>
    ensures says { Says (claim_says (map (λ word. word.now) words.now)) result }
    ensures narrow { IfOk result IsLawfulStatement }
{
    match words {
        [kind] => claim_word(kind),
        [kind, number] if is_word(b"optimal", kind) => match frac_text::parse(number) {
            Ok(value) => Ok(Statement::Claims(Claim::Optimal(value))),
            Err(fault) => Err(LineFault::Code(number_code(fault))),
        },
        [kind, gap, number] if is_word(b"within", kind) => within_says(gap, number),
        _ => Err(LineFault::Code(3)),
    }
}

/// What `end` with these further words says.
fn end_says(words: &[&[u8]]) -> Result<Statement, LineFault>
    ensures says { Says (end_says (map (λ word. word.now) words.now)) result }
    ensures narrow { IfOk result IsLawfulStatement }
{
    match words {
        [] => Ok(Statement::End),
        _ => Err(LineFault::Code(3)),
    }
}

/// What `split` with these further words says.
fn split_says(alloc: Global, words: &[&[u8]]) -> Result<Statement, LineFault>
    ensures says { Says (split_says (map (λ word. word.now) words.now)) result }
    ensures narrow { IfOk result IsLawfulStatement }
{
    let [name, number] = words else {
        return Err(LineFault::Code(3));
    };
    match frac_text::parse(number) {
        Ok(value) => split_at(alloc, name, &value),
        Err(fault) => Err(LineFault::Code(number_code(fault))),
    }
}

/// The split of a column at a number.
fn split_at(alloc: Global, name: &[u8], value: &Frac) -> Result<Statement, LineFault>
    ensures says { Says (split_at name.now (Ok value.now)) result }
    ensures narrow { IfOk result IsLawfulStatement }
{
    if !is_whole(value) {
        return Err(LineFault::Code(3));
    }
    value.has_room();
    let v = value.numerator();
    if v == i128::MAX {
        return Err(LineFault::Code(5));
    }
    match Name::from_slice(alloc, name) {
        Ok(col) => Ok(Statement::Node(CertNode::Split { col, v })),
        Err(_) => Err(LineFault::Memory),
    }
}

fn is_whole(value: &Frac) -> bool
    ensures { result ≡ is_whole value.now }
{
    value.denominator() == 1
}

/// What `leaf` with these further words says.
fn leaf_says(alloc: Global, words: &[&[u8]]) -> Result<Statement, LineFault>
    ensures says { Says (leaf_says (map (λ word. word.now) words.now)) result }
    ensures narrow { IfOk result IsLawfulStatement }
{
    let [kind, more @ ..] = words else {
        return Err(LineFault::Code(3));
    };
    if is_word(b"bound", kind) {
        return match mults_in(alloc, more) {
            Ok(mults) => Ok(Statement::Node(CertNode::Bound(mults))),
            Err(fault) => Err(fault),
        };
    }
    if is_word(b"farkas", kind) {
        return match mults_in(alloc, more) {
            Ok(mults) => Ok(Statement::Node(CertNode::Farkas(mults))),
            Err(fault) => Err(fault),
        };
    }
    if is_word(b"empty", kind) && more.is_empty() {
        return Ok(Statement::Node(CertNode::Empty));
    }
    Err(LineFault::Code(3))
}

/// What `point` with these further words says.
fn point_says(alloc: Global, words: &[&[u8]]) -> Result<Statement, LineFault>
    ensures says { Says (as_point (named_in (map (λ word. word.now) words.now))) result }
    ensures narrow { IfOk result IsLawfulStatement }
{
    match named_in(alloc, words) {
        Ok(named) => Ok(Statement::Point(named)),
        Err(fault) => Err(fault),
    }
}

/// What `ray` with these further words says.
fn ray_says(alloc: Global, words: &[&[u8]]) -> Result<Statement, LineFault>
    ensures says { Says (as_ray (named_in (map (λ word. word.now) words.now))) result }
    ensures narrow { IfOk result IsLawfulStatement }
{
    match named_in(alloc, words) {
        Ok(named) => Ok(Statement::Ray(named)),
        Err(fault) => Err(fault),
    }
}

/// What `cut` with these further words says.
fn cut_says(alloc: Global, words: &[&[u8]]) -> Result<Statement, LineFault>
    ensures says { Says (as_cut (cut_line_in (map (λ word. word.now) words.now))) result }
    ensures narrow { IfOk result IsLawfulStatement }
{
    match cut_in(alloc, words) {
        Ok(cut) => Ok(Statement::Cut(cut)),
        Err(fault) => Err(fault),
    }
}

/// What a known first word with these further words says.
fn word_says(alloc: Global, word: LineWord, words: &[&[u8]]) -> Result<Statement, LineFault>
    ensures says { Says (word_says word (map (λ word. word.now) words.now)) result }
    ensures narrow { IfOk result IsLawfulStatement }
{
    match word {
        LineWord::Cert => cert_says(words),
        LineWord::Claim => claim_says(words),
        LineWord::Point => point_says(alloc, words),
        LineWord::Split => split_says(alloc, words),
        LineWord::Leaf => leaf_says(alloc, words),
        LineWord::End => end_says(words),
        LineWord::Ray => ray_says(alloc, words),
        LineWord::Cut => cut_says(alloc, words),
        LineWord::Foreign => Ok(Statement::Foreign),
    }
}

/// What words say, in a line that ends with a blank or not.
fn words_say(alloc: Global, blank: bool, words: &[&[u8]]) -> Result<Statement, LineFault>
    ensures says { Says (words_say blank (map (λ word. word.now) words.now)) result }
    ensures narrow { IfOk result IsLawfulStatement }
{
    let [first, more @ ..] = words else {
        return Err(LineFault::Code(2));
    };
    match line_word(first) {
        None => Err(LineFault::Code(2)),
        Some(_) if blank => Err(LineFault::Code(3)),
        Some(word) => word_says(alloc, word, more),
    }
}

/// What a line says by itself.
pub fn line_says(alloc: Global, line: &[u8]) -> Result<Statement, LineFault>
    ensures says { Says (line_says line.now) result }
    ensures narrow { IfOk result IsLawfulStatement }
{
    if begins_blank(line) {
        return Err(LineFault::Code(2));
    }
    let Ok(words) = words(alloc, line) else {
        return Err(LineFault::Memory);
    };
    words_say(alloc, ends_blank(line), &words)
}
