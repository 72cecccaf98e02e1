// The multipliers on a leaf's line.
ghost use Rattle.std.specs.Prelude.{◌≡◌, ◌+◌, ◌-◌, ◌*◌, ◌<◌, ◌≤◌, ◌^◌, map, true, IfOk, MatchOption, Result, ℕ, List as Items};
ghost use Rattle.std.specs.List.{list_all};
ghost use Rattle.frac_text.specs.Parsing.{spelled_number};
ghost use Rattle.frac_text.specs.Spelling.{is_digit, value_of};
ghost use Rattle.cert_text.specs.declared.cert.CertMult.{CertMult as Multiplier};
ghost use Rattle.cert_text.specs.Mults.{are_plain_digits, number_of_cut, row_mult, cut_mult, mult_in, with_mult, mults_in};
ghost use Rattle.cert_text.specs.Reading.{Says, joined_items};

use crate::cert::CertMult;
use crate::line::LineFault;
use crate::named::{Gathered, number_code};
use frac_text::{has_digits_alone, is_digit_byte};
use lp_model::{List, Name};
use std::alloc::{AllocError, Global};
use text_lines::is_word;

/// Whether the word is decimal digits without a leading zero.
fn are_plain_digits(word: &[u8]) -> bool
    ensures { result ≡ are_plain_digits word.now }
{
    match word {
        [] => false,
        [byte] => is_digit_byte(*byte),
        [first, ..] => *first != b'0' && has_digits_alone(word),
    }
}

/// A number with one more digit, if 64 bits have room for it.
fn with_digit(value: u64, digit: u8) -> Option<u64>
    requires { is_digit digit ≡ true }
    ensures { MatchOption result (2 ^ 64 ≤ 10 * value + (digit - 48)) (λ n. n ≡ 10 * value + (digit - 48)) }
{
    let next = value.checked_mul(10)?.checked_add(u64::from(digit - b'0'))?;
    Some(next)
}

/// The number that digits stand for, if 64 bits have room for it.
fn value_of_digits(digits: &[u8]) -> Option<u64>
    requires { list_all is_digit digits.now ≡ true }
    ensures { MatchOption result (2 ^ 64 ≤ value_of digits.now) (λ n. n ≡ value_of digits.now) }
{
    let mut value = 0;
    let mut rest = digits;
    while let Some((digit, more)) = rest.split_first() {
        value = with_digit(value, *digit)?;
        rest = more;
    }
    Some(value)
}

/// The number of a cut, or the code of its fault.
pub fn number_of_cut(word: &[u8]) -> Result<u64, u8>
    ensures { result ≡ number_of_cut word.now }
{
    if !are_plain_digits(word) {
        return Err(4);
    }
    match value_of_digits(word) {
        Some(number) => Ok(number),
        None => Err(5),
    }
}

/// `row NAME V`, behind its first word.
fn row_mult(alloc: Global, name: &[u8], number: &[u8]) -> Result<CertMult, LineFault>
    ensures { Says (row_mult name.now (spelled_number number.now)) result }
{
    match frac_text::parse(number) {
        Ok(value) => match Name::from_slice(alloc, name) {
            Ok(name) => Ok(CertMult::Row(name, value)),
            Err(_) => Err(LineFault::Memory),
        },
        Err(fault) => Err(LineFault::Code(number_code(fault))),
    }
}

/// `cut K V`, behind its first word: the least code of both faults.
fn cut_mult(word: &[u8], number: &[u8]) -> Result<CertMult, LineFault>
    ensures { Says (cut_mult (number_of_cut word.now) (spelled_number number.now)) result }
{
    match number_of_cut(word) {
        Ok(cut) => match frac_text::parse(number) {
            Ok(value) => Ok(CertMult::Cut(cut, value)),
            Err(fault) => Err(LineFault::Code(number_code(fault))),
        },
        Err(code) => match frac_text::parse(number) {
            Ok(_) => Err(LineFault::Code(code)),
            Err(fault) => Err(LineFault::Code(code.min(number_code(fault)))),
        },
    }
}

/// `row NAME V` or `cut K V`.
fn mult_in(alloc: Global, key: &[u8], word: &[u8], number: &[u8]) -> Result<CertMult, LineFault>
    ensures { Says (mult_in key.now word.now number.now) result }
{
    if is_word(b"row", key) {
        row_mult(alloc, word, number)
    } else if is_word(b"cut", key) {
        cut_mult(word, number)
    } else {
        Err(LineFault::Code(3))
    }
}

/// One more multiplier.
fn add_mult(
    gathered: &mut Gathered<CertMult>,
    alloc: Global,
    key: &[u8],
    word: &[u8],
    number: &[u8],
) -> Result<(), AllocError>
    ensures { IfOk result (λ _. (rest : Result (Items Multiplier) ℕ) → joined_items gathered.old.least gathered.old.items (with_mult (mult_in key.now word.now number.now) rest) ≡ joined_items gathered.new.least gathered.new.items rest) }
{
    match mult_in(alloc, key, word, number) {
        Ok(mult) => gathered.add(mult),
        Err(LineFault::Code(code)) => {
            gathered.add_code(code);
            Ok(())
        }
        Err(LineFault::Memory) => Err(AllocError),
    }
}

/// `row NAME V` and `cut K V` any number of times.
pub(crate) fn mults_in(alloc: Global, words: &[&[u8]]) -> Result<List<CertMult>, LineFault>
    ensures { Says (mults_in (map (λ word. word.now) words.now)) result }
{
    let mut gathered = Gathered::new(alloc);
    let mut rest = words;
    while let [key, word, number, more @ ..] = rest {
        match add_mult(&mut gathered, alloc, key, word, number) {
            Ok(()) => rest = more,
            Err(_) => {
                drop(gathered);
                return Err(LineFault::Memory);
            }
        }
    }
    if rest.is_empty() {
        gathered.into_items()
    } else {
        drop(gathered);
        Err(LineFault::Code(3))
    }
}
