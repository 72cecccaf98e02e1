// What the calls of fractions answer.
use crate::sums::sum_of;
use crate::words::{fault, number_of, number_text, told, words_of};
use anyhow::{Result, bail};
use frac_text::{NumFault, Numeral, Side};
use frac128::Frac;
use std::alloc::{AllocError, Global};
use std::cmp::Ordering;

/// The answer to a question of this first word and the words behind it.
pub fn answer_to(alloc: Global, call: &str, text: &str) -> Result<String> {
    match call {
        "parse" => Ok(parsed(alloc, text)?),
        "numeral" => Ok(numeral(alloc, text)?),
        _ => answer_to_text(alloc, call, text),
    }
}

fn answer_to_text(alloc: Global, call: &str, text: &str) -> Result<String> {
    let words = words_of(alloc, text)?;
    let answer = answer_to_words(alloc, call, &words);
    drop(words);
    answer
}

fn answer_to_words(alloc: Global, first: &str, words: &[&str]) -> Result<String> {
    match words {
        [start, products @ ..] if first == "sum" => sum_of(alloc, start, products),
        [word] => of_word(alloc, first, word),
        [sign, right] => of_words(alloc, first, sign, right),
        [sign, factor, times, number] if *sign == "+" && *times == "*" => {
            sum_with_product(alloc, first, factor, number)
        }
        _ => Err(fault("no question", first)),
    }
}

/// The answer to a question with one word behind the first.
fn of_word(alloc: Global, call: &str, word: &str) -> Result<String> {
    match call {
        "whole" => whole(alloc, word),
        "of_whole" => of_whole(alloc, word),
        _ => {
            let number = number_of(word)?;
            of_one(alloc, call, &number)
        }
    }
}

/// The answer to a question with two words behind the first.
fn of_words(alloc: Global, first: &str, sign: &str, right: &str) -> Result<String> {
    if first == "new" {
        return new_fraction(alloc, sign, right);
    }
    let left = number_of(first)?;
    let right = number_of(right)?;
    of_two(alloc, &left, sign, &right)
}

fn fault_text(fault: NumFault) -> &'static str {
    match fault {
        NumFault::Wide => "wide",
        NumFault::NotNumber => "no number",
    }
}

/// What `frac_text::parse` answers.
fn parsed(alloc: Global, text: &str) -> Result<String, AllocError> {
    match frac_text::parse(text.as_bytes()) {
        Ok(number) => number_text(alloc, &number),
        Err(fault) => String::from_str(alloc, fault_text(fault)),
    }
}

fn side_text(side: Side) -> &'static str {
    match side {
        Side::Above => "above",
        Side::Between => "between",
        Side::Below => "below",
    }
}

/// What `Numeral::of` answers.
fn numeral(alloc: Global, text: &str) -> Result<String, AllocError> {
    match &Numeral::of(text.as_bytes()) {
        Numeral::Number(number) => number_text(alloc, number),
        Numeral::Wide(side) => String::from_str(alloc, side_text(*side)),
        Numeral::NotNumber => String::from_str(alloc, "no number"),
    }
}

/// The whole number that a word spells.
fn whole_of(word: &str) -> Result<i128> {
    Ok(word.parse::<i128>()?)
}

fn new_fraction(alloc: Global, top: &str, bottom: &str) -> Result<String> {
    let top = whole_of(top)?;
    let bottom = whole_of(bottom)?;
    if bottom == 0 {
        bail!("the denominator is 0");
    }
    Ok(told(alloc, &Frac::new(top, bottom))?)
}

fn whole(alloc: Global, word: &str) -> Result<String> {
    let number = word.parse::<i64>()?;
    let number = Frac::whole(number);
    Ok(number_text(alloc, &number)?)
}

fn of_whole(alloc: Global, word: &str) -> Result<String> {
    let whole = whole_of(word)?;
    if whole == i128::MIN {
        bail!("{word} is too wide");
    }
    let number = Frac::of_whole(whole);
    Ok(number_text(alloc, &number)?)
}

fn sign_of(number: &Frac) -> &'static str {
    match (number.is_negative(), number.is_zero(), number.is_positive()) {
        (true, false, false) => "negative",
        (false, true, false) => "zero",
        (false, false, true) => "positive",
        _ => "no sign",
    }
}

fn truth(holds: bool) -> &'static str {
    if holds { "true" } else { "false" }
}

/// What `write_to` puts behind a text.
fn written(alloc: Global, number: &Frac) -> Result<String> {
    let mut text = Vec::from_slice(alloc, b"x = ")?;
    number.write_to(&mut text)?;
    Ok(String::from_str(alloc, str::from_utf8(&text)?)?)
}

fn number_told(alloc: Global, number: &Frac) -> Result<String> {
    number.has_room();
    Ok(number_text(alloc, number)?)
}

fn whole_told(alloc: Global, number: i128) -> Result<String> {
    Ok(format!(in alloc; "{number}")?)
}

fn parts_told(alloc: Global, number: &Frac) -> Result<String> {
    let top = number.numerator();
    let bottom = number.denominator();
    Ok(format!(in alloc; "{top} {bottom}")?)
}

/// What a call of one number answers in words.
fn word_told(alloc: Global, call: &str, number: &Frac) -> Result<String, AllocError> {
    match call {
        "sign" => String::from_str(alloc, sign_of(number)),
        _ => String::from_str(alloc, truth(number.is_whole())),
    }
}

/// What a call of one number answers.
fn of_one(alloc: Global, call: &str, number: &Frac) -> Result<String> {
    match call {
        "neg" => number_told(alloc, &number.neg()),
        "reciprocal" if !number.is_zero() => number_told(alloc, &number.reciprocal()),
        "floor" => whole_told(alloc, number.floor()),
        "ceil" => whole_told(alloc, number.ceil()),
        "parts" => parts_told(alloc, number),
        "sign" | "is_whole" => Ok(word_told(alloc, call, number)?),
        "write" => written(alloc, number),
        _ => Err(fault("no call of one number", call)),
    }
}

fn order_of(left: &Frac, right: &Frac) -> &'static str {
    match left.cmp(right) {
        Ordering::Less => "less",
        Ordering::Equal => "equal",
        Ordering::Greater => "greater",
    }
}

/// What a sum, a difference or a product of two numbers answers.
fn computed(alloc: Global, left: &Frac, sign: &str, right: &Frac) -> Result<String, AllocError> {
    match sign {
        "+" => told(alloc, &left.add(right)),
        "-" => told(alloc, &left.sub(right)),
        _ => told(alloc, &left.mul(right)),
    }
}

/// What a comparison of two numbers answers.
fn compared(alloc: Global, left: &Frac, sign: &str, right: &Frac) -> Result<String, AllocError> {
    match sign {
        "against" => String::from_str(alloc, order_of(left, right)),
        "<" => String::from_str(alloc, truth(*left < *right)),
        _ => String::from_str(alloc, truth(*left == *right)),
    }
}

/// What a call of two numbers answers.
fn of_two(alloc: Global, left: &Frac, sign: &str, right: &Frac) -> Result<String> {
    match sign {
        "+" | "-" | "*" => Ok(computed(alloc, left, sign, right)?),
        "/" if !right.is_zero() => Ok(told(alloc, &left.div(right))?),
        "against" | "<" | "==" => Ok(compared(alloc, left, sign, right)?),
        _ => Err(fault("no call of two numbers", sign)),
    }
}

/// What `add_product` answers.
fn sum_with_product(alloc: Global, total: &str, factor: &str, number: &str) -> Result<String> {
    let total = number_of(total)?;
    let factor = number_of(factor)?;
    let number = number_of(number)?;
    Ok(told(alloc, &total.add_product(&factor, &number))?)
}
