// The number that digits stand for.
ghost use Rattle.std.specs.Prelude.{◌≡◌, ◌≢◌, ◌↔◌, ◌+◌, ◌-◌, ◌*◌, ◌<◌, ◌≤◌, ◌++◌, length, IsTrue, MatchOption, true};
ghost use Rattle.std.specs.List.{list_all};
ghost use Rattle.std.specs.Ordering.{nat_cmp};
ghost use Rattle.frac128.specs.Range.{largest};
ghost use Rattle.frac_text.specs.private.Sides.{IsTrimmed, HasDigits};
ghost use Rattle.frac_text.specs.Spelling.{are_digits, is_digit, is_empty, value_of, value_behind, without_zeros};

use frac128::LARGEST;
use std::cmp::Ordering;

/// Whether the byte is a decimal digit.
pub fn is_digit_byte(byte: u8) -> bool
    ensures { result ≡ is_digit byte }
{
    b'0' <= byte && byte <= b'9'
}

pub(crate) fn has_no_byte(bytes: &[u8]) -> bool
    ensures { result ≡ is_empty bytes.now }
{
    match bytes {
        [] => true,
        [_, ..] => false,
    }
}

/// Whether each byte is a decimal digit.
pub fn has_digits_alone(bytes: &[u8]) -> bool
    ensures { result ≡ list_all is_digit bytes.now }
{
    for index in 0..bytes.len() {
        if !is_digit_byte(bytes[index]) {
            return false;
        }
    }
    true
}

/// Whether there is a byte, and each is a digit.
pub(crate) fn are_all_digits(bytes: &[u8]) -> bool
    ensures { result ≡ are_digits bytes.now }
{
    !has_no_byte(bytes) && has_digits_alone(bytes)
}

/// Whether the digits stand for 0.
pub(crate) fn has_zeros_alone(digits: &[u8]) -> bool
    requires { list_all is_digit digits.now ≡ true }
    ensures { IsTrue result ↔ value_of digits.now ≡ 0 }
{
    match value_of_digits(digits) {
        Some(value) => value == 0,
        None => false,
    }
}

/// A number with one more digit, if it has room.
fn with_digit(value: u128, digit: u8) -> Option<u128>
    requires { is_digit digit ≡ true }
    ensures { MatchOption result (largest < 10 * value + (digit - 48)) (λ n. (n ≡ 10 * value + (digit - 48)) × (n ≤ largest)) }
{
    let Some(tenfold) = value.checked_mul(10) else {
        return None;
    };
    let Some(next) = tenfold.checked_add(u128::from(digit - b'0')) else {
        return None;
    };
    if next > LARGEST { None } else { Some(next) }
}

/// The number that digits stand for behind those of a number, if it has room.
pub(crate) fn value_with_digits(front: u128, digits: &[u8]) -> Option<u128>
    requires digits { list_all is_digit digits.now ≡ true }
    requires room { front ≤ largest }
    ensures { MatchOption result (largest < value_behind front digits.now) (λ n. (n ≡ value_behind front digits.now) × (n ≤ largest)) }
{
    let mut value = front;
    let mut rest = digits;
    while let Some((digit, more)) = rest.split_first() {
        let Some(next) = with_digit(value, *digit) else {
            return None;
        };
        value = next;
        rest = more;
    }
    Some(value)
}

/// The number that digits stand for, if it has room.
pub(crate) fn value_of_digits(digits: &[u8]) -> Option<u128>
    requires { list_all is_digit digits.now ≡ true }
    ensures { MatchOption result (largest < value_of digits.now) (λ n. (n ≡ value_of digits.now) × (n ≤ largest)) }
{
    value_with_digits(0, digits)
}

/// The digits without the zeros at their end.
pub(crate) fn without_end_zeros(digits: &[u8]) -> &[u8]
    ensures { result.now ≡ without_zeros digits.now }
{
    let mut rest = digits;
    while let Some((last, front)) = rest.split_last() {
        if *last != b'0' {
            return rest;
        }
        rest = front;
    }
    rest
}

/// The digits without the zeros in front.
fn without_front_zeros(digits: &[u8]) -> &[u8]
    requires { list_all is_digit digits.now ≡ true }
    ensures value { value_of result.now ≡ value_of digits.now }
    ensures digits { list_all is_digit result.now ≡ true }
    ensures trimmed { IsTrimmed result.now }
{
    let mut rest = digits;
    while let Some((first, more)) = rest.split_first() {
        if *first != b'0' {
            return rest;
        }
        rest = more;
    }
    rest
}

/// How many digits the number has that two runs of digits stand for, none of them for 0.
pub(crate) fn significant(front: &[u8], back: &[u8]) -> u64
    requires front { list_all is_digit front.now ≡ true }
    requires back { list_all is_digit back.now ≡ true }
    ensures { HasDigits (value_of (front.now ++ back.now)) result }
{
    let trimmed = without_front_zeros(front);
    if has_no_byte(trimmed) {
        without_front_zeros(back).len() as u64
    } else {
        trimmed.len() as u64 + back.len() as u64
    }
}

/// The last digit, 0 where there is none, and the digits in front of it.
fn without_last(digits: &[u8]) -> (&[u8], u8)
    requires { list_all is_digit digits.now ≡ true }
    ensures value { value_of digits.now ≡ 10 * value_of result.0.now + result.1 }
    ensures digit { result.1 < 10 }
    ensures front { list_all is_digit result.0.now ≡ true }
    ensures shorter { length result.0.now ≡ length digits.now - 1 }
{
    match digits.split_last() {
        Some((last, front)) => (front, *last - b'0'),
        None => (digits, 0),
    }
}

/// The numbers of two runs of digits against each other, however many the digits are.
pub(crate) fn compare_digits(left: &[u8], right: &[u8]) -> Ordering
    requires left { list_all is_digit left.now ≡ true }
    requires right { list_all is_digit right.now ≡ true }
    ensures { result ≡ nat_cmp (value_of left.now) (value_of right.now) }
{
    let mut order = Ordering::Equal;
    let mut left_rest = left;
    let mut right_rest = right;
    while !left_rest.is_empty() || !right_rest.is_empty() {
        let (left_front, left_last) = without_last(left_rest);
        let (right_front, right_last) = without_last(right_rest);
        order = left_last.cmp(&right_last).then(order);
        left_rest = left_front;
        right_rest = right_front;
    }
    order
}
