// Whole numbers in the lines of rows, read digit by digit.

/// The number with one digit more. None past 2^64 - 1.
fn with_digit(value: u64, digit: u8) -> Option<u64> {
    match value.checked_mul(10) {
        Some(tens) => tens.checked_add(u64::from(digit)),
        None => None,
    }
}

/// Whether so many digits at the front write a number: one, or more with no zero before them.
fn are_number(text: &[u8], length: usize) -> bool {
    length == 1 || length > 1 && !text.starts_with(b"0")
}

/// The number at the front, and what stands behind it. None where no digit stands there, where a zero stands before
/// another digit, and past 2^64 - 1.
pub fn split_number(text: &[u8]) -> Option<(u64, &[u8])> {
    let mut value = 0u64;
    let mut length = 0usize;
    for byte in text {
        if !byte.is_ascii_digit() {
            break;
        }
        let Some(longer) = with_digit(value, *byte - b'0') else {
            return None;
        };
        value = longer;
        length = length.saturating_add(1);
    }
    if !are_number(text, length) {
        return None;
    }
    match text.get(length..) {
        Some(rest) => Some((value, rest)),
        None => None,
    }
}

/// The number that a text writes in decimal digits, without a sign and with no zero before it, up to 2^64 - 1.
pub fn number_of(text: &str) -> Option<u64> {
    match split_number(text.as_bytes()) {
        Some((value, [])) => Some(value),
        _ => None,
    }
}

/// The two numbers of `LOW..HIGH` at the front, LOW at most HIGH, and what stands behind them.
pub fn split_range(text: &[u8]) -> Option<(u64, u64, &[u8])> {
    let Some((low, after)) = split_number(text) else {
        return None;
    };
    let Some(behind) = after.strip_prefix(b"..") else {
        return None;
    };
    let Some((high, rest)) = split_number(behind) else {
        return None;
    };
    if low <= high {
        Some((low, high, rest))
    } else {
        None
    }
}
