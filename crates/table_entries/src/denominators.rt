// A denominator after an exchange, as low as it may be. Nothing is said of it: it is tried.
ghost use Rattle.std.specs.Prelude.{◌≡◌, ◌<◌, ◌*◌, ◌^◌, ◌<ℤ◌, pos, length};
ghost use Rattle.table_entries.specs.WholeSteps.{IsShort};

use crate::entries::flat_index;
use crate::wholes::is_unwritten;
use whole_sums::SHORT_LIMIT;

/// The greatest common divisor, by differences and halves.
fn shared(first: u64, second: u64) -> u64 {
    if first == 0 {
        return second;
    }
    if second == 0 {
        return first;
    }
    let twos = (first | second).trailing_zeros() % 64;
    let mut odd = first >> (first.trailing_zeros() % 64);
    let mut other = second;
    for _ in 0..128 {
        if other == 0 {
            return odd << twos;
        }
        let half = other >> (other.trailing_zeros() % 64);
        other = odd.abs_diff(half);
        if half < odd {
            odd = half;
        }
    }
    1
}

/// The quotient, or the number where there is none.
fn without(number: u64, divisor: u64) -> u64 {
    if divisor == 0 {
        return number;
    }
    number / divisor
}

/// Whether the number is a multiple.
fn is_multiple(number: u64, divisor: u64) -> bool {
    if divisor == 0 {
        return false;
    }
    number % divisor == 0
}

/// The product, or 0 where it is too long.
fn within(first: u64, second: u64) -> u64 {
    match first.checked_mul(second) {
        Some(number) => number,
        None => 0,
    }
}

/// The least common multiple, or 0 where it is too long.
fn multiple(first: u64, second: u64) -> u64 {
    if is_multiple(first, second) {
        return first;
    }
    within(without(first, shared(first, second)), second)
}

/// A number by which others are tested: its odd part is inverted modulo 2^64 by Newton's method.
#[derive(Clone, Copy)]
struct Divisor {
    number: u64,
    inverse: u64,
    twos: u32,
}

/// The divisor that a number is.
fn divisor_of(number: u64) -> Divisor {
    let twos = number.trailing_zeros();
    let odd = number >> (twos % 64);
    let mut inverse = odd;
    for _ in 0..5 {
        inverse = inverse.wrapping_mul(2_u64.wrapping_sub(odd.wrapping_mul(inverse)));
    }
    Divisor {
        number,
        inverse,
        twos,
    }
}

/// Whether a number is a multiple of the divisor.
#[inline]
fn is_divided(number: u64, divisor: &Divisor) -> bool {
    let quotient = (number >> (divisor.twos % 64)).wrapping_mul(divisor.inverse);
    match quotient.checked_mul(divisor.number) {
        Some(product) => product == number,
        None => false,
    }
}

/// What the numbers of a row, but for that of a place, share with a number.
fn shared_by_row(
    rows: usize,
    columns: usize,
    numbers: &[i64],
    row: usize,
    but: usize,
    number: u64,
) -> u64
    requires row { row < rows }
    requires size { length numbers.now ≡ rows * columns }
{
    let mut found = divisor_of(number);
    for place in 0..columns {
        if found.number == 1 {
            return 1;
        }
        let here = numbers[flat_index(rows, columns, row, place)].unsigned_abs();
        if here != 0 && place != but && !is_divided(here, &found) {
            found = divisor_of(shared(here, found.number));
        }
    }
    found.number
}

/// What all numbers share with a number.
fn shared_by_all(
    rows: usize,
    columns: usize,
    numbers: &[i64],
    unwritten: &[bool],
    number: u64,
) -> u64
    requires size { length numbers.now ≡ rows * columns }
{
    let mut found = number;
    for row in 0..rows {
        if found == 1 {
            return 1;
        }
        if !is_unwritten(unwritten, row) {
            found = shared_by_row(rows, columns, numbers, row, columns, found);
        }
    }
    found
}

/// A multiple of the denominator of a row after the exchange: what is taken from its entries is `in_place` times the numbers of the
/// leaving row, of which `in_row` is the greatest divisor, over `denominator * pivot`.
fn with_row(after: u64, denominator: u64, pivot: u64, in_row: u64, in_place: u64) -> u64 {
    let common = shared(in_place, pivot);
    let scale = without(pivot, common);
    let factor = without(in_place, common);
    let first = shared(in_row, scale);
    let rest = without(in_row, first);
    let second = without(denominator, shared(rest, denominator));
    let third = without(second, shared(factor, second));
    let taken = within(third, without(scale, first));
    multiple(multiple(after, taken), scale)
}

/// A multiple of the denominators of all rows after the exchange.
fn with_rows(
    rows: usize,
    columns: usize,
    row: usize,
    place: usize,
    denominator: u64,
    numbers: &[i64],
    unwritten: &[bool],
) -> u64
    requires row { row < rows }
    requires place { place < columns }
    requires size { length numbers.now ≡ rows * columns }
{
    let pivot = numbers[flat_index(rows, columns, row, place)].unsigned_abs();
    let all = shared_by_all(rows, columns, numbers, unwritten, denominator);
    let in_row = shared_by_row(rows, columns, numbers, row, place, 0);
    let own = without(pivot, shared(pivot, shared(in_row, denominator)));
    let mut after = multiple(without(denominator, all), own);
    for at_row in 0..rows {
        let in_place = numbers[flat_index(rows, columns, at_row, place)].unsigned_abs();
        if at_row != row && in_place != 0 && !is_unwritten(unwritten, at_row) {
            after = with_row(after, denominator, pivot, in_row, in_place);
        }
    }
    after
}

/// A denominator over which the entries after the exchange of a row and a place should be whole numbers, 1 where none was found.
pub fn denominator_after(
    rows: usize,
    columns: usize,
    row: usize,
    place: usize,
    denominator: u64,
    numbers: &[i64],
    unwritten: &[bool],
) -> i64
    requires row { row < rows }
    requires place { place < columns }
    requires size { length numbers.now ≡ rows * columns }
    ensures positive { pos 0 <ℤ result }
    ensures short { IsShort result }
{
    let after = with_rows(rows, columns, row, place, denominator, numbers, unwritten);
    if 0 < after && after < SHORT_LIMIT.unsigned_abs() {
        after as i64
    } else {
        1
    }
}
