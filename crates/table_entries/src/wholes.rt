// Entries that are whole numbers over one common denominator.
ghost use Rattle.std.specs.Prelude.{◌≡◌, ◌≢◌, ◌<◌, ◌≤◌, ◌+◌, ◌*◌, ◌^◌, ◌<ℤ◌, ◌-ℤ◌, ◌*ℤ◌, ℕ, ℤ, pos, true, false, length, unsigned_abs, IsTrue, IfSome};
ghost use Rattle.table_entries.specs.WholeSteps.{IsShort, magnitude, by_sign, whole_number_at, is_unwritten, AreShort, AreWritten, AreWithin};
ghost use Rattle.table_entries.specs.private.LeftRows.{IsWholeLeft, AreLeft};
ghost use Rattle.table_entries.specs.private.Ways.{Has32Bits, IsWay32, IsRatio, IsWay, divided};

use crate::entries::flat_index;
use crate::table_entries::fraction;
use whole_sums::{SHORT_LIMIT, product, short_number};

/// The number with the sign of the pivot.
#[inline]
pub fn by_sign(pivot: i64, number: i64) -> i64
    requires { IsShort number }
    ensures { result ≡ by_sign pivot number }
{
    if pivot < 0 { -number } else { number }
}

/// The number by which a quotient is guessed: the denominator without its factors 2, inverted modulo 2^64 by Newton's
/// method, and how many those factors are. A guess is tested by a product, so nothing rests on it but speed.
#[derive(Clone, Copy)]
pub struct Inverse {
    factor: u64,
    shift: u32,
    ghost small: { shift < 128 },
}

impl Inverse {
    /// The inverse of a denominator.
    pub fn of(denominator: i64) -> Inverse
        requires { pos 0 <ℤ denominator }
    {
        let shift = denominator.trailing_zeros();
        let odd = denominator.cast_unsigned() >> (shift % 64);
        let mut factor = odd;
        for _ in 0..5 {
            factor = factor.wrapping_mul(2_u64.wrapping_sub(odd.wrapping_mul(factor)));
        }
        Inverse { factor, shift }
    }

    /// The quotient of a number of 64 bits, where the division is exact.
    #[inline(always)]
    pub fn guess_64(&self, number: i64) -> i64 {
        let low = (number >> (self.shift % 64)).cast_unsigned();
        low.wrapping_mul(self.factor).cast_signed()
    }

    /// The quotient, where the division is exact and the quotient has 64 bits.
    #[inline]
    pub fn guess(&self, number: i128) -> i64 {
        let low = (number >> (self.shift % 64)).cast_unsigned() % (1 << 64);
        (low as u64).wrapping_mul(self.factor).cast_signed()
    }
}

/// The quotient, if the division is exact and it is short, where the inverse is that of the divisor. None says nothing of it.
#[inline(always)]
pub fn exact_quotient(number: i128, divisor: i64, inverse: &Inverse) -> Option<i64>
    requires divisor { IsShort divisor }
    ensures product { IfSome result (λ q. q *ℤ divisor ≡ number) }
    ensures short { IfSome result (λ q. IsShort q) }
{
    if divisor == 1 {
        return short_number(number);
    }
    let quotient = inverse.guess(number);
    if -SHORT_LIMIT < quotient && quotient < SHORT_LIMIT && product(quotient, divisor) == number {
        Some(quotient)
    } else {
        None
    }
}

/// A fraction in lowest terms.
#[derive(Clone, Copy)]
struct Ratio {
    top: i64,
    bottom: i64,
}

/// The number by the denominator in lowest terms.
fn lowest(number: i64, denominator: i64) -> Option<Ratio>
    requires number { IsShort number }
    requires denominator { IsShort denominator }
    requires positive { pos 0 <ℤ denominator }
    ensures { IfSome result (λ q. IsRatio number denominator q.top q.bottom) }
{
    let value = fraction(number, denominator);
    value.has_room();
    let Some(top) = short_number(value.numerator()) else {
        return None;
    };
    let Some(bottom) = short_number(value.denominator()) else {
        return None;
    };
    Some(Ratio { top, bottom })
}

/// How the numbers of a row after an exchange come from those before it: `(entry * scale - factor * in_row) / divisor *
/// multiplier`, and in the entering place `factor * denominator / divisor * multiplier`.
#[derive(Clone, Copy)]
pub struct Way {
    pub factor: i64,
    pub scale: i64,
    pub divisor: i64,
    pub multiplier: i64,
}

/// The way of the leaving row.
fn leaving_way(denominator: i64, after: i64, pivot: i64, in_place: i64) -> Option<Way>
    requires some { pivot ≢ pos 0 }
    requires after { IsShort after }
    requires pivot { IsShort pivot }
    ensures { IfSome result (λ w. IsWay true denominator after pivot in_place w.factor w.scale w.divisor w.multiplier) }
{
    let magnitude = pivot.abs();
    let factor = by_sign(pivot, 1);
    if after == magnitude {
        return Some(Way {
            factor,
            scale: 0,
            divisor: 1,
            multiplier: 1,
        });
    }
    let Some(found) = lowest(after, magnitude) else {
        return None;
    };
    Some(Way {
        factor,
        scale: 0,
        divisor: found.bottom,
        multiplier: found.top,
    })
}

/// The way of another row where the denominator is the pivot's magnitude, or stays: then there is nothing to be found.
fn plain_way(denominator: i64, after: i64, pivot: i64, in_place: i64) -> Option<Way>
    requires some { pivot ≢ pos 0 }
    requires positive { pos 0 <ℤ denominator }
    requires denominator { IsShort denominator }
    requires after { IsShort after }
    requires pivot { IsShort pivot }
    requires in_place { IsShort in_place }
    ensures { IfSome result (λ w. IsWay false denominator after pivot in_place w.factor w.scale w.divisor w.multiplier) }
{
    let magnitude = pivot.abs();
    let factor = by_sign(pivot, in_place);
    if after == magnitude {
        return Some(Way {
            factor,
            scale: magnitude,
            divisor: denominator,
            multiplier: 1,
        });
    }
    if after == denominator {
        return Some(Way {
            factor,
            scale: magnitude,
            divisor: magnitude,
            multiplier: 1,
        });
    }
    None
}

/// The way of another row over any denominator.
fn lowest_way(denominator: i64, after: i64, pivot: i64, in_place: i64) -> Option<Way>
    requires some { pivot ≢ pos 0 }
    requires positive { pos 0 <ℤ denominator }
    requires denominator { IsShort denominator }
    requires after { IsShort after }
    requires pivot { IsShort pivot }
    requires in_place { IsShort in_place }
    ensures { IfSome result (λ w. IsWay false denominator after pivot in_place w.factor w.scale w.divisor w.multiplier) }
{
    let Some(taken) = lowest(in_place, pivot.abs()) else {
        return None;
    };
    let Some(first) = lowest(after, taken.bottom) else {
        return None;
    };
    let Some(second) = lowest(first.top, denominator) else {
        return None;
    };
    let Some(divisor) = short_number(product(first.bottom, second.bottom)) else {
        return None;
    };
    Some(Way {
        factor: by_sign(pivot, taken.top),
        scale: taken.bottom,
        divisor,
        multiplier: second.top,
    })
}

/// The way of a row in the exchange of a pivot from a denominator to another one, if there is one.
pub fn way_of(is_row: bool, denominator: i64, after: i64, pivot: i64, in_place: i64) -> Option<Way>
    requires some { pivot ≢ pos 0 }
    requires positive { pos 0 <ℤ denominator }
    requires denominator { IsShort denominator }
    requires after { IsShort after }
    requires pivot { IsShort pivot }
    requires in_place { IsShort in_place }
    ensures { IfSome result (λ w. IsWay is_row denominator after pivot in_place w.factor w.scale w.divisor w.multiplier) }
{
    if is_row {
        return leaving_way(denominator, after, pivot, in_place);
    }
    match plain_way(denominator, after, pivot, in_place) {
        Some(way) => Some(way),
        None => lowest_way(denominator, after, pivot, in_place),
    }
}

/// Whether an entry from which nothing is taken keeps its number: it is 0, or scaled by 1.
#[inline]
pub fn is_scaled_by_one(way: &Way, entry: i64) -> bool
    ensures { IsTrue result → entry *ℤ way.now.divisor ≡ entry *ℤ way.now.scale *ℤ way.now.multiplier }
{
    if entry == 0 {
        return true;
    }
    if way.divisor != way.scale {
        return false;
    }
    if way.multiplier != 1 {
        return false;
    }
    true
}

/// Whether an entry outside the entering place keeps its number. In sparse tables most do.
#[inline]
fn is_kept(way: &Way, in_row: i64, entry: i64) -> bool
    ensures { IsTrue result → entry *ℤ way.now.divisor ≡ (entry *ℤ way.now.scale -ℤ way.now.factor *ℤ in_row) *ℤ way.now.multiplier }
{
    if way.factor == 0 {
        return is_scaled_by_one(way, entry);
    }
    if in_row == 0 {
        return is_scaled_by_one(way, entry);
    }
    false
}

/// The total divided and multiplied, if the division is exact and the number is short.
#[inline(always)]
pub fn scaled(total: i128, way: &Way, inverse: &Inverse) -> Option<i64>
    requires divisor { IsShort way.now.divisor }
    requires multiplier { IsShort way.now.multiplier }
    ensures short { IfSome result (λ n. IsShort n) }
    ensures product { IfSome result (λ n. n *ℤ way.now.divisor ≡ total *ℤ way.now.multiplier) }
{
    let Some(quotient) = exact_quotient(total, way.divisor, inverse) else {
        return None;
    };
    if way.multiplier == 1 {
        return Some(quotient);
    }
    short_number(product(quotient, way.multiplier))
}

/// The difference of two products of numbers below this has 64 bits.
const LIMIT_32: i64 = 1 << 31;

/// Whether the number is so small that the difference of two products of such numbers has 64 bits.
#[inline(always)]
pub fn has_32_bits(number: i64) -> bool
    ensures { IsTrue result → Has32Bits number }
{
    -LIMIT_32 < number && number < LIMIT_32
}

/// Whether two numbers have 32 bits, by one test: this is asked of each entry.
#[inline(always)]
pub fn are_32(first: i64, second: i64) -> bool
    ensures first { IsTrue result → Has32Bits first }
    ensures second { IsTrue result → Has32Bits second }
{
    has_32_bits(first) & has_32_bits(second)
}

/// The product of two numbers that are so small.
#[inline(always)]
pub fn product_64(first: i64, second: i64) -> i64
    requires first { Has32Bits first }
    requires second { Has32Bits second }
    ensures value { result ≡ first *ℤ second }
    ensures small { unsigned_abs result < 2 ^ 62 }
{
    first * second
}

/// Whether the numbers of a way have 32 bits, and nothing is multiplied.
#[inline(always)]
fn is_way_32(way: &Way) -> bool
    requires factor { IsShort way.now.factor }
    requires scale { IsShort way.now.scale }
    requires divisor { IsShort way.now.divisor }
    ensures { IsTrue result → IsWay32 way.now.factor way.now.scale way.now.divisor way.now.multiplier }
{
    if way.multiplier != 1 {
        return false;
    }
    if !has_32_bits(way.factor) {
        return false;
    }
    if !has_32_bits(way.scale) {
        return false;
    }
    has_32_bits(way.divisor)
}

/// What is divided where the numbers have 32 bits.
#[inline(always)]
fn total_64(way: &Way, in_row: i64, entry: i64) -> i64
    requires factor { Has32Bits way.now.factor }
    requires scale { Has32Bits way.now.scale }
    requires in_row { Has32Bits in_row }
    requires entry { Has32Bits entry }
    ensures value { result ≡ entry *ℤ way.now.scale -ℤ way.now.factor *ℤ in_row }
    ensures small { unsigned_abs result < 2 ^ 63 }
{
    let whole = product_64(entry, way.scale);
    let taken = product_64(way.factor, in_row);
    whole - taken
}

/// The number of an entry outside the entering place after the exchange, where the numbers have 32 bits. None says nothing of it.
#[inline(always)]
fn number_64(way: &Way, inverse: &Inverse, in_row: i64, entry: i64) -> Option<i64>
    requires factor { IsShort way.now.factor }
    requires scale { IsShort way.now.scale }
    requires divisor { IsShort way.now.divisor }
    requires in_row { IsShort in_row }
    requires entry { IsShort entry }
    ensures short { IfSome result (λ n. IsShort n) }
    ensures product { IfSome result (λ n. n *ℤ way.now.divisor ≡ (entry *ℤ way.now.scale -ℤ way.now.factor *ℤ in_row) *ℤ way.now.multiplier) }
{
    if !is_way_32(way) {
        return None;
    }
    if !are_32(in_row, entry) {
        return None;
    }
    let total = total_64(way, in_row, entry);
    let quotient = inverse.guess_64(total);
    if !has_32_bits(quotient) {
        return None;
    }
    let back = product_64(quotient, way.divisor);
    if back == total { Some(quotient) } else { None }
}

/// The number of an entry after the exchange, by the numbers of the entry of the leaving row and of the entry before. None where a
/// division is not exact, or where the number is not short.
#[inline(always)]
pub fn exchanged_number(
    is_place: bool,
    denominator: i64,
    way: &Way,
    inverse: &Inverse,
    in_row: i64,
    entry: i64,
) -> Option<i64>
    requires denominator { IsShort denominator }
    requires factor { IsShort way.now.factor }
    requires scale { IsShort way.now.scale }
    requires divisor { IsShort way.now.divisor }
    requires multiplier { IsShort way.now.multiplier }
    requires in_row { IsShort in_row }
    requires entry { IsShort entry }
    ensures short { IfSome result (λ n. IsShort n) }
    ensures product { IfSome result (λ n. n *ℤ way.now.divisor ≡ divided is_place denominator way.now.factor way.now.scale in_row entry *ℤ way.now.multiplier) }
{
    if is_place {
        return scaled(product(way.factor, denominator), way, inverse);
    }
    if is_kept(way, in_row, entry) {
        return Some(entry);
    }
    if let Some(number) = number_64(way, inverse, in_row, entry) {
        return Some(number);
    }
    let whole = product(entry, way.scale);
    let taken = product(way.factor, in_row);
    scaled(whole - taken, way, inverse)
}

/// Whether the corner of an exchange of a pivot has a whole number over the same denominator, as the denominator can't stay else.
pub fn may_stay(denominator: i64, magnitude: i64) -> bool
    requires denominator { IsShort denominator }
    requires positive { pos 0 <ℤ magnitude }
    requires magnitude { IsShort magnitude }
{
    let inverse = Inverse::of(magnitude);
    exact_quotient(product(denominator, denominator), magnitude, &inverse).is_some()
}

/// Whether a row is not written, by a list of flags. Behind the list rows are written.
pub fn is_unwritten(unwritten: &[bool], row: usize) -> bool
    ensures { result ≡ is_unwritten unwritten.now row }
{
    if row < unwritten.len() {
        unwritten[row]
    } else {
        false
    }
}

/// Writes the numbers of one row after the exchange behind those of the rows before it, unless the row is not written. False
/// where one can't be had.
pub fn write_whole_row(
    rows: usize,
    columns: usize,
    row: usize,
    place: usize,
    denominator: i64,
    after: i64,
    numbers: &[i64],
    unwritten: &[bool],
    at_row: usize,
    next: &mut [i64],
) -> bool
    requires row { row < rows }
    requires place { place < columns }
    requires at_row { at_row < rows }
    requires size { length numbers.now ≡ rows * columns }
    requires room { length next.old ≡ rows * columns }
    requires positive { pos 0 <ℤ denominator }
    requires denominator { IsShort denominator }
    requires after_positive { pos 0 <ℤ after }
    requires after { IsShort after }
    requires short { AreShort numbers.now }
    requires next { AreShort next.old }
    requires some { whole_number_at numbers.now (row * columns + place) ≢ pos 0 }
    requires earlier { AreWritten columns row place denominator after numbers.now unwritten.now next.old (at_row * columns) }
    ensures written { IsTrue result → AreWritten columns row place denominator after numbers.now unwritten.now next.new ((at_row + 1) * columns) }
    ensures short { AreShort next.new }
{
    if is_unwritten(unwritten, at_row) {
        return true;
    }
    let pivot = numbers[flat_index(rows, columns, row, place)];
    let in_place = numbers[flat_index(rows, columns, at_row, place)];
    let Some(way) = way_of(at_row == row, denominator, after, pivot, in_place) else {
        return false;
    };
    let inverse = Inverse::of(way.divisor);
    for at_place in 0..columns {
        let at = flat_index(rows, columns, at_row, at_place);
        let in_row = numbers[flat_index(rows, columns, row, at_place)];
        match exchanged_number(
            at_place == place,
            denominator,
            &way,
            &inverse,
            in_row,
            numbers[at],
        ) {
            Some(number) => next[at] = number,
            None => return false,
        }
    }
    true
}

/// Tables of more rows are exchanged without marks.
pub const MOST_MARKS: usize = 4096;

/// Whether an exchange in which the denominator stays leaves a row alone: one that is not written, or another one than the
/// leaving one without an entry in the entering place.
fn is_left(
    rows: usize,
    columns: usize,
    row: usize,
    place: usize,
    numbers: &[i64],
    unwritten: &[bool],
    at_row: usize,
) -> bool
    requires place { place < columns }
    requires at_row { at_row < rows }
    requires size { length numbers.now ≡ rows * columns }
    ensures touched { result ≡ false → is_unwritten unwritten.now at_row ≡ false }
    ensures left { IsTrue result → is_unwritten unwritten.now at_row ≡ false → IsWholeLeft columns row place numbers.now at_row }
{
    if is_unwritten(unwritten, at_row) {
        return true;
    }
    if at_row == row {
        return false;
    }
    numbers[flat_index(rows, columns, at_row, place)] == 0
}

/// Marks the rows that an exchange in which the denominator stays leaves alone.
pub fn mark_left(
    rows: usize,
    columns: usize,
    row: usize,
    place: usize,
    numbers: &[i64],
    unwritten: &[bool],
    left: &mut [bool],
)
    requires place { place < columns }
    requires size { length numbers.now ≡ rows * columns }
    requires marks { rows ≤ length left.old }
    ensures { AreLeft rows columns row place numbers.now unwritten.now left.new }
{
    for at_row in 0..rows {
        left[at_row] = is_left(rows, columns, row, place, numbers, unwritten, at_row);
    }
}

/// Copies a row.
pub fn take_row(rows: usize, columns: usize, row: usize, next: &[i64], numbers: &mut [i64])
    requires row { row < rows }
    requires size { length numbers.old ≡ rows * columns }
    requires next { length next.now ≡ rows * columns }
    requires next_short { AreShort next.now }
    requires short { AreShort numbers.old }
    ensures taken { (k : ℕ) → k < columns → whole_number_at numbers.new (row * columns + k) ≡ whole_number_at next.now (row * columns + k) }
    ensures others { (i k : ℕ) → i ≢ row → k < columns → whole_number_at numbers.new (i * columns + k) ≡ whole_number_at numbers.old (i * columns + k) }
    ensures short { AreShort numbers.new }
{
    let start = row * columns;
    let end = start + columns;
    numbers[start..end].copy_from_slice(&next[start..end]);
}

/// The numbers of a row.
#[inline]
pub fn row_of(rows: usize, columns: usize, row: usize, numbers: &[i64]) -> &[i64]
    requires row { row < rows }
    requires size { length numbers.now ≡ rows * columns }
    ensures length { length result.now ≡ columns }
    ensures numbers { (k : ℕ) → k < columns → whole_number_at result.now k ≡ whole_number_at numbers.now (row * columns + k) }
{
    let start = row * columns;
    let end = start + columns;
    &numbers[start..end]
}

/// Copies the rows that are not left alone.
pub fn take_rows(rows: usize, columns: usize, left: &[bool], next: &[i64], numbers: &mut [i64])
    requires size { length numbers.old ≡ rows * columns }
    requires next { length next.now ≡ rows * columns }
    requires next_short { AreShort next.now }
    requires short { AreShort numbers.old }
    ensures taken { (i k : ℕ) → i < rows → k < columns → is_unwritten left.now i ≡ false → whole_number_at numbers.new (i * columns + k) ≡ whole_number_at next.now (i * columns + k) }
    ensures left { (i k : ℕ) → i < rows → k < columns → is_unwritten left.now i ≡ true → whole_number_at numbers.new (i * columns + k) ≡ whole_number_at numbers.old (i * columns + k) }
    ensures short { AreShort numbers.new }
{
    for row in 0..rows {
        if !is_unwritten(left, row) {
            take_row(rows, columns, row, next, numbers);
        }
    }
}

/// Whether the number is below the limit.
#[inline]
pub fn is_below(limit: i64, number: i64) -> bool
    requires { pos 0 <ℤ limit }
    ensures { IsTrue result → magnitude number <ℤ limit }
{
    -limit < number && number < limit
}

/// Whether the numbers of a row are below the limit, or the row is not written.
fn is_row_within(
    limit: i64,
    rows: usize,
    columns: usize,
    unwritten: &[bool],
    row: usize,
    numbers: &[i64],
) -> bool
    requires positive { pos 0 <ℤ limit }
    requires row { row < rows }
    requires size { length numbers.now ≡ rows * columns }
    requires short { AreShort numbers.now }
    ensures { IsTrue result → is_unwritten unwritten.now row ≡ false → (k : ℕ) → k < columns → magnitude (whole_number_at numbers.now (row * columns + k)) <ℤ limit }
{
    if is_unwritten(unwritten, row) {
        return true;
    }
    for place in 0..columns {
        if !is_below(limit, numbers[flat_index(rows, columns, row, place)]) {
            return false;
        }
    }
    true
}

/// Whether the numbers of the rows that are written are below the limit.
pub fn are_within(
    limit: i64,
    rows: usize,
    columns: usize,
    unwritten: &[bool],
    numbers: &[i64],
) -> bool
    requires positive { pos 0 <ℤ limit }
    requires size { length numbers.now ≡ rows * columns }
    requires short { AreShort numbers.now }
    ensures { IsTrue result → AreWithin rows columns unwritten.now limit numbers.now }
{
    if limit >= SHORT_LIMIT {
        return true;
    }
    for row in 0..rows {
        if !is_row_within(limit, rows, columns, unwritten, row, numbers) {
            return false;
        }
    }
    true
}
