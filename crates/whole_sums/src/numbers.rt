// Whole numbers whose products have room, and a denominator that fractions have in common.
ghost use Rattle.std.specs.Prelude.{◌≡◌, ◌*ℤ◌, IfSome};
ghost use Rattle.frac128.specs.Rational.{int};
ghost use Rattle.frac128.specs.LowestTerms.{quotient_of};
ghost use Rattle.whole_sums.specs.Wholes.{IsShort, IsDenominator};

use frac128::Frac;

/// Short numbers are below this in magnitude.
pub const SHORT_LIMIT: i64 = 1 << 62;

/// The product of two short numbers.
#[inline]
pub fn product(first: i64, second: i64) -> i128
    requires first { IsShort first }
    requires second { IsShort second }
    ensures { result ≡ first *ℤ second }
{
    i128::from(first) * i128::from(second)
}

/// The number in 64 bits, if it is short.
#[inline]
pub fn short_number(number: i128) -> Option<i64>
    ensures short { IfSome result (λ n. IsShort n) }
    ensures value { IfSome result (λ n. n ≡ number) }
{
    if i128::from(-SHORT_LIMIT) < number && number < i128::from(SHORT_LIMIT) {
        Some(number as i64)
    } else {
        None
    }
}

/// The number that a fraction is, if it is whole and short.
#[inline]
pub fn whole_number(fraction: &Frac) -> Option<i64>
    ensures short { IfSome result (λ n. IsShort n) }
    ensures value { IfSome result (λ n. fraction.now ≡ int n) }
{
    fraction.has_room();
    if fraction.is_whole() {
        short_number(fraction.numerator())
    } else {
        None
    }
}

/// How often a number is contained in a denominator, if it is.
fn exact_scale(denominator: i64, own: i64) -> Option<i64>
    requires denominator { IsDenominator denominator }
    requires own { IsShort own }
    ensures short { IfSome result (λ n. IsShort n) }
    ensures value { IfSome result (λ n. n *ℤ own ≡ denominator) }
{
    if own == 1 {
        return Some(denominator);
    }
    if own <= 0 {
        return None;
    }
    let Some(scale) = short_number(i128::from(denominator / own)) else {
        return None;
    };
    if product(scale, own) == i128::from(denominator) {
        Some(scale)
    } else {
        None
    }
}

/// The number that a fraction is over a denominator, if it is whole there and short.
pub fn short_over(fraction: &Frac, denominator: i64) -> Option<i64>
    requires { IsDenominator denominator }
    ensures short { IfSome result (λ n. IsShort n) }
    ensures value { IfSome result (λ n. fraction.now ≡ quotient_of n denominator) }
{
    fraction.has_room();
    let Some(own) = short_number(fraction.denominator()) else {
        return None;
    };
    let Some(scale) = exact_scale(denominator, own) else {
        return None;
    };
    let Some(number) = short_number(fraction.numerator()) else {
        return None;
    };
    short_number(product(number, scale))
}

/// The least common multiple of a denominator and that of a fraction, if it is another one and short.
fn further_multiple(denominator: i64, fraction: &Frac) -> Option<i64>
    requires { IsDenominator denominator }
    ensures { IfSome result (λ n. IsShort n) }
{
    let Some(own) = short_number(fraction.denominator()) else {
        return None;
    };
    if own <= 0 {
        return None;
    }
    if denominator % own == 0 {
        return None;
    }
    match Frac::new(i128::from(own), i128::from(denominator)) {
        Err(_) => None,
        Ok(ratio) => {
            let Some(more) = short_number(ratio.numerator()) else {
                return None;
            };
            short_number(product(denominator, more))
        }
    }
}

/// A multiple of the denominator and, as far as there is room, of that of a fraction.
pub fn common_multiple(denominator: i64, fraction: &Frac) -> i64
    requires { IsDenominator denominator }
    ensures { IsDenominator result }
{
    match further_multiple(denominator, fraction) {
        Some(multiple) if multiple > 0 => multiple,
        _ => denominator,
    }
}
