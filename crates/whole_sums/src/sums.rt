// Sums whose terms are products of whole numbers over one denominator, without greatest common divisors.
ghost use Rattle.std.specs.Prelude.{◌≡◌, ◌<◌, ◌<ℤ◌, ◌+ℤ◌, ◌*ℤ◌, ℕ, ℤ, pos, IfSome};
ghost use Rattle.frac128.specs.Rational.{ℚ, int};
ghost use Rattle.frac128.specs.LowestTerms.{quotient_of};
ghost use Rattle.checked_sum.specs.Steps.{AllFit, partial};
ghost use Rattle.whole_sums.specs.Wholes.{HasMargin, IsDenominator, IsShort, IsWholeTerm};

use crate::numbers::product;
use frac128::Frac;

/// Totals are within this in magnitude.
pub const MARGIN: i128 = 1 << 126;

/// Two short numbers whose product over the denominator is a term.
#[derive(Clone, Copy, Drop)]
pub struct WholeTerm {
    pub factor: i64,
    pub number: i64,
}

/// The terms of a sum: `count` products of a factor and a number, by place from 0, over a denominator.
pub trait WholeTerms {
    ghost count: { Self → ℕ };

    ghost factor: { Self → ℕ → ℚ };

    ghost number: { Self → ℕ → ℚ };

    ghost denominator: { Self → ℤ };

    /// What the terms are read from.
    ghost is_lawful: { Self → Type 0 };

    /// What else a term that is had says.
    ghost holds: { Self → ℕ → Type 0 };

    /// How many terms there are.
    fn count(&self) -> usize
        ensures { result ≡ count self.now };

    /// Two short numbers whose product over the denominator is that of the factor and the number of a term, if there are
    /// such.
    fn term(&self, index: usize) -> Option<WholeTerm>
        requires index { index < count self.now }
        requires lawful { is_lawful self.now }
        ensures value { IfSome result (λ t. IsWholeTerm (denominator self.now) (factor self.now index) (number self.now index) t.factor t.number) }
        ensures holds { IfSome result (λ t. holds self.now index) };
}

/// The total with one more product, if it keeps its margin.
#[inline]
pub fn with_product(total: i128, factor: i64, number: i64) -> Option<i128>
    requires total { HasMargin total }
    requires factor { IsShort factor }
    requires number { IsShort number }
    ensures value { IfSome result (λ next. next ≡ total +ℤ factor *ℤ number) }
    ensures room { IfSome result (λ next. HasMargin next) }
{
    if factor == 0 {
        return Some(total);
    }
    let next = total + product(factor, number);
    if -MARGIN <= next && next <= MARGIN {
        Some(next)
    } else {
        None
    }
}

/// The total over the denominator.
pub fn quotient(total: i128, denominator: i64) -> Frac
    requires total { HasMargin total }
    requires positive { pos 0 <ℤ denominator }
    requires denominator { IsShort denominator }
    ensures { result ≡ quotient_of total denominator }
{
    if total == 0 {
        return Frac::whole(0);
    }
    Frac::new(total, i128::from(denominator)).unwrap()
}

/// The sum of the terms from a start, both over the denominator, where it can be had in whole numbers. Then each step of
/// `checked_sum` has room. None says nothing of the sum.
pub fn whole_total<T: WholeTerms>(start: i128, terms: &T) -> Option<i128>
    requires start { HasMargin start }
    requires denominator { IsDenominator (T.denominator terms.now) }
    requires lawful { T.is_lawful terms.now }
    ensures room { IfSome result (λ total. HasMargin total) }
    ensures fits { IfSome result (λ total. AllFit (quotient_of start (T.denominator terms.now)) (T.factor terms.now) (T.number terms.now) (T.count terms.now)) }
    ensures value { IfSome result (λ total. quotient_of total (T.denominator terms.now) ≡ partial (quotient_of start (T.denominator terms.now)) (T.factor terms.now) (T.number terms.now) (T.count terms.now)) }
    ensures holds { IfSome result (λ total. (k : ℕ) → k < T.count terms.now → T.holds terms.now k) }
{
    let mut total = start;
    for index in 0..terms.count() {
        match terms.term(index) {
            None => return None,
            Some(term) => match with_product(total, term.factor, term.number) {
                None => return None,
                Some(next) => total = next,
            },
        }
    }
    Some(total)
}

/// The sum of the terms from a whole start, where it can be had with one division. Then each step of `checked_sum` has
/// room. None says nothing of the sum.
pub fn whole_sum<T: WholeTerms>(start: i64, denominator: i64, terms: &T) -> Option<Frac>
    requires start { IsShort start }
    requires positive { pos 0 <ℤ denominator }
    requires denominator { IsShort denominator }
    requires over { T.denominator terms.now ≡ denominator }
    requires lawful { T.is_lawful terms.now }
    ensures fits { IfSome result (λ v. AllFit (int start) (T.factor terms.now) (T.number terms.now) (T.count terms.now)) }
    ensures value { IfSome result (λ v. v ≡ partial (int start) (T.factor terms.now) (T.number terms.now) (T.count terms.now)) }
{
    let Some(total) = whole_total(product(start, denominator), terms) else {
        return None;
    };
    Some(quotient(total, denominator))
}
