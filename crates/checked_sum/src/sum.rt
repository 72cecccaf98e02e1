// The sum of products, or its first step that has no room.
ghost use Rattle.std.specs.Prelude.{◌≡◌, ◌≢◌, ◌↔◌, ◌<◌, ℕ, pos, IsTrue, OkIff};
ghost use Rattle.frac128.specs.Rational.{ℚ, int, ◌+ℚ◌, ◌*ℚ◌};
ghost use Rattle.checked_sum.specs.Steps.{StepFits, IsCheckedSum};

use frac128::{Frac, Wide};

/// The terms of a sum: `count` products of a factor and a number, by place from 0.
pub trait Terms {
    ghost count: { Self → ℕ };

    ghost factor: { Self → ℕ → ℚ };

    ghost number: { Self → ℕ → ℚ };

    /// How many terms there are.
    fn count(&self) -> usize
        ensures { result ≡ count self.now };

    /// The number of a term. It is asked first.
    fn number(&self, index: usize) -> Frac
        requires { index < count self.now }
        ensures { result ≡ number self.now index };

    /// The factor of a term. It is asked only where the number is not 0.
    fn factor(&self, index: usize) -> Frac
        requires { index < count self.now }
        ensures { result ≡ factor self.now index };
}

/// The total and the product of a number that is not 0, if there is room for both. A factor 0 makes no step.
fn add_product(total: &Frac, factor: &Frac, number: &Frac) -> Result<Frac, Wide>
    requires { number.now ≢ int (pos 0) }
    ensures { OkIff result (StepFits total.now factor.now number.now) (total.now +ℚ factor.now *ℚ number.now) }
{
    if factor.is_zero() {
        return Ok(*total);
    }
    match factor.mul(number) {
        Ok(product) => total.add(&product),
        Err(wide) => Err(wide),
    }
}

/// The sum of the terms from the start, or the place of the first step that has no room.
pub fn checked_sum<T: Terms>(start: &Frac, terms: &T) -> Result<Frac, usize>
    ensures { IsCheckedSum start.now (T.factor terms.now) (T.number terms.now) (T.count terms.now) (λ k. k) result }
{
    let mut total = *start;
    for index in 0..terms.count() {
        let number = terms.number(index);
        if number.is_zero() {
            continue;
        }
        match add_product(&total, &terms.factor(index), &number) {
            Ok(next) => total = next,
            Err(_) => return Err(index),
        }
    }
    Ok(total)
}
