// A total, in a fraction or in a whole number over a denominator.
ghost use Rattle.std.specs.Prelude.{◌≡◌, IfSome, OkIff};
ghost use Rattle.frac128.specs.Rational.{◌+ℚ◌, ◌*ℚ◌};
ghost use Rattle.frac128.specs.LowestTerms.{quotient_of};
ghost use Rattle.checked_sum.specs.Steps.{StepFits};
ghost use Rattle.whole_sums.specs.Wholes.{HasMargin, IsDenominator};
ghost use Rattle.kept_totals.specs.Forms.{IsWholePair, pair_product};

use crate::term::{Term, WholePair};
use frac128::{Frac, Wide};
use std::marker::Model;
use whole_sums::{quotient, short_over, with_product};

/// How a total is held.
#[derive(Clone, Copy, Drop)]
pub(crate) enum TotalForm {
    Fraction(Frac),
    Wholes { number: i128, denominator: i64 },
}

/// A total. In whole numbers it takes no greatest common divisor to go on. Contracts see the rational that it is.
#[derive(Drop)]
pub(crate) struct Total {
    form: TotalForm,
}

impl Model for Total {
    ghost use Rattle.frac128.specs.Rational.{ℚ};
    ghost use Rattle.frac128.specs.LowestTerms.{rational_code};
    ghost use Rattle.kept_totals.specs.Forms.{total_of, IsLawfulTotal};

    ghost Value = { ℚ };

    ghost coded = { rational_code };

    ghost view = { λ t. total_of t.form };

    ghost invariant = { λ t. IsLawfulTotal t.form };
}

/// The total and a product, if there is room for both. Where a factor is 0 no step is made.
fn next_total(total: &Frac, factor: &Frac, number: &Frac) -> Result<Frac, Wide>
    ensures { OkIff result (StepFits total.now factor.now number.now) (total.now +ℚ factor.now *ℚ number.now) }
{
    if factor.is_zero() {
        return Ok(*total);
    }
    if number.is_zero() {
        return Ok(*total);
    }
    match factor.mul(number) {
        Ok(product) => total.add(&product),
        Err(wide) => Err(wide),
    }
}

impl Total {
    /// A fraction.
    pub(crate) fn exact(value: &Frac) -> Total
        ensures { result ≡ value.now }
    {
        Total {
            form: TotalForm::Fraction(*value),
        }
    }

    /// A whole number over a denominator.
    #[inline]
    fn over(number: i128, denominator: i64) -> Total
        requires number { HasMargin number }
        requires denominator { IsDenominator denominator }
        ensures { result ≡ quotient_of number denominator }
    {
        Total {
            form: TotalForm::Wholes {
                number,
                denominator,
            },
        }
    }

    /// The same total once more.
    #[inline]
    pub(crate) fn same(&self) -> Total
        ensures { result ≡ self.now }
    {
        Total { form: self.form }
    }

    /// The total in a fraction.
    pub(crate) fn value(&self) -> Frac
        ensures { result ≡ self.now }
    {
        match &self.form {
            TotalForm::Fraction(value) => *value,
            TotalForm::Wholes {
                number,
                denominator,
            } => quotient(*number, *denominator),
        }
    }

    /// The number that the total is over a denominator, where it is seen at once.
    #[inline]
    fn number_over(&self, denominator: i64) -> Option<i128>
        requires { IsDenominator denominator }
        ensures room { IfSome result (λ n. HasMargin n) }
        ensures value { IfSome result (λ n. quotient_of n denominator ≡ self.now) }
    {
        match &self.form {
            TotalForm::Fraction(value) => match short_over(value, denominator) {
                None => None,
                Some(number) => Some(i128::from(number)),
            },
            TotalForm::Wholes {
                number,
                denominator: own,
            } => {
                if *own == denominator {
                    Some(*number)
                } else {
                    None
                }
            }
        }
    }

    /// The total and a product in whole numbers, where that can be had. Then its step has room. None says nothing.
    #[inline]
    fn plus_pair(&self, pair: &WholePair) -> Option<Total>
        requires { IsWholePair pair.now }
        ensures fits { IfSome result (λ next. StepFits self.now (pair_product pair.now).factor (pair_product pair.now).number) }
        ensures value { IfSome result (λ next. next ≡ self.now +ℚ (pair_product pair.now).factor *ℚ (pair_product pair.now).number) }
    {
        let Some(number) = self.number_over(pair.denominator) else {
            return None;
        };
        let Some(next) = with_product(number, pair.factor, pair.number) else {
            return None;
        };
        Some(Total::over(next, pair.denominator))
    }

    /// The total and a term's product in whole numbers, as `plus_pair`.
    #[inline]
    fn plus_whole(&self, term: &Term) -> Option<Total>
        ensures fits { IfSome result (λ next. StepFits self.now term.now.factor term.now.number) }
        ensures value { IfSome result (λ next. next ≡ self.now +ℚ term.now.factor *ℚ term.now.number) }
    {
        match term.pair() {
            None => None,
            Some(pair) => self.plus_pair(&pair),
        }
    }

    /// The total and a term's product, if there is room for both.
    #[inline]
    pub(crate) fn plus(&self, term: &Term) -> Result<Total, Wide>
        ensures { OkIff result (StepFits self.now term.now.factor term.now.number) (self.now +ℚ term.now.factor *ℚ term.now.number) }
    {
        if let Some(next) = self.plus_whole(term) {
            return Ok(next);
        }
        match next_total(&self.value(), &term.factor(), &term.number()) {
            Ok(next) => Ok(Total::exact(&next)),
            Err(wide) => Err(wide),
        }
    }
}
