// A term of a sum, in fractions or in whole numbers.
ghost use Rattle.std.specs.Prelude.{◌≡◌, IsTrue, IfSome};
ghost use Rattle.frac128.specs.Rational.{int, ◌*ℚ◌};
ghost use Rattle.frac128.specs.LowestTerms.{quotient_of};
ghost use Rattle.whole_sums.specs.Wholes.{IsShort, IsDenominator};
ghost use Rattle.kept_totals.specs.Forms.{IsWholePair, pair_product};
ghost use Rattle.kept_totals.specs.Short.{IsShortFraction};

use frac128::Frac;
use std::marker::Model;
use whole_sums::{product, quotient, short_number};

/// A short number over a denominator, and a short whole number.
#[derive(Clone, Copy, Drop)]
pub(crate) struct WholePair {
    pub(crate) factor: i64,
    pub(crate) number: i64,
    pub(crate) denominator: i64,
}

/// How a term is held.
#[derive(Clone, Copy, Drop)]
pub(crate) enum TermForm {
    Fractions { factor: Frac, number: Frac },
    Pair(WholePair),
}

/// A factor and a number, whose product is added to a total. Contracts see a `Product`.
#[derive(Drop)]
pub struct Term {
    form: TermForm,
}

/// The number that the product of a pair is over a denominator, where it is short and the pair's own denominator is the same.
#[inline]
fn short_product(pair: &WholePair, denominator: i64) -> Option<i64>
    requires pair { IsWholePair pair.now }
    requires denominator { IsDenominator denominator }
    ensures { IfSome result (λ n. IsShort n × ((pair_product pair.now).factor *ℚ (pair_product pair.now).number ≡ quotient_of n denominator)) }
{
    if pair.denominator != denominator {
        return None;
    }
    short_number(product(pair.factor, pair.number))
}

impl Model for Term {
    ghost use Rattle.kept_totals.specs.Forms.{Product, product_code, product_of, IsLawfulTerm};

    ghost Value = { Product };

    ghost coded = { product_code };

    ghost view = { λ t. product_of t.form };

    ghost invariant = { λ t. IsLawfulTerm t.form };
}

impl Term {
    /// The product of two fractions.
    pub fn exact(factor: &Frac, number: &Frac) -> Term
        ensures { result ≡ record { factor = factor.now; number = number.now } }
    {
        Term {
            form: TermForm::Fractions {
                factor: *factor,
                number: *number,
            },
        }
    }

    /// The product of a number over a denominator and a whole number.
    #[inline]
    pub fn over(factor: i64, number: i64, denominator: i64) -> Term
        requires factor { IsShort factor }
        requires number { IsShort number }
        requires denominator { IsDenominator denominator }
        ensures { result ≡ record { factor = quotient_of factor denominator; number = int number } }
    {
        Term {
            form: TermForm::Pair(WholePair {
                factor,
                number,
                denominator,
            }),
        }
    }

    /// The factor in a fraction.
    pub fn factor(&self) -> Frac
        ensures { result ≡ self.now.factor }
    {
        match &self.form {
            TermForm::Fractions { factor, .. } => *factor,
            TermForm::Pair(pair) => quotient(i128::from(pair.factor), pair.denominator),
        }
    }

    /// The number in a fraction.
    pub fn number(&self) -> Frac
        ensures { result ≡ self.now.number }
    {
        match &self.form {
            TermForm::Fractions { number, .. } => *number,
            TermForm::Pair(pair) => Frac::whole(pair.number),
        }
    }

    /// The term in whole numbers, if it is held so.
    #[inline]
    pub(crate) fn pair(&self) -> Option<WholePair>
        ensures lawful { IfSome result (λ w. IsWholePair w) }
        ensures value { IfSome result (λ w. self.now ≡ pair_product w) }
    {
        match &self.form {
            TermForm::Fractions { .. } => None,
            TermForm::Pair(pair) => Some(*pair),
        }
    }

    /// Whether the product is seen at once to be a short number over a denominator.
    #[inline]
    pub(crate) fn is_short_over(&self, denominator: i64) -> bool
        requires { IsDenominator denominator }
        ensures { IsTrue result → IsShortFraction denominator (self.now.factor *ℚ self.now.number) }
    {
        match self.pair() {
            None => false,
            Some(pair) => short_product(&pair, denominator).is_some(),
        }
    }
}
