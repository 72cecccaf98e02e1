// Sums of products.
ghost use Rattle.std.specs.Prelude.{get_or, length, pos};
ghost use Rattle.frac128.specs.Rational.{int};

use crate::words::{fault, number_of, number_text};
use anyhow::Result;
use checked_sum::{Terms, checked_sum};
use frac128::Frac;
use std::alloc::{AllocError, Global};

/// Factors and numbers by place.
#[derive(Drop)]
struct Products<'a>(&'a [(Frac, Frac)]);

impl Terms for Products<'_> {
    ghost count = { λ s. length s.0.now };

    ghost factor = { λ s k. (get_or s.0.now k (int (pos 0), int (pos 0))).0 };

    ghost number = { λ s k. (get_or s.0.now k (int (pos 0), int (pos 0))).1 };

    fn count(&self) -> usize {
        self.0.len()
    }

    fn number(&self, index: usize) -> Frac {
        let (_, number) = self.0[index];
        number
    }

    fn factor(&self, index: usize) -> Frac {
        let (factor, _) = self.0[index];
        factor
    }
}

/// The factor and the number of `FACTOR*NUMBER`.
fn product_of(word: &str) -> Result<(Frac, Frac)> {
    match word.split_once('*') {
        Some((factor, number)) => numbers_of(factor, number),
        None => Err(fault("no `FACTOR*NUMBER`", word)),
    }
}

fn numbers_of(factor: &str, number: &str) -> Result<(Frac, Frac)> {
    let factor = number_of(factor)?;
    let number = number_of(number)?;
    Ok((factor, number))
}

fn push_products(products: &mut Vec<(Frac, Frac)>, words: &[&str]) -> Result<()> {
    for word in words {
        let product = product_of(word)?;
        products.push(product)?;
    }
    Ok(())
}

/// The sum of products, or the place of the first step without room.
fn told_sum(alloc: Global, start: &Frac, products: &[(Frac, Frac)]) -> Result<String, AllocError> {
    match checked_sum(start, &Products(products)) {
        Ok(number) => number_text(alloc, &number),
        Err(step) => format!(in alloc; "wide at {step}"),
    }
}

fn sum_over(
    alloc: Global,
    start: &Frac,
    words: &[&str],
    products: &mut Vec<(Frac, Frac)>,
) -> Result<String> {
    push_products(products, words)?;
    Ok(told_sum(alloc, start, products.as_slice())?)
}

/// The sum of products from a start, or the place of the first step without room.
pub fn sum_of(alloc: Global, start: &str, words: &[&str]) -> Result<String> {
    let start = number_of(start)?;
    let mut products = Vec::new(alloc);
    let told = sum_over(alloc, &start, words, &mut products);
    drop(products);
    told
}
