//! Sums of products in fractions of 128 bits, step by step.
//!
//! The sum of `n` terms from a start is
//!
//! ```text
//! start + factor 0 * number 0 + .. + factor (n - 1) * number (n - 1)
//! ```
//!
//! and it is computed in this order. A term whose factor or number is 0 makes no step. Any other term is one step:
//! first the product, then its sum with the total before it. A step has no room where the fraction of one of these
//! does not fit 128 bits (`Frac::mul`, `Frac::add`).
//!
//! `checked_sum` answers the sum where each step has room, and else the place of the first step that has none. Each sum
//! of the layers above, a row's activity, an objective's value, a reduced cost, a leaf's total, is an instance: it says
//! how many terms there are and gives the k-th factor and number (`Terms`).
//!
//! Below stands `frac128`, the numbers of contracts with their sums by index (`sum_below`) and the fractions.
//! Beside the definitions stand the laws of such sums (`proofs/SumLaws`).
#![tactic(auto)]

mod sum;

pub use sum::{Terms, checked_sum};
