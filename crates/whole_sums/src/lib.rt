//! Whole numbers over one denominator: which have room, and sums of their products without greatest common divisors.
//!
//! A number is short where it is below 2^62 in magnitude, and a total has its margin where it is within 2^126. Then a product
//! of two short numbers is within 2^124, and a total takes one more of them. With `D` a short denominator above 0, a sum of
//! the terms `factor k * number k = f(k) * n(k) / D` from a start `S / D` is
//!
//! ```text
//! (S + f(0) * n(0) + .. + f(m - 1) * n(m - 1)) / D
//! ```
//!
//! with one division at its end.
//!
//! Public contract: where `whole_total` and `whole_sum` answer, each step of `checked_sum` over the same terms has room and the
//! answer is their sum. None says nothing. A fraction that is a short number, alone or over a denominator, is told
//! as one (`whole_number`, `short_over`).
//!
//! Below stand `frac128`, for the numbers and which steps have room, and `checked_sum`, for the sums. Above stand the tables of
//! relaxations (`table_entries`), the numbers of leaves (`leaf_dual`) and separation (`cut_find`).
#![tactic(auto)]

mod numbers;
mod sums;

pub use numbers::{SHORT_LIMIT, common_multiple, product, short_number, short_over, whole_number};
pub use sums::{MARGIN, WholeTerm, WholeTerms, quotient, whole_sum, whole_total, with_product};
