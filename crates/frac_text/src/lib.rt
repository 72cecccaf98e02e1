//! Fractions from their spelling.
//!
//! `parse` reads a decimal number or a quotient as specs/Spelling.antt says:
//!
//! ```text
//! [+|-] digits [. digits] [E [+|-] digits]      E is one of e E d D
//! [+|-] digits / digits
//! ```
//!
//! A number that a `Frac` has no room for is refused, and never rounded. `Numeral::of` tells of such a number too whether it
//! is 10^20 or more, or -10^20 or less, which files of models take for infinity. What `Frac::write_to` prints, `n` or `n/d`, is
//! read back as the same number (`reading_of-printed` in proofs/). No call takes memory. The tests of bytes and signs (`is_digit_byte`,
//! `has_digits_alone`, `has_minus`, `behind_sign`) are for readers whose numbers are digits alone, or have a sign.
//!
//! Below stands `frac128`, the fractions; above stand the files of models (`mps_fields`), the words of edits and bounds (`edit_words`), the
//! certificates (`cert_text`) and the warm files (`warm_file`).
#![tactic(auto)]

mod digits;
mod numeral;
mod parsing;
mod spelling;

pub use digits::{has_digits_alone, is_digit_byte};
pub use numeral::{FAR, Numeral, Side};
pub use parsing::{NumFault, parse};
pub use spelling::{behind_sign, has_minus};
