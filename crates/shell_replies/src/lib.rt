//! What the shell replies, as far as no environment is asked for it.
//!
//! ```text
//! names of a line   the places of rows or of columns, or the first that is none       (specs/Names, Placing)
//! a bound           its number in the model's own sense, or that there is none        (specs/Bounds)
//! a refusal         the line of each fault of an edit, or of the text of a search     (specs/Faults)
//! a reply           the point and the value that it shows, read from its bytes alone  (specs/Shown)
//! ```
//!
//! Public contract: `placed_numbers` answers the places of the names with their numbers, or which name is none and why (`AreNumbersPlaced`),
//! and `write_unplaced` writes it; `write_lower` and `write_upper` tell a bound (`IsLowerTold`, `IsUpperTold`); `write_edit_fault` and
//! `write_warm_fault` write the line of a fault. What is printed of a point and a value is read
//! back as these (`proofs/ShownBack`).
//!
//! Below stand the texts of replies (`reply_texts`), the bounds (`dual_bounds`) and what is refused (`model_edits`, `warm_file`); above
//! stands the shell, which asks the environment.
#![tactic(auto)]

mod bounds;
mod faults;
mod placing;

pub use bounds::{write_lower, write_upper};
pub use faults::{write_edit_fault, write_warm_fault};
pub use placing::{Unplaced, placed_numbers, write_unplaced};
