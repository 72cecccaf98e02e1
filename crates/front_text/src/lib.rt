//! Certificates of fronts.
//!
//! A certificate of a front claims that its outcomes are the front of a model with two objectives. It has a point for each
//! outcome, and for each inner model of the front a branching tree with its cuts, as a certificate of one value has them: of the
//! least first value, of the least second value, and of each gap between two neighbours.
//!
//! ```text
//! front 1
//! outcome V1 V2                 values with constants, in least form; for each outcome this line and its point
//! point [NAME V]..
//! tree least1 | tree least2 | tree gap I      I from 1, between the outcomes I and I + 1; each with its cuts and its nodes
//! end
//! ```
//!
//! Contract: `read_any` answers the certificate of either kind that a text states, of a front where its first line's first word is
//! `front`, or its first faulty line with the least code, a function of the whole text (`specs/Lines`, `specs/Text`). A text states
//! one front or has one such fault (`front_text_law`), and its lines say the statements of that certificate one by one
//! (`front_lines_law`). The trees of what is read are whole (`specs/Whole`). Which trees stand, and what the certificate proves of a
//! model, is not asked here.
//!
//! Below stand certificates of one value and their lines (`cert_text`). Above stand the checker (`front_check`) and the command `check`
//! (`command_files`).
#![tactic(auto)]

mod any_reader;
mod front;
mod front_line;
mod front_reading;
mod laws;

pub use any_reader::read_any;
pub use front::{AnyCert, FrontCert, FrontOutcome, FrontTree, TreeOf};
pub use front_line::{FrontStatement, FrontWord};
pub use laws::{front_lines_law, front_text_law};
