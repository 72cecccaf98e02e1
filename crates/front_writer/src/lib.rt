//! The text of a front's certificate.
//!
//! The first line says which kind of certificate it is. Each outcome has a line of its values and one of its point. Each tree has a
//! line of what it is of, one for each of its cuts and one for each of its nodes. The words of a line have one blank between them,
//! and a newline stands behind each line.
//!
//! ```text
//! front 1
//! outcome V1 V2
//! point [NAME V]..
//! tree least1
//! cut ROW hi LIT..
//! split NAME V
//! leaf bound [row NAME V | cut K V]..
//! leaf empty
//! end
//! ```
//!
//! Public contract: `print_front` writes exactly this text (`printed_front` in specs/FrontWords). It states the certificate, where
//! there is an outcome, the trees are whole and the names are words, so that `read_any` reads back what was printed. So it does
//! for each certificate that some text states (`front_print_law`). Want of memory is the only error.
//!
//! Below stand the lines of points, cuts and nodes (`cert_writer`) and what a front's text means (`front_text`).
#![tactic(auto)]

mod laws;
mod printing;

pub use laws::{front_print_law, stated_lines_law};
pub use printing::print_front;
