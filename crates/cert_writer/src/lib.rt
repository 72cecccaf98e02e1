//! The text of a certificate.
//!
//! A text has a line for each part of the certificate, in the order in which `cert_text` reads them, and a newline behind each line.
//! The words of a line have one blank between them. A number is a whole number or a fraction in lowest terms, as `frac128` writes
//! it.
//!
//! Public contract: `print_cert` writes exactly this text (`cert_text` in specs/CertText). It states the certificate, where that
//! has the parts of its claim and its names are words, so that `read_cert` reads back what was printed. So it does for each
//! certificate that some text states (`print_law`). `put_word` appends a word, and `put_named_line`, `put_cuts` and `put_nodes` the lines
//! of a point, of cuts and of a tree, for certificates of other kinds. Want of memory is the only error.
//!
//! Below stand certificates and what their lines say (`cert_text`). Above stand what makes certificates (`tree_cert`) and what
//! writes those of fronts (`front_writer`).
#![tactic(auto)]

mod laws;
mod printing;

pub use laws::print_law;
pub use printing::{print_cert, put_cuts, put_named_line, put_nodes, put_word};
