//! Which names accepted certificates have.
//!
//! A certificate that is accepted for a model names rows and columns that are there, so that its names are words of a line where the
//! model's are. The trees of a front are of inner models, which have a column `Z` and rows `G1` and `G2` beside the model's; their names,
//! made free by underscores, are words too. So whoever made the certificate, its text states it.
//!
//! Public contract: `accepted_names_law` and `front_names_law` (specs/Laws). Below stand the checkers (`cert_check`, `front_check`) and
//! what the texts of certificates are (`cert_writer`, `front_writer`). Above stands the command that writes a certificate.
#![tactic(auto)]

mod laws;

pub use laws::{accepted_names_law, front_names_law};
