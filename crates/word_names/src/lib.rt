//! Models whose names are words of a line, and models that scripts may have: two definitions, in specs/.
//!
//! `HasWordNames M` says of each column and each row that its name has a byte, and no newline, space or tab. What is written of
//! such a model is read back: the lines of a point, and a certificate.
//!
//! `IsScriptModel M` says more: each name is 1 to 255 bytes from `!` to `~`, each bound is below 10^20 in magnitude, and the model
//! is not widened. It is what every model of a script is, and what a file needs that gives the model back. Its names are words of a
//! line (`script_names_law`).
//!
//! Below stand `text_lines`, which says what a word is, `frac128` and `lp_model`. Above, `mps_model` shows it of each model that a
//! text means, `tree_cert` uses the words, and the families of commands keep it.
#![tactic(auto)]

mod laws;

pub use laws::script_names_law;
