//! Certificates and their text.
//!
//! A certificate claims a best value `V`, a value `V` that no feasible point beats by more than a gap `G`, that no point is feasible, or
//! that the model is unbounded, and gives its reasons. For the first three these are a point, where a value is claimed, and a branching
//! tree whose leaves each say why no feasible point of their region beats `V`, by more than `G` with a gap, by the rows of the model and by cuts, each with the row that it comes from; for the last a feasible point and a ray,
//! along which points stay feasible and improve without end. Its text has a line for each part, the nodes of the tree each
//! before those below it, the left ones first:
//!
//! ```text
//! cert 1
//! claim optimal V | claim within G V | claim infeasible | claim unbounded
//! point [NAME V]..                         for a value, and for unbounded
//! ray [NAME V]..                           for unbounded, which has no cuts and no nodes
//! cut ROW hi LIT.. | cut ROW lo LIT..      literals, +NAME or -NAME, that this side of the row does not allow to be 1 all together
//! split NAME V                             NAME <= V below it on the left, NAME >= V + 1 on the right
//! leaf bound [row NAME V | cut K V]..      multipliers whose number reaches V, or V less G, those of cuts by the cut's number from 1
//! leaf farkas [row NAME V | cut K V]..     multipliers whose number with all costs 0 is above 0
//! leaf empty                               an empty region
//! end
//! ```
//!
//! Contract: `read_cert` answers the certificate that a text states or its first faulty line with the least code, a
//! function of the whole text (`specs/CutLines`, `specs/Mults`, `specs/Lines`, `specs/Text`), and each text has one such answer
//! (`text_law`). What is read has the parts of its claim, and one whole tree where it has nodes (`specs/Whole`). What it proves
//! of a model is not asked here. What one line says (`line_says`), the lines of a text (`line_bytes`) and the codes of fields serve the
//! reader of certificates of fronts too.
//!
//! Below stand the lines and words of `text_lines`, the names and lists of `lp_model`, and the spelling of numbers
//! (`frac_text`). Above stand the checker
//! (`cert_check`), what writes certificates, and the words `check MODEL CERT`.
#![tactic(auto)]

mod cert;
mod cut_line;
mod laws;
mod line;
mod mults;
mod named;
mod reader;
mod reading;

pub use cert::{Cert, CertMult, CertNode, Claim, NamedCut};
pub use laws::{text_law, whole_tree_law};
pub use line::{LineFault, LineWord, Statement, begins_blank, ends_blank, line_says};
pub use mults::number_of_cut;
pub use named::number_code;
pub use reader::{CertFault, line_bytes, read_cert};
