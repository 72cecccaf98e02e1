//! Certificates of searches that are finished, or within a gap.
//!
//! A search without an open leaf proves its answer, and a certificate writes that proof down, so that it can be checked
//! without the search. The search's tree in preorder becomes the certificate's:
//!
//! ```text
//! a split on column j at v      split NAME v             NAME is column j's
//! a closed leaf                 leaf empty               some column has no number between its bounds in the region
//!                               leaf farkas [row NAME y | cut K y]   else, the leaf's Farkas multipliers, where their number is above 0
//!                               leaf bound [row NAME y | cut K y]    else, the leaf's multipliers
//! a cut that a line names       cut ROW hi [+NAME | -NAME]   one that counts, by its derivation; K is its number among these lines
//! the best kept point x         claim optimal V          V is its value, in the model's own sense
//!                               point [NAME x]           its numbers that are not 0, in the order of the columns
//! no kept point                 claim infeasible
//! ```
//!
//! So does a search whose leaves are all within a gap `G`: `certificate_within` writes `claim within G V` with the incumbent, and each leaf, open or
//! closed, says why it closes against `V` in least form less `G`.
//!
//! A model with a ray has no such tree: `unbounded_certificate` writes `claim unbounded` with a feasible point and a ray, each by
//! its numbers that are not 0.
//!
//! Public contract: `certificate` is exactly this of a finished search (`IsCertificateOf` in specs/Certificates), and
//! `check` accepts it for the search's model, and `certificate_within` that of a search within a gap (`IsCertificateWithin`): no step lacks room, since each leaf was closed by the same steps. Its names are
//! words where the model's are (`names_law`, `within_names_law`, `unbounded_names_law`), cuts among them, so that its text states it. A cut that does
//! not count is left out, and so is its multiplier.
//!
//! The walk keeps the path to a node and no stack of its own, and memory is linear in the tree. Beside the path it keeps the
//! region by its tightest changes (`tight_regions`): a leaf is judged by at most two changes for each column, however deep it is.
//!
//! Below stand the search (`tree_edit`), the checker (`cert_check`) and what a text of words is (`cert_writer`). Above stands the
//! command that writes a certificate.
#![tactic(auto)]

mod laws;
mod leaf;
mod names;
// (certificates of whole searches are tried where they are written and checked,
// in `script_rows`)
mod used;
mod walk;
mod writing;

pub use laws::{names_law, unbounded_names_law, within_names_law};
pub use writing::{certificate, certificate_within, unbounded_certificate};
