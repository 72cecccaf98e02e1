//! The command that writes the certificate of the answer that is held: `cert F`.
//!
//! ```text
//! Finished       the tree of the search, with its multipliers and cuts, and the claim that they prove     (`certificate` of `tree_cert`)
//! Within(G)      the same of a search with open leaves, each of which closes against the incumbent's value less G   (`certificate_within`)
//! Unbounded(d)   the incumbent x of the search and the ray d: x + t d is feasible for each t >= 0         (`unbounded_certificate`)
//! Front(c)       c: outcomes with their points, and a tree for each inner model                           (held as it is)
//! Infeasible(c)  c: a tree that closes without a point                                                    (held as it is)
//! Nothing        there is none
//! ```
//!
//! The text that stands in the file where the reply is `ok` reads as that certificate, which the checker accepts for the model that is
//! present (`cert_check`, `front_check`), so that its claim is true, or its outcomes are the front. `check MODEL CERT` prints the verdict on
//! such a file.
//!
//! What `cert` may be answered, and what a reply of each kind says for sure, is the family `certificates` (specs/Family). It is lawful
//! (`certificates_law`): each reply has its cause, no count of faults falls, and the environment stays.
//!
//! Public contract: `cert` writes the file and a reply as `CertStep` has them (specs/Certify), `held_certificate` makes the text alone
//! (`IsCertAnswer` in specs/Certificates). Below stand the environment (`kept_env`), which holds an answer only of a search that shows it,
//! the certificates of searches (`tree_cert`) and files (`command_files`); above, the shell.
#![tactic(auto)]

mod certificates;
mod laws;
mod writing;

pub use certificates::held_certificate;
pub use laws::certificates_law;
pub use writing::cert;
