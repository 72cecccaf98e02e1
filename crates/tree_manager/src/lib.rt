//! The manager of a search's workers: it hands leaves out, takes results back, and keeps who holds what.
//!
//! An event is one call: a worker asks for a job (`give`), hands in a result (`take`) or is lost (`lose`), the model is edited
//! (`edit`), the tree is cut down (`trim`), a cut is added (`add_cut`). Events may come in any order, and results late, repeated or
//! forged: what a result is for and what it says is judged by the search itself (`tree_edit`). There are no threads. An
//! interleaving of workers is a list of events.
//!
//! ```text
//! held     for each worker, from 0, the id of the leaf that it holds, or none
//!          each leaf that is held is open; no two workers hold one
//! ```
//!
//! A leaf is handed out that goes first of those that nobody holds: the least number first, one without a number before all, of
//! equals the least id. A leaf that stops being open, by whatever event, is held by nobody from then on.
//!
//! Public contract: each call does what specs/Events says of its event. Each `Manager` is one of specs/Managers (`IsManager`),
//! so after every list of events the search is sound (`any_events_law`), a finished one has shown its optimum or that there is none
//! (`finished`), and two finished ones on one model have shown the same (`same_end_law`), whoever worked in whatever order.
//!
//! Below stands the search (`tree_edit`). Above, a model is searched by a manager's workers (`tree_search`), and rows of events try it.
#![tactic(auto)]

mod holding;
mod laws;
mod manager;

pub use holding::nobody;
pub use laws::{any_events_law, finished_law, same_end_law};
pub use manager::Manager;
pub use tree_edit::Taken;
