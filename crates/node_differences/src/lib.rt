//! The lists of a tree's nodes told by how they differ from those of the split above.
//!
//! A node has nearly the multipliers and the basis of the split above it. With `a` for the lists of that split, and `l` for the
//! node's own,
//!
//! ```text
//! difference a l     multipliers that `a` has not, or has with another number, and with 0 those that `a` alone has
//! differing a l      variables that stand in one of both alone
//! changed a d        `l` again, or the first change that says nothing        (specs/Differences)
//! told_nodes         nodes in preorder, each told so; the root by a node without entries
//! rebuilt            the nodes that such nodes tell                          (specs/Told)
//! ```
//!
//! Public contract: `told_lists` and `are_told` for whoever writes nodes, with `next_split`, `split_above` and `put_split` for the
//! split above each; `rebuild` for whoever reads them; `difference_law`, `kept_law` and `telling_law` say that differences are
//! undone, that they and what is had again rise, and that each node is told by its parent. No call takes steps in proportion to the
//! depth of a tree on the machine's stack, and no lists are kept but those of the nodes.
//!
//! Below stand `lp_model` and `branch_tree`, whose lists and nodes these are, and `search_data`. Above stand the file that keeps a
//! search: its reader (`warm_file`) and its writer (`warm_writer`).
#![tactic(auto)]

mod above;
mod laws;
mod multipliers;
mod order;
mod rebuilding;
mod telling;
mod variables;

pub use above::{next_split, put_split, split_above};
pub use laws::{difference_law, kept_law, telling_law};
pub use rebuilding::{RebuildFault, rebuild};
pub use telling::{are_told, told_lists};
