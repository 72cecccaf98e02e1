//! Searches given away as data and made of it again, written to texts and found in them.
//!
//! The data of a search is its model, the derivations of its cuts, its points, and its nodes in preorder with their lists and
//! states (`data_of`). Of data that comes from elsewhere nothing is believed but that its lists name what is there:
//!
//! ```text
//! cut        counts exactly where it derives at the stated model
//! point      stays exactly where it is feasible, and no step of its test or its value lacks room
//! split      one that is not on an integer column is one leaf, with its multipliers and its basis
//! leaf       is judged by its lists, whatever state is stated
//!
//! text_of(search)  = write(data_of(search))
//! search_in(text)  = search_of(read(text))
//! ```
//!
//! Public contract: `search_of` answers the search that is stated so (`Restores` in specs/Saved), which is sound by its type, and
//! whose answers are true of its model whatever the tree was; `data_of` answers the data of a search, and a search that is made of
//! its own data has the same data again (`saved_law`), so each leaf is open or closed as it was.
//!
//! `text_of` answers the text of the data of a search, which states that data where it is writable (`IsTextOf` in specs/Files):
//! its model is one that scripts may have, and its lists stand in order. `search_in` answers the search that a text states, or the first fault of
//! the text (`IsSearchFound`): whatever bytes it is given, the search is sound, so what it answers is true of the stated model. A
//! search that is found in its own text is open and closed as it was (`file_law`). One that is made of a text is in order
//! (`stated_order_law`), and a search in order can be written, where its model can (`writable_law`).
//!
//! Below stand the search (`tree_edit`), pools of cuts (`cover_cuts`), trees (`branch_tree`) and the text layer (`warm_file`,
//! `warm_writer`); above stands the environment.
#![tactic(auto)]

mod files;
mod lawful;
mod laws;
mod restoring;
mod saving;

pub use files::{search_in, text_of};
pub use laws::{file_law, saved_law, stated_order_law, writable_law};
pub use restoring::search_of;
pub use saving::data_of;
