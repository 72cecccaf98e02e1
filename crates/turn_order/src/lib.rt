//! Whose turn it is among workers that share a search.
//!
//! Workers are known by their places, from 0. Those that hold a leaf can act, and where an open leaf is held by nobody the idle ones
//! can too. With c of them, in rising order, and the next word w of a seed, the one at the place `w mod c` acts. Where there is one worker
//! no word is drawn.
//!
//! Public contract: `whose_turn` answers the worker of `IsNextTurn` (specs/Turns), and draws the word that it takes. The words are those of a seed
//! (specs/Words): the generator is a value, and each word is drawn by one step of it, so what is drawn next is known at every turn. `some_law`
//! says when some worker can act.
//!
//! Below stands the generator (`rand_pcg`). Above stand the models of `bench` (`bench_models`), which take their words from here, and
//! the search of a model (`tree_search`), whose workers take their turns so.
#![tactic(auto)]

mod laws;
mod turns;

pub use laws::some_law;
pub use turns::{whose_turn, words_of};
