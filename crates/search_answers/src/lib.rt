//! What a solve of a model answers.
//!
//! Public contract: `Answer` is the type alone. What is shown by each of its variants is said where one is given: for a search in
//! `tree_search`, for an environment in `sym_env`, for a solver of inner models in `front_solver`.
//!
//! Below stand models, their points and the places where a search stopped (`lp_model`). Above stand the searches, the environments,
//! the sweeps of frontiers and the texts of replies.
#![tactic(auto)]

mod answers;

pub use answers::Answer;
