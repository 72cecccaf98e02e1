//! The bytes of replies: names, steps of arithmetic, where a search stopped, by itself or as a part of a greater task, answers, bounds and
//! refusals.
//!
//! Each definition in specs/ is a text; each function writes one behind what a reply has already. Names and numbers are
//! written as a model has them, one blank between words, a newline behind each line.
//!
//! Contract in one sentence: where there is memory, what is written is the text that specs/ defines, and all that stood
//! before it stays.
//!
//! Below stands `lp_model`; above, `sym_shell`, which says when each text is the reply.
#![tactic(auto)]

mod answers;
mod blocks;
mod bounds;
mod fixed;
mod names;
mod pieces;
mod refusals;
mod steps;
mod stops;

pub use answers::{answer_has_room, write_answer, write_infeasible};
pub use bounds::{write_bound, write_wide_bound};
pub use fixed::{
    ARGUMENTS_REPLY, FILE_TOO_LONG_REPLY, MEMORY_REPLY, NO_ANSWER_REPLY, NO_MODEL_REPLY, OK_REPLY,
    STORE_REPLY,
};
pub use names::column_name;
pub use refusals::{
    write_bounds, write_faulty_certificate, write_faulty_model, write_faulty_search, write_limit,
    write_no_number, write_not_whole, write_sides, write_taken, write_unknown, write_unknown_name,
};
pub use steps::write_step;
pub use stops::write_part_stop;
