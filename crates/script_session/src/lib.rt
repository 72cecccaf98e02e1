//! A run of a script: its commands go to a machine one by one, and the machine's replies go to a sink.
//!
//! A script is bytes. A line ends at a line feed, and a carriage return before that is dropped; a last line without a line
//! feed counts where it isn't empty. A line of more than `LINE_LIMIT` bytes before its line feed is too long: its reply
//! is `error 01 line too long`, whatever it holds, and nothing changes. A line's words stand between blanks and tabs. A
//! line without words, or whose first byte is `#`, is silent: it has no reply. Any other line is a command, which is its
//! words. So a line asks nothing or has one request, which is `Overlong` or `Words words`. The machine says by its
//! relation `step` what it may answer to a command and how that leaves it and the store, and by `ends` which commands end
//! the script; `RequestStep step` is the same of requests. A run is a transcript:
//! `Transcript (RequestStep step) s0 [q1, .., qn] [r1, .., rn] sn` has one reply to each request, each a step from where
//! the last one led, and what is written is `r1 ++ .. ++ rn`.
//!
//! `IsRun` in specs/Run.antt is the one definition of a run, for every status. It is over the bytes that were taken from the
//! source, so it says the same of a source that does not tell what it holds.
//!
//! Contract in one sentence: `run_script` writes the transcript of the script's requests, up to the first that ends it,
//! and its status tells why it stopped earlier, if it did, and whether all is well.
//!
//! Nothing here depends on what the commands are, so this layer stands as it is when one is added. Below stand `sym_io`:
//! sources, sinks and stores; and `text_lines`: lines and words. Above stands the shell, whose machine is the solver.
#![tactic(auto)]

mod machine;
mod output;
mod reading;
mod reply;
mod run;
mod session;

pub use machine::Machine;
pub use output::write_all;
pub use reading::{LINE_LIMIT, PIECE_LENGTH, SCRIPT_LIMIT};
pub use reply::is_memory_reply;
pub use run::run_script;
