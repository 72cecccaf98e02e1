//! The shell: a script's commands, answered over the model that is present.
//!
//! It is the sum of the families of commands, with Asks what a line's words ask for:
//!
//! ```text
//! in_family a                 the family that answers a, and what that is to it                     (specs/Step)
//! Step old words reply new    = (in_family a).Step old reply new, with a = asks_of words
//! Promise k old words ..      what a reply of the kind k says for sure                              (specs/Headline)
//!
//! load, write, save, restore  file_commands        lbrhs, lbobj, ubrhs, ubobj    bound_commands      solve, warm    search_replies
//! edit, trim                  edit_commands        cert                          cert_commands       mcsolve        front_commands
//!                                                                                                    quit, else     own, here
//! ```
//!
//! `Step` fixes each reply's bytes and the state that it leaves (the environment, the files, the store's count of faults). What a reply says for
//! sure, and with it the headline, is `HasCauses`: `optimal` or `within G`
//! shows a feasible point that no feasible point beats by more than 0 or G, `infeasible` means that
//! there is none, `unbounded` that the objective has no end, `frontier complete` shows exactly the outcomes that no other dominates, no feasible point passes the bound of a search that stopped, nor a bound at
//! other sides or costs, the certificate that was written is accepted for the model, what was written of a model is its canonical
//! text, what was saved is the text of the search, and a search that is restored is made of what the file's text states, its cuts derived
//! anew, its points tested and its leaves judged. Each family says it of its own replies, once; `Headline` has in one place which kind
//! of reply comes of which commands. And whatever was answered, the search that the environment has then is sound (`IsAnswered`).
//! `check MODEL CERT` prints the verdict on a certificate's file (`Checks` of `command_files`).
//!
//! Contract in one sentence: `run` writes the replies of one `Step` after the other, for all of the script's commands or,
//! where something failed, for its first ones, or what a check says, and its status says which. `run_program` calls it with the
//! words of the command line and the real ends, and ends with its status.
//!
//! Below stand `program_words`, which says what the command line asks for; `script_session`, which reads the script and knows
//! no command; `command_words`, which says what a line's words ask for; the families; `sym_env`, which makes the searches that
//! `search_replies` tells; `front_search`, which finds the fronts that `front_commands` tells; and `command_files`, which checks
//! certificates. Above stands `sym_main`.
#![tactic(auto)]

mod ends;
mod laws;
mod program;
mod searching;
mod shell;

pub use ends::run_program;
pub use laws::{restored_law, told_law};
pub use program::run;
