//! Replies that tell the outcomes of a model with two objectives.
//!
//! ```text
//! frontier complete K       then for each of K outcomes `f V1 V2`, by rising first value, and `end`
//! frontier part K           then for each of K outcomes `f V1 V2`, the line of a stop, of which the part of the sweep is told last, with its
//!                           place in the part's inner model, or `stopped scale PART PLACE`, and `end`
//! ```
//!
//! PART is `least1`, `left`, `least2`, `right`, `gap P1 P2 Q1 Q2` or `pull R1 R2`, PLACE `width`, `col NAME`, `side` or `value`.
//!
//! Public contract: `put_complete_front`, `put_stopped_front` and `put_wide_front` append exactly these lines (specs/FrontReplies). The
//! outcomes that they tell are read back from the bytes alone (`front_shown` in specs/FrontsShown): `front_shown_law`. Want of memory is
//! the only error.
//!
//! Below stand outcomes and fronts (`frontier`), lines of words (`cert_writer`), the lines of stops (`reply_texts`) and the parts of a sweep
//! (`wcn_driver`). Above stands the command that asks for whole fronts.
#![tactic(auto)]

mod laws;
mod parts;
mod printing;

pub use laws::front_shown_law;
pub use parts::{put_stopped_front, put_wide_front};
pub use printing::put_complete_front;
