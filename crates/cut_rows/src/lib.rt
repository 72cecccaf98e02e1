//! Worked rows of cover cuts: what derives, what is found, and what the cuts do to the numbers of a leaf.
//!
//! A row says a model, derivations and a pool, and behind `->` what `valid`, `cut_row`, `CutPool`, `separate`, `lag` and `farkas` are to
//! answer. Each answer of a row that is not as wanted is told.
//!
//! ```text
//! model                         and a text: another model, said by lines (`model_texts`). The pool stays as it is
//! edit sides A kept 6           a change of the model, said by such a line
//! cover A hi X -Y               the derivation that is spoken of from here on
//! valid -> true                 whether it derives: `true`, `false`, `wide cover A X`
//! cut -> X - Y <= 0 live        its row, and whether it counts
//! add -> 0                      adds it to the pool: its place, or `full`
//! recheck                       tells again which cuts of the pool count
//! live 0 -> true                whether the pool's cut at a place counts
//! kept 0 -> X - Y <= 0 live     the pool's cut at a place, or `none`; `kept -> 1` is their number
//! separate 5 at X 1 Y 2/3 -> A hi X Y, B lo -X -Y
//!                               the covers that a point violates, at most so many, or `none`; 0 for a column without number
//! lag A -1 cut#0 -4 in X 0..0 -> -9
//!                               the number of multipliers with the pool's cuts in a region, `minus`, or `wide` and the step
//! farkas cut#0 -1 -> -2         the same without costs
//! ```
//!
//! A row's lines are done from above. `docs/ROWS.md` tells the form of rows. The proof of this crate says that it is safe and ends whatever the files are, and
//! nothing of what they want: that comes from outside, and never from what the crates of cuts answer.
#![tactic(auto)]

mod answers;
mod derivations;
mod stage;

pub use stage::CutStage;
