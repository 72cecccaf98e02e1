//! What the words of a script's line ask for.
//!
//! A line's words are a command where the first word names one and the others have one of its forms:
//!
//! ```text
//! load F                 the model of file F
//! load F intupper N      the same, each integer column without an upper bound having the bound N
//! solve                  a search without a limit
//! solve nodes N          a search that may place N results
//! solve pivots N         one that may make N simplex steps in each relaxation
//! solve gap G            one that may end where no point is better than the best one found by more than G
//! solve workers K seed S one that K workers share, whose turn it is being said by the words of the seed S
//!                        these options may stand together, in any order
//! warm                   the search that is kept goes on, with the same options
//! mcsolve                the outcomes of both objectives that no other outcome is better than, without a limit
//! mcsolve nodes N        the same, by searches that may place N results together
//! mcsolve pivots N       by searches that may make N simplex steps in each relaxation; both may stand together, in any order
//! edit ..                an edit of the model; `edit_words` reads the words behind it
//! trim                   the tree is cut down to its root
//! trim depth D           each split at depth D, the root being at 0, becomes one leaf
//! save F                 the search that is kept, as file F
//! restore F              the search of file F
//! lbrhs .., lbobj ..     a lower bound with other sides or costs; `edit_words` reads these words too
//! ubrhs .., ubobj ..     an upper bound
//! cert F                 the certificate of the held answer, as file F
//! write F                the model that is present, as file F
//! quit                   the end of the script
//! ```
//!
//! F is a file name: 1 to 255 letters, digits, `.`, `_` and `-`, not beginning with `.` or `-`. N, D, K and S are whole numbers
//! of 64 bits, in decimal digits without a sign or a leading zero; K isn't 0. G is a number of at least 0, as `frac_text` reads it. Words
//! are compared byte for byte.
//!
//! Contract in one sentence: `read_words` answers exactly what the words ask for, or the first of their faults: no command,
//! none of its forms, no number where a number stands.
//!
//! Below stand the comparison of words (`text_lines`), numbers (`frac128`, `frac_text`) and `itoa`; above stands `sym_shell`, which answers what is asked.
#![tactic(auto)]

mod options;
mod words;

pub use options::SearchOptions;
pub use words::{
    Asked, CommandName, NewNumbers, OptimumBound, file_name, is_file_name_word, read_words,
};
