// The commands of bounds: names with numbers, read from a line's words and placed in the model that is present.
ghost use Rattle.std.specs.Prelude.{◌≡◌, ◌≢◌, [], map, AllPairs, OnOk};
ghost use Rattle.edit_words.specs.EditWords.{names_in, pairs_asks};
ghost use Rattle.bound_commands.specs.Bounding.{AnswersBound, RepliesToNumbers, RepliesToPairs};

use crate::telling::bound_with;
use command_words::{NewNumbers, OptimumBound};
use edit_words::{Entries, read_pairs};
use frac128::Frac;
use kept_env::Env;
use lp_model::Name;
use reply_texts::{ARGUMENTS_REPLY, MEMORY_REPLY, NO_MODEL_REPLY, write_no_number};
use shell_replies::{placed_numbers, write_unplaced};
use std::alloc::{AllocError, Global};
use tree_edit::Search;

/// The bound with these numbers beside names, or what is wrong with the names.
fn bound_by_names(
    alloc: Global,
    search: &Search,
    which: OptimumBound,
    numbers: NewNumbers,
    named: &[(Name, Frac)],
    reply: &mut Vec<u8>,
) -> Result<(), AllocError>
    requires distinct { AllPairs (λ a b. a ≢ b) (names_in named.now) }
    requires empty { reply.old.items ≡ [] }
    ensures { OnOk result (AnswersBound which numbers search.now named.now reply.new.items) }
{
    match placed_numbers(alloc, search.model(), numbers, named) {
        Ok(other) => bound_with(alloc, search, which, &other, reply),
        Err(unplaced) => write_unplaced(reply, named, unplaced),
    }
}

/// The bound with these numbers beside names, if there is a model.
fn bound_by_numbers(
    alloc: Global,
    env: &Env,
    which: OptimumBound,
    numbers: NewNumbers,
    named: &[(Name, Frac)],
    reply: &mut Vec<u8>,
) -> Result<(), AllocError>
    requires distinct { AllPairs (λ a b. a ≢ b) (names_in named.now) }
    requires empty { reply.old.items ≡ [] }
    ensures { OnOk result (RepliesToNumbers which numbers env.now.search named.now reply.new.items) }
{
    let Some(search) = env.search() else {
        return reply.extend_from_slice(NO_MODEL_REPLY);
    };
    bound_by_names(alloc, search, which, numbers, named, reply)
}

/// Tells a bound on the best value with the sides, or the costs, that the words behind the command say. Nothing changes.
pub fn bound(
    alloc: Global,
    env: &Env,
    which: OptimumBound,
    numbers: NewNumbers,
    words: &[&[u8]],
    reply: &mut Vec<u8>,
) -> Result<(), AllocError>
    requires { reply.old.items ≡ [] }
    ensures { OnOk result (RepliesToPairs which numbers (pairs_asks (map (λ word. word.now) words.now)) env.now reply.new.items) }
{
    match read_pairs(alloc, words) {
        Entries::Read(named) => {
            let told = bound_by_numbers(alloc, env, which, numbers, named.as_slice(), reply);
            drop(named);
            told
        }
        Entries::Misused => reply.extend_from_slice(ARGUMENTS_REPLY),
        Entries::NoNumber { word } => write_no_number(reply, word),
        Entries::Memory => reply.extend_from_slice(MEMORY_REPLY),
    }
}
