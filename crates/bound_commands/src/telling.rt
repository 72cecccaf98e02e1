// The bound of a search's model with other numbers, as a reply.
ghost use Rattle.std.specs.Prelude.{◌≡◌, [], OnOk};
ghost use Rattle.dual_bounds.specs.NewNumbers.{with_new_numbers, AreNewNumbers, ArePresentNumbers};
ghost use Rattle.bound_commands.specs.private.Placing.{IsLowerReply, IsUpperReply, IsBoundReply};

use command_words::OptimumBound;
use dual_bounds::{LowerBound, OtherNumbers, UpperBound, lower_bound_with, upper_bound_with};
use lp_model::Model;
use reply_texts::MEMORY_REPLY;
use shell_replies::{write_lower, write_upper};
use std::alloc::{AllocError, Global};
use tree_edit::Search;

/// A lower bound, or that there was no memory for it.
fn tell_lower(
    reply: &mut Vec<u8>,
    model: &Model,
    answer: &Result<LowerBound, AllocError>,
) -> Result<(), AllocError>
    requires { reply.old.items ≡ [] }
    ensures { OnOk result (IsLowerReply model.now answer.now reply.new.items) }
{
    match answer {
        Ok(bound) => write_lower(reply, model, bound),
        Err(_) => reply.extend_from_slice(MEMORY_REPLY),
    }
}

/// An upper bound, or that there was no memory for it.
fn tell_upper(
    reply: &mut Vec<u8>,
    model: &Model,
    answer: &Result<UpperBound, AllocError>,
) -> Result<(), AllocError>
    requires { reply.old.items ≡ [] }
    ensures { OnOk result (IsUpperReply model.now answer.now reply.new.items) }
{
    match answer {
        Ok(bound) => write_upper(reply, model, bound),
        Err(_) => reply.extend_from_slice(MEMORY_REPLY),
    }
}

/// The bound of the search's model with these numbers.
pub(crate) fn bound_with(
    alloc: Global,
    search: &Search,
    which: OptimumBound,
    numbers: &OtherNumbers,
    reply: &mut Vec<u8>,
) -> Result<(), AllocError>
    requires numbers { AreNewNumbers search.now.model numbers.now }
    requires empty { reply.old.items ≡ [] }
    ensures { OnOk result (IsBoundReply which search.now (with_new_numbers search.now.model numbers.now) (ArePresentNumbers search.now.model numbers.now) reply.new.items) }
{
    match which {
        OptimumBound::Lower => {
            let answer = lower_bound_with(alloc, search, numbers);
            let told = tell_lower(reply, search.model(), &answer);
            drop(answer);
            told
        }
        OptimumBound::Upper => {
            let answer = upper_bound_with(alloc, search, numbers);
            let told = tell_upper(reply, search.model(), &answer);
            drop(answer);
            told
        }
    }
}
