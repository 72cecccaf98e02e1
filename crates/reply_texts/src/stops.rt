// Why and where a search stopped that is a part of a greater task.
ghost use Rattle.std.specs.Prelude.{◌≡◌, ◌++◌, codes, IfOk};
ghost use Rattle.reply_texts.specs.Places.{block_text, step_line};
ghost use Rattle.reply_texts.specs.Texts.{known_words, stop_words, stop_place_text, part_stop_line, part_stop_text};

use crate::answers::write_known_words;
use crate::blocks::{write_block, write_step_line};
use crate::pieces::{write_line, write_two};
use frac128::Frac;
use lp_model::{Model, PivotPlace, StopWhy, WideAt};
use std::alloc::AllocError;

fn words_of_stop(why: &StopWhy) -> &'static [u8]
    ensures { result.now ≡ stop_words why.now }
{
    match why {
        StopWhy::Nodes => b"stopped nodes ",
        StopWhy::Tree => b"stopped tree ",
        StopWhy::Pivots(_) => b"stopped pivots ",
        StopWhy::Wide(_) => b"stopped wide ",
    }
}

/// The words of a stop, and what is known.
fn write_stop_words(
    reply: &mut Vec<u8>,
    why: &StopWhy,
    results: u64,
    bound: &Option<Frac>,
    best: &Option<Frac>,
) -> Result<(), AllocError>
    ensures { IfOk result (λ _. reply.new.items ≡ reply.old.items ++ (stop_words why.now ++ known_words results bound.now best.now)) }
{
    let Ok(()) = reply.extend_from_slice(words_of_stop(why)) else {
        return Err(AllocError);
    };
    write_known_words(reply, results, bound, best)
}

/// The line of a stop in the part of this name.
fn write_part_stop_line(
    reply: &mut Vec<u8>,
    part: &[u8],
    why: &StopWhy,
    results: u64,
    bound: &Option<Frac>,
    best: &Option<Frac>,
) -> Result<(), AllocError>
    ensures { IfOk result (λ _. reply.new.items ≡ reply.old.items ++ part_stop_line part.now why.now results bound.now best.now) }
{
    let Ok(()) = write_stop_words(reply, why, results, bound, best) else {
        return Err(AllocError);
    };
    write_line(reply, b" of ", part)
}

fn write_pivot_place(
    reply: &mut Vec<u8>,
    model: &Model,
    place: &PivotPlace,
) -> Result<(), AllocError>
    ensures { IfOk result (λ _. reply.new.items ≡ reply.old.items ++ block_text model.now place.now.path place.now.cuts place.now.basis) }
{
    write_block(
        reply,
        model,
        &place.path,
        place.cuts.as_slice(),
        &place.basis,
    )
}

fn write_wide_place(reply: &mut Vec<u8>, model: &Model, place: &WideAt) -> Result<(), AllocError>
    ensures { IfOk result (λ _. reply.new.items ≡ reply.old.items ++ (block_text model.now place.now.path place.now.cuts place.now.basis ++ step_line model.now place.now.step)) }
{
    let Ok(()) = write_block(
        reply,
        model,
        &place.path,
        place.cuts.as_slice(),
        &place.basis,
    ) else {
        return Err(AllocError);
    };
    write_step_line(reply, model, &place.step)
}

/// Where the search stopped, if there is such a place.
fn write_stop_place(reply: &mut Vec<u8>, model: &Model, why: &StopWhy) -> Result<(), AllocError>
    ensures { IfOk result (λ _. reply.new.items ≡ reply.old.items ++ stop_place_text model.now why.now) }
{
    match why {
        StopWhy::Nodes => Ok(()),
        StopWhy::Tree => Ok(()),
        StopWhy::Pivots(place) => write_pivot_place(reply, model, place),
        StopWhy::Wide(at) => write_wide_place(reply, model, at),
    }
}

/// Why and where a search stopped that is the part of this name, in the part's own model. No `end` stands behind it: the task's own
/// reply ends there.
pub fn write_part_stop(
    reply: &mut Vec<u8>,
    model: &Model,
    part: &[u8],
    why: &StopWhy,
    results: u64,
    bound: &Option<Frac>,
    best: &Option<Frac>,
) -> Result<(), AllocError>
    ensures { IfOk result (λ _. reply.new.items ≡ reply.old.items ++ part_stop_text model.now part.now why.now results bound.now best.now) }
{
    let Ok(()) = write_part_stop_line(reply, part, why, results, bound, best) else {
        return Err(AllocError);
    };
    write_stop_place(reply, model, why)
}
