// The bytes of the reply to what was found of a model.
ghost use Rattle.std.specs.Prelude.{◌≡◌, ◌<◌, ◌^◌, ◌++◌, length, IfOk};
ghost use Rattle.std.specs.List.{All};
ghost use Rattle.frac128.specs.Range.{Fits};
ghost use Rattle.lp_model.specs.Program.{value};
ghost use Rattle.reply_texts.specs.Reports.{AnswerIsShaped, AnswerHasRoom};
ghost use Rattle.reply_texts.specs.Texts.{value_line, column_line, column_lines, optimal_text, within_line, within_text, infeasible_text, unbounded_text, number_or_none, known_words, known_text, stopped_pivots_text, stopped_wide_text, stopped_text, answer_text};

use crate::blocks::{write_block, write_step_line};
use crate::fixed::MEMORY_REPLY;
use crate::pieces::{write_count_line, write_two};
use frac128::Frac;
use lp_model::{Col, Model, PivotPlace, Point, StopWhy, WideAt};
use search_answers::Answer;
use std::alloc::AllocError;

/// No point is feasible, and how many results were placed.
pub fn write_infeasible(reply: &mut Vec<u8>, results: u64) -> Result<(), AllocError>
    ensures { IfOk result (λ _. reply.new.items ≡ reply.old.items ++ infeasible_text results) }
{
    write_count_line(reply, b"infeasible nodes ", results)
}

/// The first line of an optimum: its value, and how many results were placed.
fn write_value(reply: &mut Vec<u8>, value: &Frac, results: u64) -> Result<(), AllocError>
    ensures { IfOk result (λ _. reply.new.items ≡ reply.old.items ++ value_line value.now results) }
{
    let Ok(()) = reply.extend_from_slice(b"optimal ") else {
        return Err(AllocError);
    };
    let Ok(()) = value.write_to(reply) else {
        return Err(AllocError);
    };
    write_count_line(reply, b" nodes ", results)
}

/// The first line of a point within a gap: the gap, the point's value, and how many results were placed.
fn write_gap_and_value(
    reply: &mut Vec<u8>,
    gap: &Frac,
    value: &Frac,
    results: u64,
) -> Result<(), AllocError>
    ensures { IfOk result (λ _. reply.new.items ≡ reply.old.items ++ within_line gap.now value.now results) }
{
    let Ok(()) = reply.extend_from_slice(b"within ") else {
        return Err(AllocError);
    };
    let Ok(()) = gap.write_to(reply) else {
        return Err(AllocError);
    };
    let Ok(()) = reply.extend_from_slice(b" ") else {
        return Err(AllocError);
    };
    let Ok(()) = value.write_to(reply) else {
        return Err(AllocError);
    };
    write_count_line(reply, b" nodes ", results)
}

/// The line of a column whose number is not 0.
fn write_column_line(reply: &mut Vec<u8>, name: &[u8], number: &Frac) -> Result<(), AllocError>
    ensures { IfOk result (λ _. reply.new.items ≡ reply.old.items ++ column_line name.now number.now) }
{
    if number.is_zero() {
        return Ok(());
    }
    let Ok(()) = write_two(reply, b"x ", name) else {
        return Err(AllocError);
    };
    let Ok(()) = reply.extend_from_slice(b" ") else {
        return Err(AllocError);
    };
    let Ok(()) = number.write_to(reply) else {
        return Err(AllocError);
    };
    reply.extend_from_slice(b"\n")
}

/// The lines of the columns in order.
fn write_columns(reply: &mut Vec<u8>, columns: &[Col], numbers: &[Frac]) -> Result<(), AllocError>
    requires { length numbers.now ≡ length columns.now }
    ensures { IfOk result (λ _. reply.new.items ≡ reply.old.items ++ column_lines columns.now numbers.now) }
{
    for (index, column) in columns.iter().enumerate() {
        let Ok(()) = write_column_line(reply, column.name.as_slice(), &numbers[index]) else {
            return Err(AllocError);
        };
    }
    Ok(())
}

/// Nothing happens: a caller learns that each fraction has room.
fn have_room(numbers: &[Frac])
    ensures { All Fits numbers.now }
{
    for number in numbers {
        number.has_room();
    }
}

/// An optimum: its value, how many results were placed, and its numbers.
fn write_optimal(
    reply: &mut Vec<u8>,
    model: &Model,
    best: &Frac,
    point: &Point,
    results: u64,
) -> Result<(), AllocError>
    requires shape { length point.now ≡ length model.now.cols }
    requires best { best.now ≡ value model.now 1 point.now }
    ensures { IfOk result (λ _. reply.new.items ≡ reply.old.items ++ optimal_text model.now point.now results) }
{
    let Ok(()) = write_value(reply, best, results) else {
        return Err(AllocError);
    };
    let Ok(()) = write_columns(reply, model.cols(), point.as_slice()) else {
        return Err(AllocError);
    };
    reply.extend_from_slice(b"end\n")
}

/// A point within a gap: the gap, its value, how many results were placed, and its numbers.
fn write_within(
    reply: &mut Vec<u8>,
    model: &Model,
    gap: &Frac,
    best: &Frac,
    point: &Point,
    results: u64,
) -> Result<(), AllocError>
    requires shape { length point.now ≡ length model.now.cols }
    requires best { best.now ≡ value model.now 1 point.now }
    ensures { IfOk result (λ _. reply.new.items ≡ reply.old.items ++ within_text model.now gap.now point.now results) }
{
    let Ok(()) = write_gap_and_value(reply, gap, best, results) else {
        return Err(AllocError);
    };
    let Ok(()) = write_columns(reply, model.cols(), point.as_slice()) else {
        return Err(AllocError);
    };
    reply.extend_from_slice(b"end\n")
}

/// A model whose objective has no end.
fn write_unbounded(reply: &mut Vec<u8>, results: u64) -> Result<(), AllocError>
    ensures { IfOk result (λ _. reply.new.items ≡ reply.old.items ++ unbounded_text results) }
{
    write_count_line(reply, b"unbounded nodes ", results)
}

pub(crate) fn write_number_or_none(
    reply: &mut Vec<u8>,
    number: &Option<Frac>,
) -> Result<(), AllocError>
    ensures { IfOk result (λ _. reply.new.items ≡ reply.old.items ++ number_or_none number.now) }
{
    match number {
        Some(number) => number.write_to(reply),
        None => reply.extend_from_slice(b"none"),
    }
}

/// The number of results, the bound and the best value.
pub(crate) fn write_known_words(
    reply: &mut Vec<u8>,
    results: u64,
    bound: &Option<Frac>,
    best: &Option<Frac>,
) -> Result<(), AllocError>
    ensures { IfOk result (λ _. reply.new.items ≡ reply.old.items ++ known_words results bound.now best.now) }
{
    let mut digits = itoa::Buffer::new();
    let Ok(()) = write_two(reply, digits.format(results).as_bytes(), b" bound ") else {
        return Err(AllocError);
    };
    let Ok(()) = write_number_or_none(reply, bound) else {
        return Err(AllocError);
    };
    let Ok(()) = reply.extend_from_slice(b" best ") else {
        return Err(AllocError);
    };
    write_number_or_none(reply, best)
}

/// The same, and the line's end.
fn write_known(
    reply: &mut Vec<u8>,
    results: u64,
    bound: &Option<Frac>,
    best: &Option<Frac>,
) -> Result<(), AllocError>
    ensures { IfOk result (λ _. reply.new.items ≡ reply.old.items ++ known_text results bound.now best.now) }
{
    let Ok(()) = write_known_words(reply, results, bound, best) else {
        return Err(AllocError);
    };
    reply.extend_from_slice(b"\n")
}

/// The first line of a stop: why, and what is known.
fn write_stop(
    reply: &mut Vec<u8>,
    why: &[u8],
    results: u64,
    bound: &Option<Frac>,
    best: &Option<Frac>,
) -> Result<(), AllocError>
    ensures { IfOk result (λ _. reply.new.items ≡ reply.old.items ++ (why.now ++ known_text results bound.now best.now)) }
{
    let Ok(()) = reply.extend_from_slice(why) else {
        return Err(AllocError);
    };
    write_known(reply, results, bound, best)
}

/// A search stopped where a relaxation had as many moves as the limit allows.
fn write_stopped_pivots(
    reply: &mut Vec<u8>,
    model: &Model,
    results: u64,
    bound: &Option<Frac>,
    best: &Option<Frac>,
    place: &PivotPlace,
) -> Result<(), AllocError>
    ensures { IfOk result (λ _. reply.new.items ≡ reply.old.items ++ stopped_pivots_text model.now results bound.now best.now place.now) }
{
    let Ok(()) = write_stop(reply, b"stopped pivots ", results, bound, best) else {
        return Err(AllocError);
    };
    let Ok(()) = write_block(
        reply,
        model,
        &place.path,
        place.cuts.as_slice(),
        &place.basis,
    ) else {
        return Err(AllocError);
    };
    reply.extend_from_slice(b"end\n")
}

/// A search stopped at a step of arithmetic without room.
fn write_stopped_wide(
    reply: &mut Vec<u8>,
    model: &Model,
    results: u64,
    bound: &Option<Frac>,
    best: &Option<Frac>,
    place: &WideAt,
) -> Result<(), AllocError>
    ensures { IfOk result (λ _. reply.new.items ≡ reply.old.items ++ stopped_wide_text model.now results bound.now best.now place.now) }
{
    let Ok(()) = write_stop(reply, b"stopped wide ", results, bound, best) else {
        return Err(AllocError);
    };
    let Ok(()) = write_block(
        reply,
        model,
        &place.path,
        place.cuts.as_slice(),
        &place.basis,
    ) else {
        return Err(AllocError);
    };
    let Ok(()) = write_step_line(reply, model, &place.step) else {
        return Err(AllocError);
    };
    reply.extend_from_slice(b"end\n")
}

/// Where and why a search stopped.
fn write_stopped(
    reply: &mut Vec<u8>,
    model: &Model,
    why: &StopWhy,
    results: u64,
    bound: &Option<Frac>,
    best: &Option<Frac>,
) -> Result<(), AllocError>
    ensures { IfOk result (λ _. reply.new.items ≡ reply.old.items ++ stopped_text model.now why.now results bound.now best.now) }
{
    match why {
        StopWhy::Nodes => write_stop(reply, b"stopped nodes ", results, bound, best),
        StopWhy::Tree => write_stop(reply, b"stopped tree ", results, bound, best),
        StopWhy::Pivots(place) => write_stopped_pivots(reply, model, results, bound, best, place),
        StopWhy::Wide(at) => write_stopped_wide(reply, model, results, bound, best, at),
    }
}

/// What is found of a model.
pub fn write_answer(reply: &mut Vec<u8>, model: &Model, answer: &Answer) -> Result<(), AllocError>
    requires { AnswerIsShaped model.now answer.now }
    ensures { IfOk result (λ _. reply.new.items ≡ reply.old.items ++ answer_text model.now answer.now) }
{
    match answer {
        Answer::Optimal {
            value,
            point,
            results,
        } => write_optimal(reply, model, value, point, *results),
        Answer::Within {
            gap,
            value,
            point,
            results,
        } => write_within(reply, model, gap, value, point, *results),
        Answer::Infeasible { results } => write_infeasible(reply, *results),
        Answer::Unbounded { results } => write_unbounded(reply, *results),
        Answer::Stopped {
            why,
            results,
            bound,
            best,
        } => write_stopped(reply, model, why, *results, bound, best),
        Answer::Memory => reply.extend_from_slice(MEMORY_REPLY),
    }
}

/// Nothing happens: a caller learns that the numbers of an optimum have room.
fn optimum_has_room(value: &Frac, point: &Point, results: u64)
    ensures value { Fits value.now }
    ensures numbers { All Fits point.now }
    ensures count { results < 2 ^ 64 }
{
    value.has_room();
    have_room(point.as_slice());
}

/// Nothing happens: a caller learns that the numbers of a point within a gap have room.
fn within_has_room(gap: &Frac, value: &Frac, point: &Point, results: u64)
    ensures gap { Fits gap.now }
    ensures value { Fits value.now }
    ensures numbers { All Fits point.now }
    ensures count { results < 2 ^ 64 }
{
    gap.has_room();
    optimum_has_room(value, point, results);
}

/// Nothing happens: a caller learns that the numbers of an answer have room, so that its text can be read back.
pub fn answer_has_room(answer: &Answer)
    ensures { AnswerHasRoom answer.now }
{
    match answer {
        Answer::Optimal {
            value,
            point,
            results,
        } => optimum_has_room(value, point, *results),
        Answer::Within {
            gap,
            value,
            point,
            results,
        } => within_has_room(gap, value, point, *results),
        Answer::Infeasible { .. }
        | Answer::Unbounded { .. }
        | Answer::Stopped { .. }
        | Answer::Memory => {}
    }
}
