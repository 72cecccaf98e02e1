// Why no more outcomes were found: a part of the sweep, and what stopped it.
ghost use Rattle.std.specs.Prelude.{◌≡◌, ◌++◌, IfOk};
ghost use Rattle.cert_writer.specs.CertText.{line_text};
ghost use Rattle.wcn_driver.specs.declared.answers.Part.TheVariants.{Gap, Pull};
ghost use Rattle.wcn_driver.specs.declared.answers.ScalePlace.TheVariants as place;
ghost use Rattle.front_replies.specs.FrontReplies.{part_words, scale_place_text, scale_stop_text, stopped_front_text, wide_front_text};

use crate::printing::{put_front_part, put_values};
use frac128::Frac;
use frontier::Outcome;
use lp_model::{ColId, Model, StopWhy};
use reply_texts::{column_name, write_part_stop};
use std::alloc::{AllocError, Global};
use wcn_driver::{Part, ScalePlace};

fn put_gap(text: &mut Vec<u8>, before: &Outcome, behind: &Outcome) -> Result<(), AllocError>
    ensures { IfOk result (λ _. text.new.items ≡ text.old.items ++ line_text (part_words (Gap before.now behind.now))) }
{
    let Ok(()) = text.extend_from_slice(b"gap") else {
        return Err(AllocError);
    };
    let Ok(()) = put_values(text, before) else {
        return Err(AllocError);
    };
    put_values(text, behind)
}

fn put_pull(text: &mut Vec<u8>, most: &Outcome) -> Result<(), AllocError>
    ensures { IfOk result (λ _. text.new.items ≡ text.old.items ++ line_text (part_words (Pull most.now))) }
{
    let Ok(()) = text.extend_from_slice(b"pull") else {
        return Err(AllocError);
    };
    put_values(text, most)
}

/// The name of a part.
fn put_part(text: &mut Vec<u8>, part: &Part) -> Result<(), AllocError>
    ensures { IfOk result (λ _. text.new.items ≡ text.old.items ++ line_text (part_words part.now)) }
{
    match part {
        Part::Least1 => text.extend_from_slice(b"least1"),
        Part::Left => text.extend_from_slice(b"left"),
        Part::Least2 => text.extend_from_slice(b"least2"),
        Part::Right => text.extend_from_slice(b"right"),
        Part::Gap { p, q } => put_gap(text, p, q),
        Part::Pull { r } => put_pull(text, r),
    }
}

fn put_column(text: &mut Vec<u8>, model: &Model, column: ColId) -> Result<(), AllocError>
    ensures { IfOk result (λ _. text.new.items ≡ text.old.items ++ scale_place_text model.now (place.Col column)) }
{
    let Ok(()) = text.extend_from_slice(b"col ") else {
        return Err(AllocError);
    };
    text.extend_from_slice(column_name(model, column))
}

/// The first number without room.
fn put_scale_place(text: &mut Vec<u8>, model: &Model, place: &ScalePlace) -> Result<(), AllocError>
    ensures { IfOk result (λ _. text.new.items ≡ text.old.items ++ scale_place_text model.now place.now) }
{
    match place {
        ScalePlace::Width => text.extend_from_slice(b"width"),
        ScalePlace::Col(column) => put_column(text, model, *column),
        ScalePlace::Side => text.extend_from_slice(b"side"),
        ScalePlace::Value => text.extend_from_slice(b"value"),
    }
}

/// The line of a part with a number without room.
fn put_scale_stop(
    text: &mut Vec<u8>,
    model: &Model,
    part: &Part,
    place: &ScalePlace,
) -> Result<(), AllocError>
    ensures { IfOk result (λ _. text.new.items ≡ text.old.items ++ scale_stop_text model.now part.now place.now) }
{
    let Ok(()) = text.extend_from_slice(b"stopped scale ") else {
        return Err(AllocError);
    };
    let Ok(()) = put_part(text, part) else {
        return Err(AllocError);
    };
    let Ok(()) = text.push(b' ') else {
        return Err(AllocError);
    };
    let Ok(()) = put_scale_place(text, model, place) else {
        return Err(AllocError);
    };
    text.extend_from_slice(b"\n")
}

/// A part of a front behind a text, where the search of a part of the sweep stopped. Outcomes are in the model's own sense, by rising
/// first value; the part, the bound and the best value are in least form, without constants. Rows and columns have the names of this model.
pub fn put_stopped_front(
    alloc: Global,
    text: &mut Vec<u8>,
    model: &Model,
    outcomes: &[Outcome],
    part: &Part,
    why: &StopWhy,
    results: u64,
    bound: &Option<Frac>,
    best: &Option<Frac>,
) -> Result<(), AllocError>
    ensures { IfOk result (λ _. text.new.items ≡ text.old.items ++ stopped_front_text model.now outcomes.now part.now why.now results bound.now best.now) }
{
    let mut name = Vec::new(alloc);
    let Ok(()) = put_part(&mut name, part) else {
        return Err(AllocError);
    };
    let Ok(()) = put_front_part(text, outcomes) else {
        return Err(AllocError);
    };
    let Ok(()) = write_part_stop(text, model, &name, why, results, bound, best) else {
        return Err(AllocError);
    };
    text.extend_from_slice(b"end\n")
}

/// The same, where a number of a part has no room.
pub fn put_wide_front(
    text: &mut Vec<u8>,
    model: &Model,
    outcomes: &[Outcome],
    part: &Part,
    place: &ScalePlace,
) -> Result<(), AllocError>
    ensures { IfOk result (λ _. text.new.items ≡ text.old.items ++ wide_front_text model.now outcomes.now part.now place.now) }
{
    let Ok(()) = put_front_part(text, outcomes) else {
        return Err(AllocError);
    };
    let Ok(()) = put_scale_stop(text, model, part, place) else {
        return Err(AllocError);
    };
    text.extend_from_slice(b"end\n")
}
