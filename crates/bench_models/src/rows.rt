// The rows of a model.
ghost use Rattle.std.specs.Prelude.{◌≡◌, ◌<◌, ◌+◌, ◌^◌, OnOk, IfOk};
ghost use Rattle.lp_model.specs.Edits.{edited};
ghost use Rattle.turn_order.specs.Words.{after_words};
ghost use Rattle.bench_models.specs.BenchModels.{coefficient_by, row_coefficients, total, added_row, after_rows, with_rows};

use crate::names::name;
use frac128::Frac;
use lp_model::{Edit, List, Model, Name};
use model_edits::apply;
use rand_core::utils::NextWord;
use rand_pcg::Lcg64Xsh32;
use std::alloc::{AllocError, Global};

/// The coefficients of a row, each beside the name of its column, and their sum.
fn draw_row(
    alloc: Global,
    words: &mut Lcg64Xsh32,
    cols: u64,
) -> Result<(List<(Name, Frac)>, u128), AllocError>
    ensures named { IfOk result (λ row. row.0 ≡ row_coefficients words.old cols) }
    ensures total { IfOk result (λ row. row.1 ≡ total words.old cols) }
    ensures words { OnOk result (words.new ≡ after_words cols words.old) }
{
    let mut named = List::new(alloc);
    let mut total = 0u128;
    for place in 0..cols {
        let coefficient = words.next_word() % 10;
        let name = name(alloc, b"C", place)?;
        named.push((name, Frac::whole(i64::from(coefficient))))?;
        total += u128::from(coefficient);
    }
    Ok((named, total))
}

/// Adds the row at a place, one word for each column.
fn add_row(
    alloc: Global,
    model: &mut Model,
    words: &mut Lcg64Xsh32,
    place: u64,
    cols: u64,
) -> Result<(), AllocError>
    requires { place + 1 < 2 ^ 64 }
    ensures model { OnOk result (model.new ≡ edited model.old (added_row place words.old cols)) }
    ensures words { OnOk result (words.new ≡ after_words cols words.old) }
{
    let (entries, total) = draw_row(alloc, words, cols)?;
    let edit = Edit::AddRow {
        name: name(alloc, b"R", place)?,
        lo: None,
        hi: Some(Frac::of_whole((total / 2) as i128)),
        entries,
    };
    match apply(model, alloc, edit) {
        Ok(()) => Ok(()),
        Err(_) => Err(AllocError),
    }
}

/// Adds so many rows.
pub(crate) fn add_rows(
    alloc: Global,
    model: &mut Model,
    words: &mut Lcg64Xsh32,
    rows: u64,
    cols: u64,
) -> Result<(), AllocError>
    ensures { OnOk result (model.new ≡ with_rows words.old cols rows model.old) }
{
    for place in 0..rows {
        match add_row(alloc, model, words, place, cols) {
            Ok(()) => {}
            Err(error) => return Err(error),
        }
    }
    Ok(())
}
