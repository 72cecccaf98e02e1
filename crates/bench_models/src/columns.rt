// The columns of a model.
ghost use Rattle.std.specs.Prelude.{◌≡◌, ◌<◌, ◌+◌, ◌^◌, OnOk, IfOk};
ghost use Rattle.turn_order.specs.Words.{after_words};
ghost use Rattle.bench_models.specs.BenchModels.{cost_by, added_column, with_columns};

use crate::names::name;
use frac128::Frac;
use lp_model::{Edit, List, Model};
use model_edits::apply;
use rand_core::utils::NextWord;
use rand_pcg::Lcg64Xsh32;
use std::alloc::{AllocError, Global};

/// The cost of a column by its word.
fn cost_of(word: u32) -> Frac
    ensures { result ≡ cost_by word }
{
    Frac::whole(-(1 + i64::from(word % 20)))
}

/// The edit that adds the column at a place.
fn column_edit(alloc: Global, place: u64, word: u32) -> Result<Edit, AllocError>
    requires { place + 1 < 2 ^ 64 }
    ensures { IfOk result (λ edit. edit ≡ added_column place word) }
{
    match name(alloc, b"C", place) {
        Ok(name) => Ok(Edit::AddCol {
            name,
            int: true,
            lo: Some(Frac::whole(0)),
            up: Some(Frac::whole(1)),
            cost: cost_of(word),
            cost2: Frac::whole(0),
            entries: List::new(alloc),
        }),
        Err(error) => Err(error),
    }
}

/// Adds so many columns, one word each.
pub(crate) fn add_columns(
    alloc: Global,
    model: &mut Model,
    words: &mut Lcg64Xsh32,
    cols: u64,
) -> Result<(), AllocError>
    ensures model { OnOk result (model.new ≡ with_columns words.old cols model.old) }
    ensures words { OnOk result (words.new ≡ after_words cols words.old) }
{
    for place in 0..cols {
        let word = words.next_word();
        let edit = match column_edit(alloc, place, word) {
            Ok(edit) => edit,
            Err(error) => return Err(error),
        };
        match apply(model, alloc, edit) {
            Ok(()) => {}
            Err(_) => return Err(AllocError),
        }
    }
    Ok(())
}
