// An edit whose steps are counted.
ghost use Rattle.std.specs.Prelude.{◌≡◌, ◌+◌, ◌<◌, IfOk};

use anyhow::{Result, bail};
use frac128::Frac;
use lp_model::{Edit, Name};
use model_calls::push_answer;
use model_edits::EditFault;
use model_texts::{Words, edit_of};
use std::alloc::Global;
use std::marker::Brand;
use std::sync::ledger::{Blank, Ledger};
use tree_edit::{Search, Steps};

/// Makes an edit of a second cost, and answers by how much it moves the counter on. The counter has no bytes, so that is known by
/// its contract.
fn edit_second_cost<L: Ledger>(
    search: &mut Search,
    col: Name,
    v: Frac,
    steps: &mut Steps<L>,
) -> Result<u64, EditFault>
    ensures { IfOk result (λ n. steps.new ≡ steps.old + n) }
{
    match search.edit_counted(Edit::SetCost2 { col, v }, steps) {
        Ok(()) => Ok(0),
        Err(fault) => Err(fault),
    }
}

/// `edit_second_cost` with the counter of a ledger that is opened here.
fn edit_second_cost_by<L: Ledger>(
    search: &mut Search,
    col: Name,
    v: Frac,
    blank: Blank,
) -> Result<u64, EditFault>
    requires name { blank.name ≡ L.name }
    requires parts { blank.parts ≡ L.parts }
    requires some { 0 < L.parts }
{
    let mut steps: Steps<L> = Steps::new(blank);
    edit_second_cost(search, col, v, &mut steps)
}

/// Makes the edit `cost2 COLUMN C`, and writes how many steps it takes.
pub fn count_edit(
    alloc: Global,
    search: &mut Search,
    words: &mut Words,
    got: &mut String,
) -> Result<()> {
    let edit = edit_of(alloc, words)?;
    let Edit::SetCost2 { col, v } = edit else {
        bail!("no count of this edit")
    };
    match edit_second_cost_by::<Brand>(search, col, v, Blank::new(1)) {
        Ok(steps) => write!(got, "{steps} steps")?,
        Err(fault) => push_answer(got, &Err(fault))?,
    }
    Ok(())
}
