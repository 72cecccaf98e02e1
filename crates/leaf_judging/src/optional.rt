// The number of a list by what is kept of its totals, and totals of a list that most leaves don't have.
ghost use Rattle.std.specs.Prelude.{◌≡◌, ◌+◌, ◌≤◌, [], IfOk, None};
ghost use Rattle.lp_model.specs.Regions.{AreNarrow};
ghost use Rattle.leaf_dual.specs.Dual.{HavePlaces};
ghost use Rattle.leaf_totals.specs.Keeping.{question_of, AnswersQuestion, AreComplete, kept_most, steps_left};
ghost use Rattle.leaf_totals.specs.Likeness.{CanGoOn};

use leaf_dual::{LagValue, Leaf, Steps, named_front};
use leaf_totals::LeafTotals;
use lp_model::WideStep;
use std::alloc::{AllocError, Global};
use std::marker::Model;
use std::sync::ledger::Ledger;

/// The number of a list of a leaf, gone on with from the last total that is kept. Cuts behind the last one that the list names
/// are left out: their weight is 0. `LeafTotals::go_on` says what is sought.
pub(crate) fn list_number<L: Ledger>(
    totals: &mut LeafTotals,
    leaf: &Leaf<'_>,
    seeks_short: bool,
    steps: &mut Steps<L>,
) -> Result<LagValue, WideStep>
    requires narrow { AreNarrow leaf.now.region.now }
    requires places { HavePlaces leaf.now.cuts.now }
    requires ready { CanGoOn (question_of leaf.now) totals.old }
    requires room { kept_most (question_of leaf.now) ≤ totals.old.totals.room }
    ensures answer { AnswersQuestion (question_of leaf.now) result }
    ensures ready { CanGoOn (question_of leaf.now) totals.new }
    ensures complete { AreComplete (question_of leaf.now) totals.new }
    ensures room { totals.new.totals.room ≡ totals.old.totals.room }
    ensures rises { steps.old ≤ steps.new }
    ensures steps { steps.new ≤ steps.old + steps_left (question_of leaf.now) totals.old }
{
    let front = Leaf {
        model: leaf.model,
        cuts: named_front(leaf.cuts, leaf.mult),
        region: leaf.region,
        mult: leaf.mult,
        costed: leaf.costed,
    };
    totals.go_on(&front, seeks_short, steps)
}

/// A value on the heap.
pub(crate) fn boxed<V: Drop>(alloc: Global, value: V) -> Result<Box<V>, AllocError>
    ensures { IfOk result (λ held. held.value ≡ value) }
{
    let held = Box::new(alloc, value)?;
    Ok(held)
}

/// What is kept of a list's totals, on the heap, so that a leaf without such a list takes little. Contracts see the totals: of no
/// room where nothing is held.
#[derive(Drop)]
pub struct OptionalTotals {
    held: Option<Box<LeafTotals>>,
}

impl Model for OptionalTotals {
    ghost use Rattle.leaf_totals.specs.declared.keeping.LeafTotals.{LeafTotals};
    ghost use Rattle.leaf_judging.specs.private.Optional.{totals_held};

    ghost Value = { LeafTotals };

    ghost view = { λ t. totals_held t.held };
}

impl OptionalTotals {
    /// No total yet, with room to keep so many. Nothing is held where that is 0.
    pub(crate) fn new(alloc: Global, room: usize) -> Result<OptionalTotals, AllocError>
        ensures kept { IfOk result (λ t. t.totals.kept ≡ []) }
        ensures room { IfOk result (λ t. t.totals.room ≡ room) }
        ensures ending { IfOk result (λ t. t.ending ≡ None) }
        ensures over { IfOk result (λ t. t.over ≡ None) }
    {
        if room == 0 {
            return Ok(OptionalTotals { held: None });
        }
        let totals = LeafTotals::new(alloc, room)?;
        let held = boxed(alloc, totals)?;
        Ok(OptionalTotals { held: Some(held) })
    }

    /// The same totals once more, with the same room.
    pub(crate) fn copy(&self, alloc: Global) -> Result<OptionalTotals, AllocError>
        ensures { IfOk result (λ t. t ≡ self.now) }
    {
        match &self.held {
            None => Ok(OptionalTotals { held: None }),
            Some(held) => {
                let totals = held.copy(alloc)?;
                let copied = boxed(alloc, totals)?;
                Ok(OptionalTotals { held: Some(copied) })
            }
        }
    }

    /// `list_number` of the totals. Where there is room something is held.
    pub(crate) fn number<L: Ledger>(
        &mut self,
        leaf: &Leaf<'_>,
        steps: &mut Steps<L>,
    ) -> Result<LagValue, WideStep>
        requires narrow { AreNarrow leaf.now.region.now }
        requires places { HavePlaces leaf.now.cuts.now }
        requires ready { CanGoOn (question_of leaf.now) self.old }
        requires room { kept_most (question_of leaf.now) ≤ self.old.totals.room }
        ensures answer { AnswersQuestion (question_of leaf.now) result }
        ensures ready { CanGoOn (question_of leaf.now) self.new }
        ensures complete { AreComplete (question_of leaf.now) self.new }
        ensures room { self.new.totals.room ≡ self.old.totals.room }
        ensures rises { steps.old ≤ steps.new }
        ensures steps { steps.new ≤ steps.old + steps_left (question_of leaf.now) self.old }
    {
        let Some(mut held) = self.held.take() else {
            unreachable!()
        };
        let number = list_number(&mut *held, leaf, false, steps);
        self.held = Some(held);
        number
    }
}
