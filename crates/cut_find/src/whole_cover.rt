// The greedy cover of a side in whole numbers: one addition for each column that is taken, one subtraction for each that may
// be dropped.
ghost use Rattle.std.specs.Prelude.{◌≡◌, ◌↔◌, ◌+ℤ◌, ◌-ℤ◌, ◌<◌, ◌<ℤ◌, ℕ, ℤ, List as Items, [], length, set, pos, unsigned_abs, true, false, IsTrue, IfSome, IfOk, Some};
ghost use Rattle.cover_cuts.specs.Covers.{side_limit};
ghost use Rattle.whole_sums.specs.Wholes.{IsShort, HasMargin};
ghost use Rattle.cut_find.specs.Greedy.{cover_of};
ghost use Rattle.cut_find.specs.RowEntries.{AreEntriesOf};
ghost use Rattle.cut_find.specs.WholeSides.{AreCandidateColumns, IsFoundInOrder, AreMarksOf, mark_at, IsWholeSide};
ghost use Rattle.cut_find.specs.private.WholeSides.{IsWholeCover, IsTakingAnswer, IsLeftOver, IsDropped};

use crate::candidates::RowSide;
use crate::greedy_cover::violated;
use crate::whole_side::{Mark, WholeSide};
use frac128::Frac;
use lp_model::{Derivation, List};
use std::alloc::{AllocError, Global};
use whole_sums::MARGIN;

/// What is taken of an order: nothing is known, no first columns make a cover, or so many do and their sum is the total.
#[derive(Clone, Copy, Drop)]
pub enum Taking {
    Unknown,
    Never,
    Cover { count: usize, total: i128 },
}

/// The size of a weight.
fn size(weight: i64) -> i128
    requires { IsShort weight }
    ensures { result ≡ pos (unsigned_abs weight) }
{
    if weight < 0 {
        -i128::from(weight)
    } else {
        i128::from(weight)
    }
}

/// The total with the size of a weight, if it keeps its margin.
fn with_size(total: i128, weight: i64) -> Option<i128>
    requires total { HasMargin total }
    requires weight { IsShort weight }
    ensures value { IfSome result (λ next. next ≡ total +ℤ pos (unsigned_abs weight)) }
    ensures room { IfSome result (λ next. HasMargin next) }
{
    let next = total + size(weight);
    if next <= MARGIN { Some(next) } else { None }
}

impl WholeSide {
    /// Whether a total passes the limit.
    fn is_passed(&self, total: i128) -> bool
        requires { IsShort self.now.limit }
        ensures { IsTrue result ↔ (self.now.limit <ℤ total) }
    {
        i128::from(self.limit) < total
    }
}

/// Marks a column as taken, and adds its weight's size to the total. None where it was taken before, or there is no room.
fn take_mark(marks: &mut [Mark], col: usize, total: i128) -> Option<i128>
    requires within { col < length marks.old }
    requires short { IsShort (mark_at marks.old col).weight }
    requires total { HasMargin total }
    ensures fresh { IfSome result (λ _. (mark_at marks.old col).taken ≡ false) }
    ensures marks { IfSome result (λ _. marks.new ≡ set marks.old col (record { weight = (mark_at marks.old col).weight; taken = true })) }
    ensures value { IfSome result (λ next. next ≡ total +ℤ pos (unsigned_abs (mark_at marks.old col).weight)) }
    ensures room { IfSome result (λ next. HasMargin next) }
{
    let mark = marks[col];
    if mark.taken {
        return None;
    }
    let Some(next) = with_size(total, mark.weight) else {
        return None;
    };
    marks[col] = Mark {
        weight: mark.weight,
        taken: true,
    };
    Some(next)
}

/// Takes a column's mark away where the rest is still a cover, and says what is left of the total. None where it has no mark.
fn drop_mark(side: &WholeSide, marks: &mut [Mark], col: usize, left: i128) -> Option<i128>
    requires limit { IsShort side.now.limit }
    requires within { col < length marks.old }
    requires short { IsShort (mark_at marks.old col).weight }
    requires left { HasMargin left }
    ensures taken { IfSome result (λ _. (mark_at marks.old col).taken ≡ true) }
    ensures left { IfSome result (λ next. IsLeftOver side.now.limit marks.old col left next marks.new) }
{
    let mark = marks[col];
    if !mark.taken {
        return None;
    }
    let rest = left - size(mark.weight);
    if side.is_passed(rest) {
        marks[col] = Mark {
            weight: mark.weight,
            taken: false,
        };
        return Some(rest);
    }
    Some(left)
}

impl RowSide<'_> {
    /// The first columns of the order that make a cover, which are then marked as taken. A column that comes again says nothing.
    fn take_marked(&self, side: &WholeSide, order: &[usize], marks: &mut [Mark]) -> Taking
        requires side { IsWholeSide self.now.model.now self.now.row.0 self.now.side side.now }
        requires order { AreCandidateColumns self.now.model.now self.now.row.0 self.now.side order.now }
        requires long { length marks.old ≡ length self.now.model.now.cols }
        requires marks { AreMarksOf self.now.model.now self.now.row.0 self.now.side side.now.denominator [] marks.old }
        ensures { IsTakingAnswer self.now.model.now self.now.row.0 self.now.side side.now order.now marks.new result }
    {
        let mut total = side.base;
        for place in 0..order.len() {
            if side.is_passed(total) {
                return Taking::Cover {
                    count: place,
                    total,
                };
            }
            match take_mark(marks, order[place], total) {
                None => return Taking::Unknown,
                Some(next) => total = next,
            }
        }
        if side.is_passed(total) {
            Taking::Cover {
                count: order.len(),
                total,
            }
        } else {
            Taking::Never
        }
    }

    /// Takes each mark away, in this order, without whose column the rest is still a cover. False says nothing.
    fn drop_marked(
        &self,
        side: &WholeSide,
        taken: &[usize],
        total: i128,
        marks: &mut [Mark],
    ) -> bool
        requires side { IsWholeSide self.now.model.now self.now.row.0 self.now.side side.now }
        requires long { length marks.old ≡ length self.now.model.now.cols }
        requires cover { IsWholeCover self.now.model.now self.now.row.0 self.now.side side.now taken.now total marks.old }
        ensures { IsTrue result → IsDropped self.now.model.now self.now.row.0 self.now.side side.now taken.now marks.new }
    {
        let mut left = total;
        for place in 0..taken.len() {
            match drop_mark(side, marks, taken[place], left) {
                None => return false,
                Some(rest) => left = rest,
            }
        }
        true
    }

    /// The derivation with the literals of the columns that are marked, in model order.
    fn marked_cover(&self, alloc: Global, marks: &[Mark]) -> Result<Derivation, AllocError>
        requires entries { AreEntriesOf self.now.model.now self.now.row.0 0 (length self.now.model.now.cols) self.now.entries.now }
        requires long { length marks.now ≡ length self.now.model.now.cols }
        ensures { IfOk result (λ c. (d : ℤ) (js : Items ℕ) → AreMarksOf self.now.model.now self.now.row.0 self.now.side d js marks.now → AreCandidateColumns self.now.model.now self.now.row.0 self.now.side js → c ≡ cover_of self.now.model.now self.now.row.0 self.now.side js) }
    {
        let mut literals = List::new(alloc);
        for entry in self.entries {
            if marks[entry.0].taken {
                match literals.push(self.entry_literal(entry)) {
                    Ok(()) => {}
                    Err(error) => {
                        drop(literals);
                        return Err(error);
                    }
                }
            }
        }
        Ok(Derivation {
            row: self.row,
            side: self.side,
            literals,
        })
    }

    /// The greedy cover in an order of the candidates, where it can be had in whole numbers. None says nothing.
    pub fn whole_cover(
        &self,
        alloc: Global,
        order: &[usize],
        limit: &Frac,
        marks: &mut [Mark],
    ) -> Result<Option<Option<Derivation>>, AllocError>
        requires limit { side_limit self.now.model.now self.now.row.0 self.now.side ≡ Some limit.now }
        requires order { AreCandidateColumns self.now.model.now self.now.row.0 self.now.side order.now }
        requires entries { AreEntriesOf self.now.model.now self.now.row.0 0 (length self.now.model.now.cols) self.now.entries.now }
        requires marks { length marks.old ≡ length self.now.model.now.cols }
        ensures { IfOk result (λ w. IfSome w (IsFoundInOrder self.now.model.now self.now.row.0 self.now.side self.now.numbers.now order.now)) }
    {
        match self.whole_side(limit, marks) {
            None => Ok(None),
            Some(side) => self.cover_of_side(alloc, &side, order, marks),
        }
    }

    /// The same, of the side in whole numbers.
    fn cover_of_side(
        &self,
        alloc: Global,
        side: &WholeSide,
        order: &[usize],
        marks: &mut [Mark],
    ) -> Result<Option<Option<Derivation>>, AllocError>
        requires side { IsWholeSide self.now.model.now self.now.row.0 self.now.side side.now }
        requires order { AreCandidateColumns self.now.model.now self.now.row.0 self.now.side order.now }
        requires entries { AreEntriesOf self.now.model.now self.now.row.0 0 (length self.now.model.now.cols) self.now.entries.now }
        requires long { length marks.old ≡ length self.now.model.now.cols }
        requires marks { AreMarksOf self.now.model.now self.now.row.0 self.now.side side.now.denominator [] marks.old }
        ensures { IfOk result (λ w. IfSome w (IsFoundInOrder self.now.model.now self.now.row.0 self.now.side self.now.numbers.now order.now)) }
    {
        match self.take_marked(side, order, marks) {
            Taking::Unknown => Ok(None),
            Taking::Never => Ok(Some(None)),
            Taking::Cover { count, total } => {
                if !self.drop_marked(side, &order[..count], total, marks) {
                    return Ok(None);
                }
                match self.marked_cover(alloc, marks) {
                    Ok(cover) => Ok(Some(violated(self.numbers, cover))),
                    Err(error) => Err(error),
                }
            }
        }
    }
}
