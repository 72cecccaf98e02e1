// Results placed in a search. What takes memory comes before the first change. A large value that isn't used is let go by
// a call of `drop`, since its parts, let go one by one on each way out, make a long proof.
ghost use Rattle.std.specs.Prelude.{◌≡◌, ◌≤◌, Some, ◌++◌, ◌∷◌, [], length, IfOk, IfErr, OnOk, OnErr, MatchOption, MatchBool};
ghost use Rattle.lp_model.specs.Regions.{AreNarrow};
ghost use Rattle.branch_tree.specs.declared.node.LeafState.TheVariants.{IsOpen, IsClosed};
ghost use Rattle.branch_tree.specs.declared.node.NodeResult.TheVariants.{PointAndClose, Keep};
ghost use Rattle.leaf_judging.specs.Closing.{IsJudgedLeaf, ClosesBy};
ghost use Rattle.leaf_judging.specs.Totals.{IsEntryOf};
ghost use Rattle.search_parts.specs.Points.{IsKeepable, target};
ghost use Rattle.search_parts.specs.Lists.{AreMultipliers, HasLists};
ghost use Rattle.search_parts.specs.Joining.{IsPlaceWithin, list_without};
ghost use Rattle.branch_tree.specs.Leaves.{with_state, leaf_count};
ghost use Rattle.branch_tree.specs.Changes.{HasLeaf, with_leaf_states};
ghost use Rattle.branch_tree.specs.Plain.{data_of};
ghost use Rattle.branch_tree.specs.declared.node.LeafData.{LeafData};
ghost use Rattle.leaf_judging.specs.Queued.{HasFiniteNumber, HasMultipliers};
ghost use Rattle.tree_edit.specs.private.PlacingSteps.{JoinsPoint, ClosesByEntry, StaysOpen};
ghost use Rattle.sound_searches.specs.declared.taken.Taken.TheVariants.{Refused};
ghost use Rattle.sound_searches.specs.Placing.{TakesPoint, HasLeafAt, search_with_leaf, TakesClose, TakesPointClose, PutsJudged, TakesPointKeep, TakesBasis, IsStale, IsOpenPlace, Takes, closed_data, with_basis};
ghost use Rattle.sound_searches.specs.Calls.{IsOpenLeaf};
ghost use Rattle.sound_searches.specs.Sound.{formulation_of};

use crate::search::Search;
use crate::splitting::Split;
use branch_tree::{Job, LeafData, LeafState, NodeResult, Tree};
use frac128::Frac;
use leaf_judging::{
    Candidate, LeafEntry, LeafQueue, Marks, entry_of, finite_number, judge_again, number_closes,
};
use lp_model::{Basis, Mult, Point, Region};
use search_parts::{
    Joined, has_lists, is_basis, is_same_value, join_value, keepable_value, take_out,
};
use sound_searches::Taken;
use std::alloc::{AllocError, Global};

impl Search {
    /// What the points' values come to with one more point, where it is feasible and no step lacks room, and else what is
    /// answered.
    fn join(&self, point: &Point) -> Result<Joined, Result<Taken, AllocError>>
        ensures joins { IfOk result (JoinsPoint self.now point.now) }
        ensures refused { IfErr result (λ answer. IfOk answer (λ taken. (taken ≡ Refused) × (¬ IsKeepable self.now.model point.now))) }
    {
        let Some(value) = keepable_value(&self.model, point) else {
            return Err(Ok(Taken::Refused));
        };
        match join_value(self.alloc, &self.values, value) {
            Ok(joined) => Ok(joined),
            Err(error) => Err(Err(error)),
        }
    }

    /// Keeps a point that isn't better than those that there are: no leaf is judged anew.
    fn add_point(&mut self, point: Point, joined: Joined) -> Result<(), AllocError>
        requires joined { JoinsPoint self.old point joined }
        requires same { joined.target ≡ target self.old.model self.old.points }
        ensures taken { OnOk result (TakesPoint self.old point self.new) }
        ensures target { OnOk result (target self.new.model self.new.points ≡ joined.target) }
        ensures kept { OnErr result (self.new ≡ self.old) }
    {
        enter_point(&mut self.points, &mut self.values, point, joined)
    }

    /// Keeps a point, and judges all leaves against the least value by their numbers.
    fn add_better(&mut self, point: Point, joined: Joined) -> Result<(), AllocError>
        requires joined { JoinsPoint self.old point joined }
        ensures taken { OnOk result (TakesPoint self.old point self.new) }
        ensures target { OnOk result (target self.new.model self.new.points ≡ joined.target) }
        ensures kept { OnErr result (self.new ≡ self.old) }
    {
        let target = &joined.target;
        match judge_again(self.alloc, &self.model, target, &self.tree, &self.numbers) {
            Ok(marks) => match enter_point(&mut self.points, &mut self.values, point, joined) {
                Ok(()) => {
                    put_marks(&mut self.tree, &mut self.queue, marks);
                    Ok(())
                }
                Err(error) => {
                    drop(marks);
                    Err(error)
                }
            },
            Err(error) => {
                drop(point);
                drop(joined);
                Err(error)
            }
        }
    }

    /// Keeps a point. The leaves are judged anew only where the least value changes.
    fn take_point(&mut self, point: Point, joined: Joined) -> Result<(), AllocError>
        requires joined { JoinsPoint self.old point joined }
        ensures taken { OnOk result (TakesPoint self.old point self.new) }
        ensures target { OnOk result (target self.new.model self.new.points ≡ joined.target) }
        ensures kept { OnErr result (self.new ≡ self.old) }
    {
        if is_same_value(&joined.target, &self.target()) {
            self.add_point(point, joined)
        } else {
            self.add_better(point, joined)
        }
    }

    /// The number that is kept of the leaf with the id, if it has one.
    pub(crate) fn leaf_number_of(&self, id: u64) -> Option<Frac>
        ensures { HasFiniteNumber (formulation_of self.now) self.now.tree.root (record { leaf_number = result; id = id }) }
    {
        finite_number(&self.numbers.number_or_minus(id))
    }

    /// Gives the leaf with the id data with this entry, by which it is closed.
    fn put_closed(&mut self, id: u64, region: &Region, kept: LeafData, entry: LeafEntry)
        requires leaf { HasLeafAt self.old.tree id region.now }
        requires entry { IsEntryOf (formulation_of self.old) region.now kept.mult kept.farkas entry }
        requires lists { HasLists (formulation_of self.old) kept }
        requires judged { IsJudgedLeaf (formulation_of self.old) (target self.old.model self.old.points) region.now kept }
        requires closed { kept.state ≡ IsClosed }
        ensures { self.new ≡ search_with_leaf self.old id kept }
    {
        let leaf_number = self.leaf_number_of(id);
        self.queue.remove(&Some(Candidate { leaf_number, id }));
        self.numbers.set(id, entry);
        self.tree.set_leaf(id, kept);
    }

    /// The entry of a leaf of a region with these data, if they fit and it closes against the target by them, and else what is
    /// answered.
    fn closing(
        &self,
        target: &Option<Frac>,
        region: &Region,
        kept: &LeafData,
    ) -> Result<LeafEntry, Result<Taken, AllocError>>
        requires { AreNarrow region.now }
        ensures closes { IfOk result (ClosesByEntry (formulation_of self.now) target.now region.now kept.now) }
        ensures open { IfErr result (λ answer. IfOk answer (StaysOpen (formulation_of self.now) target.now region.now kept.now)) }
    {
        match has_lists(self.alloc, &self.model, &self.pool, kept) {
            Ok(true) => {}
            Ok(false) => return Err(Ok(Taken::Refused)),
            Err(error) => return Err(Err(error)),
        }
        match entry_of(
            self.alloc,
            &self.model,
            &self.pool,
            region.as_slice(),
            &kept.mult,
            &kept.farkas,
        ) {
            Ok(entry) => {
                let closes = number_closes(&self.model, target, &entry.number);
                if closes {
                    Ok(entry)
                } else {
                    drop(entry);
                    Err(Ok(Taken::Reopened))
                }
            }
            Err(error) => Err(Err(error)),
        }
    }

    /// Closes the leaf with the id, if it closes by these data.
    fn place_close(&mut self, id: u64, region: &Region, kept: LeafData) -> Result<Taken, AllocError>
        requires leaf { HasLeafAt self.old.tree id region.now }
        requires narrow { AreNarrow region.now }
        requires closed { kept.state ≡ IsClosed }
        ensures taken { IfOk result (λ taken. TakesClose self.old id region.now kept self.new taken) }
        ensures kept { OnErr result (self.new ≡ self.old) }
    {
        let target = self.target();
        match self.closing(&target, region, &kept) {
            Ok(entry) => {
                self.put_closed(id, region, kept, entry);
                Ok(Taken::Closed)
            }
            Err(answer) => {
                drop(kept);
                answer
            }
        }
    }

    /// Keeps a point, and closes the leaf with the id, which closes by these data with it.
    fn put_joined_close(
        &mut self,
        id: u64,
        region: &Region,
        point: Point,
        joined: Joined,
        kept: LeafData,
        entry: LeafEntry,
    ) -> Result<Taken, AllocError>
        requires leaf { HasLeafAt self.old.tree id region.now }
        requires entry { IsEntryOf (formulation_of self.old) region.now kept.mult kept.farkas entry }
        requires closed { kept.state ≡ IsClosed }
        requires joined { JoinsPoint self.old point joined }
        requires lists { HasLists (formulation_of self.old) kept }
        requires closes { ClosesBy (formulation_of self.old) joined.target region.now kept }
        ensures taken { IfOk result (λ taken. TakesPointClose self.old id region.now point kept self.new taken) }
        ensures kept { OnErr result (self.new ≡ self.old) }
    {
        match self.take_point(point, joined) {
            Ok(()) => {
                self.put_closed(id, region, kept, entry);
                Ok(Taken::Closed)
            }
            Err(error) => {
                drop(kept);
                drop(entry);
                Err(error)
            }
        }
    }

    /// Closes the leaf with the id, if it closes by these data with a point that may be kept.
    fn place_joined_close(
        &mut self,
        id: u64,
        region: &Region,
        point: Point,
        joined: Joined,
        kept: LeafData,
    ) -> Result<Taken, AllocError>
        requires leaf { HasLeafAt self.old.tree id region.now }
        requires narrow { AreNarrow region.now }
        requires closed { kept.state ≡ IsClosed }
        requires joined { JoinsPoint self.old point joined }
        ensures taken { IfOk result (λ taken. TakesPointClose self.old id region.now point kept self.new taken) }
        ensures kept { OnErr result (self.new ≡ self.old) }
    {
        match self.closing(&joined.target, region, &kept) {
            Ok(entry) => self.put_joined_close(id, region, point, joined, kept, entry),
            Err(answer) => {
                drop(point);
                drop(joined);
                drop(kept);
                answer
            }
        }
    }

    /// Closes the leaf with the id, if it closes by these data with the point, and keeps the point.
    fn place_point_close(
        &mut self,
        id: u64,
        region: &Region,
        point: Point,
        kept: LeafData,
    ) -> Result<Taken, AllocError>
        requires leaf { HasLeafAt self.old.tree id region.now }
        requires narrow { AreNarrow region.now }
        requires closed { kept.state ≡ IsClosed }
        ensures taken { IfOk result (λ taken. TakesPointClose self.old id region.now point kept self.new taken) }
        ensures kept { OnErr result (self.new ≡ self.old) }
    {
        match self.join(&point) {
            Ok(joined) => self.place_joined_close(id, region, point, joined, kept),
            Err(answer) => {
                drop(point);
                drop(kept);
                answer
            }
        }
    }

    /// Gives the leaf with the id these data with its own multipliers. By these it is judged, so its state stays.
    fn put_judged(&mut self, id: u64, region: &Region, kept: LeafData)
        requires leaf { HasLeafAt self.old.tree id region.now }
        requires own { HasMultipliers id kept self.old.tree.root }
        requires lists { HasLists (formulation_of self.old) kept }
        ensures { PutsJudged self.old id region.now kept self.new }
    {
        let Some(leaf) = self.tree.leaf(id) else {
            unreachable!()
        };
        let kept = in_state(leaf.state, kept);
        self.tree.set_leaf(id, kept);
    }

    /// Keeps a point that may be kept, and gives the leaf with the id these data, which are its own but for the basis.
    fn put_joined_keep(
        &mut self,
        id: u64,
        region: &Region,
        point: Point,
        joined: Joined,
        kept: LeafData,
    ) -> Result<Taken, AllocError>
        requires leaf { HasLeafAt self.old.tree id region.now }
        requires own { HasMultipliers id kept self.old.tree.root }
        requires lists { HasLists (formulation_of self.old) kept }
        requires joined { JoinsPoint self.old point joined }
        ensures taken { IfOk result (λ taken. TakesPointKeep self.old id region.now point kept self.new taken) }
        ensures kept { OnErr result (self.new ≡ self.old) }
    {
        match self.take_point(point, joined) {
            Ok(()) => {
                self.put_judged(id, region, kept);
                Ok(Taken::Kept)
            }
            Err(error) => {
                drop(kept);
                Err(error)
            }
        }
    }

    /// Keeps a point, and gives the leaf with the id these data, which fit and are its own but for the basis.
    fn place_point_keep(
        &mut self,
        id: u64,
        region: &Region,
        point: Point,
        kept: LeafData,
    ) -> Result<Taken, AllocError>
        requires leaf { HasLeafAt self.old.tree id region.now }
        requires own { HasMultipliers id kept self.old.tree.root }
        requires lists { HasLists (formulation_of self.old) kept }
        ensures taken { IfOk result (λ taken. TakesPointKeep self.old id region.now point kept self.new taken) }
        ensures kept { OnErr result (self.new ≡ self.old) }
    {
        match self.join(&point) {
            Ok(joined) => self.put_joined_keep(id, region, point, joined, kept),
            Err(answer) => {
                drop(point);
                drop(kept);
                answer
            }
        }
    }

    /// Gives the leaf with the id these data, which are its own but for the basis, and keeps the point, if there is one.
    fn place_basis(
        &mut self,
        id: u64,
        region: &Region,
        point: Option<Point>,
        kept: LeafData,
    ) -> Result<Taken, AllocError>
        requires leaf { HasLeafAt self.old.tree id region.now }
        requires own { HasMultipliers id kept self.old.tree.root }
        requires mult { AreMultipliers (formulation_of self.old) kept.mult }
        requires farkas { AreMultipliers (formulation_of self.old) kept.farkas }
        ensures taken { IfOk result (λ taken. TakesBasis self.old id region.now point kept self.new taken) }
        ensures kept { OnErr result (self.new ≡ self.old) }
    {
        if !is_basis(&self.model, &self.pool, &kept.basis) {
            drop(point);
            drop(kept);
            return Ok(Taken::Refused);
        }
        match point {
            None => {
                self.put_judged(id, region, kept);
                Ok(Taken::Kept)
            }
            Some(point) => self.place_point_keep(id, region, point, kept),
        }
    }

    /// The region of the open leaf with the id, if there is one.
    pub(crate) fn open_region(&self, id: u64) -> Result<Option<Region>, AllocError>
        ensures { IfOk result (λ found. MatchOption found (IsStale self.now id) (λ region. IsOpenPlace self.now id region)) }
    {
        let Some(leaf) = self.tree.leaf(id) else {
            return Ok(None);
        };
        if is_closed(&leaf.state) {
            return Ok(None);
        }
        self.tree.region_of(id)
    }

    /// A copy of the leaf's data with another basis.
    fn with_basis_at(&self, id: u64, basis: Basis) -> Result<LeafData, AllocError>
        requires { HasLeaf self.now.tree id }
        ensures data { IfOk result (λ kept. (leaf : LeafData) × ((data_of id self.now.tree.root ≡ Some leaf) × (kept ≡ with_basis leaf basis))) }
        ensures own { IfOk result (λ kept. HasMultipliers id kept self.now.tree.root) }
        ensures mult { IfOk result (λ kept. AreMultipliers (formulation_of self.now) kept.mult) }
        ensures farkas { IfOk result (λ kept. AreMultipliers (formulation_of self.now) kept.farkas) }
    {
        let Some(leaf) = self.tree.leaf(id) else {
            unreachable!()
        };
        with_basis(self.alloc, leaf, basis)
    }

    /// The data of the leaf once it is closed by these lists. Its Farkas multipliers stay.
    fn closed_at(&self, id: u64, mult: Mult, basis: Basis) -> Result<LeafData, AllocError>
        requires { HasLeaf self.now.tree id }
        ensures { IfOk result (λ kept. (leaf : LeafData) × ((data_of id self.now.tree.root ≡ Some leaf) × (kept ≡ closed_data mult leaf.farkas basis))) }
    {
        let Some(leaf) = self.tree.leaf(id) else {
            unreachable!()
        };
        closed_like(self.alloc, leaf, mult, basis)
    }

    /// Keeps the open leaf with the id with another basis, and the point, if there is one.
    fn place_kept(
        &mut self,
        id: u64,
        region: &Region,
        point: Option<Point>,
        basis: Basis,
    ) -> Result<Taken, AllocError>
        requires open { IsOpenPlace self.old id region.now }
        ensures taken { IfOk result (λ taken. Takes self.old id (Keep point basis) self.new taken) }
        ensures kept { OnErr result (self.new ≡ self.old) }
    {
        match self.with_basis_at(id, basis) {
            Ok(kept) => self.place_basis(id, region, point, kept),
            Err(error) => {
                drop(point);
                Err(error)
            }
        }
    }

    /// Closes the open leaf with the id, if it closes by these lists with the point, and keeps the point. The leaf's Farkas
    /// multipliers stay.
    fn place_point(
        &mut self,
        id: u64,
        region: &Region,
        point: Point,
        mult: Mult,
        basis: Basis,
    ) -> Result<Taken, AllocError>
        requires open { IsOpenPlace self.old id region.now }
        ensures taken { IfOk result (λ taken. Takes self.old id (PointAndClose point mult basis) self.new taken) }
        ensures kept { OnErr result (self.new ≡ self.old) }
    {
        match self.closed_at(id, mult, basis) {
            Ok(kept) => self.place_point_close(id, region, point, kept),
            Err(error) => {
                drop(point);
                Err(error)
            }
        }
    }

    /// Places the result of the work on the open leaf with the id.
    fn place_open(
        &mut self,
        id: u64,
        region: &Region,
        done: NodeResult,
    ) -> Result<Taken, AllocError>
        requires open { IsOpenPlace self.old id region.now }
        ensures taken { IfOk result (λ taken. Takes self.old id done self.new taken) }
        ensures kept { OnErr result (self.new ≡ self.old) }
    {
        match done {
            NodeResult::Close {
                mult,
                farkas,
                basis,
            } => self.place_close(id, region, closed_data(mult, farkas, basis)),
            NodeResult::Split {
                col,
                v,
                mult,
                basis,
            } => {
                let split = Split {
                    col,
                    v,
                    mult,
                    basis,
                };
                self.place_split(id, region, split)
            }
            NodeResult::PointAndClose { point, mult, basis } => {
                self.place_point(id, region, point, mult, basis)
            }
            NodeResult::Keep { point, basis } => self.place_kept(id, region, point, basis),
        }
    }

    /// Places the result of the work on the leaf with the id. After `Stale`, `Refused`, `Reopened` and `Full`, and where
    /// there is no memory, nothing has changed.
    pub fn place(&mut self, id: u64, done: NodeResult) -> Result<Taken, AllocError>
        ensures taken { IfOk result (λ taken. Takes self.old id done self.new taken) }
        ensures kept { OnErr result (self.new ≡ self.old) }
    {
        match self.open_region(id) {
            Ok(Some(region)) => self.place_open(id, &region, done),
            Ok(None) => {
                drop(done);
                Ok(Taken::Stale)
            }
            Err(error) => {
                drop(done);
                Err(error)
            }
        }
    }
}

impl Search {
    /// Places the result of a job whose leaf is open: what `place` does, without looking for the region, which the job has. Results
    /// for other leaves may have been placed since the job was handed out.
    pub fn place_done(&mut self, job: &Job, done: NodeResult) -> Result<Taken, AllocError>
        requires { IsOpenLeaf self.old job.now.id job.now.region }
        ensures taken { IfOk result (λ taken. Takes self.old job.now.id done self.new taken) }
        ensures kept { OnErr result (self.new ≡ self.old) }
    {
        let _numbered = self.tree.nodes();
        self.place_open(job.id, &job.region, done)
    }
}

/// Gives a tree's leaves the states that they are marked by, and the queue that is marked.
fn put_marks(tree: &mut Tree, queue: &mut LeafQueue, marks: Marks)
    requires { leaf_count tree.old.root ≤ length marks.states.items }
    ensures tree { tree.new ≡ with_leaf_states tree.old marks.states.items }
    ensures queue { queue.new ≡ marks.queue }
{
    tree.set_states(&marks.states);
    *queue = marks.queue;
}

/// Puts a point behind the others, and takes out what then stands at a place, if one is given.
fn push_without(
    points: &mut Vec<Point>,
    point: Point,
    place: Option<usize>,
) -> Result<(), AllocError>
    requires { IsPlaceWithin (length (points.old.items ++ point ∷ [])) place }
    ensures put { OnOk result (points.new.items ≡ list_without (points.old.items ++ point ∷ []) place) }
    ensures kept { OnErr result (points.new.items ≡ points.old.items) }
{
    match points.push(point) {
        Ok(()) => {
            take_out(points, place);
            Ok(())
        }
        Err(error) => Err(error.into()),
    }
}

/// Puts a point behind the others, takes out what then stands at the worst place, and puts the values that they come to in the
/// place of the old ones.
fn enter_point(
    points: &mut Vec<Point>,
    values: &mut Vec<Frac>,
    point: Point,
    joined: Joined,
) -> Result<(), AllocError>
    requires { IsPlaceWithin (length (points.old.items ++ point ∷ [])) joined.worst }
    ensures put { OnOk result (points.new.items ≡ list_without (points.old.items ++ point ∷ []) joined.worst) }
    ensures values { OnOk result (values.new.items ≡ joined.values.items) }
    ensures kept { OnErr result (points.new.items ≡ points.old.items) }
    ensures same { OnErr result (values.new.items ≡ values.old.items) }
{
    match push_without(points, point, joined.worst) {
        Ok(()) => {
            *values = joined.values;
            Ok(())
        }
        Err(error) => {
            drop(joined);
            Err(error)
        }
    }
}

/// Whether the leaf is closed.
fn is_closed(state: &LeafState) -> bool
    ensures { MatchBool result (state.now ≡ IsClosed) (state.now ≡ IsOpen) }
{
    match state {
        LeafState::IsOpen => false,
        LeafState::IsClosed => true,
    }
}

/// The data with another state.
fn in_state(state: LeafState, kept: LeafData) -> LeafData
    ensures { result ≡ with_state state kept }
{
    let LeafData {
        state: _,
        mult,
        farkas,
        basis,
    } = kept;
    LeafData {
        state,
        mult,
        farkas,
        basis,
    }
}

/// The data of a closed leaf.
fn closed_data(mult: Mult, farkas: Mult, basis: Basis) -> LeafData
    ensures { result ≡ closed_data mult farkas basis }
{
    LeafData {
        state: LeafState::IsClosed,
        mult,
        farkas,
        basis,
    }
}

/// The data of a closed leaf with a copy of a leaf's Farkas multipliers.
fn closed_like(
    alloc: Global,
    leaf: &LeafData,
    mult: Mult,
    basis: Basis,
) -> Result<LeafData, AllocError>
    ensures { IfOk result (λ kept. kept ≡ closed_data mult leaf.now.farkas basis) }
{
    match leaf.farkas.copy(alloc) {
        Ok(farkas) => Ok(closed_data(mult, farkas, basis)),
        Err(error) => {
            drop(mult);
            drop(basis);
            Err(error)
        }
    }
}

/// Copies of a leaf's multipliers and of its Farkas multipliers.
fn multipliers_of(alloc: Global, leaf: &LeafData) -> Result<(Mult, Mult), AllocError>
    ensures mult { IfOk result (λ both. both.0 ≡ leaf.now.mult) }
    ensures farkas { IfOk result (λ both. both.1 ≡ leaf.now.farkas) }
{
    let Ok(farkas) = leaf.farkas.copy(alloc) else {
        return Err(AllocError);
    };
    match leaf.mult.copy(alloc) {
        Ok(mult) => Ok((mult, farkas)),
        Err(error) => {
            drop(farkas);
            Err(error)
        }
    }
}

/// A copy of a leaf's data with another basis.
fn with_basis(alloc: Global, leaf: &LeafData, basis: Basis) -> Result<LeafData, AllocError>
    ensures { IfOk result (λ kept. kept ≡ with_basis leaf.now basis) }
{
    match multipliers_of(alloc, leaf) {
        Ok((mult, farkas)) => Ok(LeafData {
            state: leaf.state,
            mult,
            farkas,
            basis,
        }),
        Err(error) => {
            drop(basis);
            Err(error)
        }
    }
}
