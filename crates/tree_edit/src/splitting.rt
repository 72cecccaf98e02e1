// Leaves that are split. What takes memory comes before the first change. A large value that isn't used is let go by a call
// of `drop` (see `placing`).
ghost use Rattle.std.specs.Prelude.{◌≡◌, ◌≢◌, ◌↔◌, IsTrue, ◌++◌, ◌∷◌, [], ◌≤ℤ◌, ◌<ℤ◌, ◌+ℤ◌, pos, neg_ℤ, IfOk, OnOk, OnErr};
ghost use Rattle.frac128.specs.Range.{largest};
ghost use Rattle.branch_tree.specs.Tree.{left_path, right_path};
ghost use Rattle.lp_model.specs.Regions.{AreNarrow, at_most, at_least};
ghost use Rattle.tight_regions.specs.SameBounds.{SameBounds};
ghost use Rattle.branch_tree.specs.Changes.{HasLeaf, HasRoom};
ghost use Rattle.sound_searches.specs.Placing.{HasLeafAt, IsSplitSound, TakesSplit, tree_with_split};
ghost use Rattle.leaf_judging.specs.Numbers.{HasBoth, KeepsOtherTwo};
ghost use Rattle.leaf_judging.specs.Queued.{IsNew, AddsBoth, IsSameQueue};
ghost use Rattle.tree_edit.specs.private.PlacingSteps.{IsEnteredChild, child_candidate};
ghost use Rattle.sound_searches.specs.Sound.{formulation_of};

use crate::search::Search;
use branch_tree::{LeafData, Tree, copy_lists};
use leaf_judging::{
    Candidate, LeafEntry, LeafNumbers, LeafQueue, as_candidate, entry_of, finite_number, state_by,
};
use lp_model::{Basis, BoundChange, ColId, List, Mult, Region};
use search_parts::{are_multipliers, is_basis, is_split_allowed};
use sound_searches::Taken;
use std::alloc::{AllocError, Global};
use tight_regions::tightest;

/// A split of a leaf.
#[derive(Drop)]
pub(crate) struct Split {
    pub(crate) col: ColId,
    pub(crate) v: i128,
    pub(crate) mult: Mult,
    pub(crate) basis: Basis,
}

impl Split {
    /// The bound of the left child.
    fn up_to(&self) -> BoundChange
        ensures { result ≡ at_most self.now.col.0 self.now.v }
    {
        BoundChange::at_most(self.col, self.v)
    }

    /// The bound of the right child.
    fn above(&self) -> BoundChange
        requires { self.now.v <ℤ pos largest }
        ensures { result ≡ at_least self.now.col.0 (self.now.v +ℤ pos 1) }
    {
        BoundChange::at_least(self.col, self.v + 1)
    }
}

/// A split's child, with its entry.
#[derive(Drop)]
pub(crate) struct Child {
    pub(crate) kept: LeafData,
    pub(crate) entry: LeafEntry,
}

/// A split of a leaf, with its two children.
#[derive(Drop)]
pub(crate) struct Branching {
    pub(crate) split: Split,
    pub(crate) left: Child,
    pub(crate) right: Child,
}

/// Splits the leaf with the id, whose children get these data. There is room, so that nothing but memory can be missing.
fn split_tree(
    tree: &mut Tree,
    id: u64,
    split: Split,
    left: LeafData,
    right: LeafData,
) -> Result<(), AllocError>
    requires has { HasLeaf tree.old id }
    requires high { split.v <ℤ pos largest }
    ensures split { OnOk result (tree.new ≡ tree_with_split tree.old id split.col.0 split.v split.mult split.basis left right) }
    ensures room { OnOk result (HasRoom tree.old) }
    ensures kept { OnErr result (tree.new ≡ tree.old) }
{
    let _numbered = tree.nodes();
    let Split {
        col,
        v,
        mult,
        basis,
    } = split;
    match tree.replace_leaf(id, col, v, mult, basis) {
        Ok((first, second)) => {
            tree.set_leaf(first, left);
            tree.set_leaf(second, right);
            Ok(())
        }
        Err(_) => {
            drop(left);
            drop(right);
            Err(AllocError)
        }
    }
}

/// A split's child under its id as a candidate, if it is open.
fn candidate(child: &Child, id: u64) -> Option<Candidate>
    ensures { result ≡ child_candidate child.now id }
{
    as_candidate(&child.kept.state, finite_number(&child.entry.number), id)
}

/// Puts down the entries of a split's children, which get these ids, and adds those that are open to the queue. Where there is
/// no memory the queue stays.
fn enter_children(
    numbers: &mut LeafNumbers,
    queue: &mut LeafQueue,
    one: u64,
    left: LeafEntry,
    two: u64,
    right: LeafEntry,
    first: &Option<Candidate>,
    second: &Option<Candidate>,
) -> Result<(), AllocError>
    requires apart { one ≢ two }
    requires first { IsNew queue.old first.now }
    ensures put { OnOk result (HasBoth numbers.new one left two right) }
    ensures others { KeepsOtherTwo numbers.old one two numbers.new }
    ensures added { OnOk result (AddsBoth queue.old first.now second.now queue.new) }
    ensures same { OnErr result (IsSameQueue queue.old queue.new) }
{
    match numbers.put_both(one, left, two, right) {
        Ok(()) => queue.add_both(first, second),
        Err(error) => Err(error),
    }
}

/// Splits the leaf with the id, whose children get these ids, puts down their entries, and adds those that are open to the
/// queue. The leaf's own entry and place in the queue stay. Where there is no memory the tree and the queue do.
fn enter_split(
    tree: &mut Tree,
    numbers: &mut LeafNumbers,
    queue: &mut LeafQueue,
    id: u64,
    one: u64,
    two: u64,
    branching: Branching,
) -> Result<(), AllocError>
    requires has { HasLeaf tree.old id }
    requires high { branching.split.v <ℤ pos largest }
    requires apart { one ≢ two }
    requires first { IsNew queue.old (child_candidate branching.left one) }
    requires second { IsNew queue.old (child_candidate branching.right two) }
    ensures split { OnOk result (tree.new ≡ tree_with_split tree.old id branching.split.col.0 branching.split.v branching.split.mult branching.split.basis branching.left.kept branching.right.kept) }
    ensures room { OnOk result (HasRoom tree.old) }
    ensures put { OnOk result (HasBoth numbers.new one branching.left.entry two branching.right.entry) }
    ensures others { KeepsOtherTwo numbers.old one two numbers.new }
    ensures added { OnOk result (AddsBoth queue.old (child_candidate branching.left one) (child_candidate branching.right two) queue.new) }
    ensures kept { OnErr result (tree.new ≡ tree.old) }
    ensures same { OnErr result (IsSameQueue queue.old queue.new) }
{
    let first = candidate(&branching.left, one);
    let second = candidate(&branching.right, two);
    let Branching { split, left, right } = branching;
    let Child {
        kept: left,
        entry: left_entry,
    } = left;
    let Child {
        kept: right,
        entry: right_entry,
    } = right;
    match enter_children(
        numbers,
        queue,
        one,
        left_entry,
        two,
        right_entry,
        &first,
        &second,
    ) {
        Ok(()) => match split_tree(tree, id, split, left, right) {
            Ok(()) => Ok(()),
            Err(error) => {
                queue.take_back(&first, &second);
                Err(error)
            }
        },
        Err(error) => {
            drop(split);
            drop(left);
            drop(right);
            Err(error)
        }
    }
}

/// The path of a split's child, whose last bound change this is.
fn child_path(alloc: Global, region: &Region, change: BoundChange) -> Result<Region, AllocError>
    ensures { IfOk result (λ path. path ≡ region.now ++ change ∷ []) }
{
    let Ok(mut path) = region.copy(alloc) else {
        return Err(AllocError);
    };
    match path.push(change) {
        Ok(()) => Ok(path),
        Err(error) => {
            drop(path);
            Err(error)
        }
    }
}

/// A region with the same bounds by the tightest changes of a path, at most two for each column: a path may be as long as the
/// tree is deep.
fn tight_region(alloc: Global, region: &Region) -> Result<Region, AllocError>
    ensures bounds { IfOk result (λ tight. SameBounds tight region.now) }
    ensures narrow { IfOk result (λ tight. AreNarrow region.now → AreNarrow tight) }
{
    match tightest(alloc, region.as_slice()) {
        Ok(tight) => Ok(List::from_vec(tight)),
        Err(error) => Err(error),
    }
}

impl Search {
    /// The child with a path and these lists, judged.
    fn judged_child(&self, path: Region, mult: Mult, basis: Basis) -> Result<Child, AllocError>
        requires { AreNarrow path }
        ensures { IfOk result (IsEnteredChild self.now path mult basis) }
    {
        let farkas = List::new(self.alloc);
        match entry_of(
            self.alloc,
            &self.model,
            &self.pool,
            path.as_slice(),
            &mult,
            &farkas,
        ) {
            Ok(entry) => {
                drop(path);
                let state = state_by(&self.model, &self.target(), &entry.number);
                Ok(Child {
                    kept: LeafData {
                        state,
                        mult,
                        farkas,
                        basis,
                    },
                    entry,
                })
            }
            Err(error) => {
                drop(path);
                drop(mult);
                drop(farkas);
                drop(basis);
                Err(error)
            }
        }
    }

    /// A split's child, judged.
    fn child(
        &self,
        region: &Region,
        change: BoundChange,
        mult: &Mult,
        basis: &Basis,
    ) -> Result<Child, AllocError>
        requires { AreNarrow (region.now ++ change ∷ []) }
        ensures { IfOk result (λ child. IsEnteredChild self.now (region.now ++ change ∷ []) mult.now basis.now child) }
    {
        let Ok(path) = child_path(self.alloc, region, change) else {
            return Err(AllocError);
        };
        match copy_lists(self.alloc, mult, basis) {
            Ok((mult, basis)) => self.judged_child(path, mult, basis),
            Err(error) => {
                drop(path);
                Err(error)
            }
        }
    }

    /// Splits the leaf with the id, whose children are these.
    fn split_leaf(
        &mut self,
        id: u64,
        region: &Region,
        branching: Branching,
    ) -> Result<Taken, AllocError>
        requires leaf { HasLeafAt self.old.tree id region.now }
        requires narrow { AreNarrow region.now }
        requires sound { IsSplitSound (formulation_of self.old) region.now branching.split.col.0 branching.split.v branching.split.mult branching.split.basis }
        requires room { (neg_ℤ (pos largest) ≤ℤ branching.split.v) × (branching.split.v <ℤ pos largest) }
        requires left { IsEnteredChild self.old (left_path region.now branching.split.col.0 branching.split.v) branching.split.mult branching.split.basis branching.left }
        requires right { IsEnteredChild self.old (right_path region.now branching.split.col.0 branching.split.v) branching.split.mult branching.split.basis branching.right }
        ensures taken { IfOk result (λ taken. TakesSplit self.old id region.now branching.split.col.0 branching.split.v branching.split.mult branching.split.basis self.new taken) }
        ensures kept { OnErr result (self.new ≡ self.old) }
    {
        let own = self.leaf_number_of(id);
        let Some((one, two)) = self.tree.next_ids() else {
            drop(branching);
            return Ok(Taken::Full);
        };
        let _numbered = self.tree.nodes();
        match enter_split(
            &mut self.tree,
            &mut self.numbers,
            &mut self.queue,
            id,
            one,
            two,
            branching,
        ) {
            Ok(()) => {
                self.queue.remove(&Some(Candidate {
                    leaf_number: own,
                    id,
                }));
                self.numbers.remove(id);
                Ok(Taken::Split)
            }
            Err(error) => Err(error),
        }
    }

    /// Whether a split fits the model and the leaf.
    fn split_fits(&self, region: &Region, split: &Split) -> Result<bool, AllocError>
        requires { AreNarrow region.now }
        ensures sound { IfOk result (λ fits. IsTrue fits ↔ IsSplitSound (formulation_of self.now) region.now split.now.col.0 split.now.v split.now.mult split.now.basis) }
        ensures room { IfOk result (λ fits. IsTrue fits → (neg_ℤ (pos largest) ≤ℤ split.now.v) × (split.now.v <ℤ pos largest)) }
    {
        if !is_split_allowed(&self.model, region, split.col, split.v) {
            return Ok(false);
        }
        match are_multipliers(self.alloc, &self.model, &self.pool, &split.mult) {
            Ok(true) => Ok(is_basis(&self.model, &self.pool, &split.basis)),
            Ok(false) => Ok(false),
            Err(error) => Err(error),
        }
    }

    /// The children of a split that fits, each judged.
    fn children(&self, region: &Region, split: &Split) -> Result<(Child, Child), AllocError>
        requires narrow { AreNarrow region.now }
        requires room { (neg_ℤ (pos largest) ≤ℤ split.now.v) × (split.now.v <ℤ pos largest) }
        ensures left { IfOk result (λ both. IsEnteredChild self.now (left_path region.now split.now.col.0 split.now.v) split.now.mult split.now.basis both.0) }
        ensures right { IfOk result (λ both. IsEnteredChild self.now (right_path region.now split.now.col.0 split.now.v) split.now.mult split.now.basis both.1) }
    {
        let Ok(left) = self.child(region, split.up_to(), &split.mult, &split.basis) else {
            return Err(AllocError);
        };
        match self.child(region, split.above(), &split.mult, &split.basis) {
            Ok(right) => Ok((left, right)),
            Err(error) => {
                drop(left);
                Err(error)
            }
        }
    }

    /// Splits the leaf with the id by a split that fits. The children are judged by a tight region, which has the bounds of the
    /// leaf's own.
    fn place_fitting(
        &mut self,
        id: u64,
        region: &Region,
        tight: &Region,
        split: Split,
    ) -> Result<Taken, AllocError>
        requires leaf { HasLeafAt self.old.tree id region.now }
        requires narrow { AreNarrow region.now }
        requires tight { AreNarrow tight.now }
        requires bounds { SameBounds tight.now region.now }
        requires sound { IsSplitSound (formulation_of self.old) region.now split.col.0 split.v split.mult split.basis }
        requires room { (neg_ℤ (pos largest) ≤ℤ split.v) × (split.v <ℤ pos largest) }
        ensures taken { IfOk result (λ taken. TakesSplit self.old id region.now split.col.0 split.v split.mult split.basis self.new taken) }
        ensures kept { OnErr result (self.new ≡ self.old) }
    {
        match self.children(tight, &split) {
            Ok((left, right)) => {
                let branching = Branching { split, left, right };
                self.split_leaf(id, region, branching)
            }
            Err(error) => {
                drop(split);
                Err(error)
            }
        }
    }

    /// Splits the leaf with the id, if the split fits the model and the leaf. Both are looked at by the tightest changes of the
    /// leaf's path.
    pub(crate) fn place_split(
        &mut self,
        id: u64,
        region: &Region,
        split: Split,
    ) -> Result<Taken, AllocError>
        requires leaf { HasLeafAt self.old.tree id region.now }
        requires narrow { AreNarrow region.now }
        ensures taken { IfOk result (λ taken. TakesSplit self.old id region.now split.col.0 split.v split.mult split.basis self.new taken) }
        ensures kept { OnErr result (self.new ≡ self.old) }
    {
        let Ok(tight) = tight_region(self.alloc, region) else {
            drop(split);
            return Err(AllocError);
        };
        match self.split_fits(&tight, &split) {
            Ok(true) => self.place_fitting(id, region, &tight, split),
            Ok(false) => {
                drop(split);
                Ok(Taken::Refused)
            }
            Err(error) => {
                drop(split);
                Err(error)
            }
        }
    }
}
