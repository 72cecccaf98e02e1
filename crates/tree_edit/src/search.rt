// A search: a model, its cuts, a tree and the kept points.
ghost use Rattle.std.specs.Prelude.{◌≡◌, ◌⊎◌, [], None, IfOk, IfErr, OnOk, OnErr, length};
ghost use Rattle.cover_cuts.specs.declared.pool.PoolFault.TheVariants.{Full, Memory};
ghost use Rattle.sound_searches.specs.Pool.{AddsCut};
ghost use Rattle.std.specs.Option.{option_copied};
ghost use Rattle.lp_model.specs.Limits.{node_limit, pool_limit};
ghost use Rattle.lp_model.specs.Formulations.{without_cuts};
ghost use Rattle.branch_tree.specs.Leaves.{open_count, region_leaves};
ghost use Rattle.branch_tree.specs.Changes.{first_tree};
ghost use Rattle.search_parts.specs.Points.{target, IsIncumbent};
ghost use Rattle.sound_searches.specs.Sound.{IsSound, formulation_of};
ghost use Rattle.leaf_judging.specs.Judged.{JudgesAll};
ghost use Rattle.leaf_judging.specs.Choosing.{IsFirstCandidate};
ghost use Rattle.leaf_judging.specs.Queued.{IsQueueOf};
ghost use Rattle.leaf_judging.specs.Numbers.{AreNumbersOf};
ghost use Rattle.sound_searches.specs.Free.{IsNextFree};
ghost use Rattle.sound_searches.specs.Calls.{IsNext, IsFresh, search_with_limit, IsLeafNumberAnswer};

use branch_tree::Tree;
use cover_cuts::{CutPool, PoolFault};
use frac128::Frac;
use leaf_judging::{Candidate, LeafIndex, LeafNumber, LeafNumbers, LeafQueue, judge_all_unseen};
use lp_model::{CutId, Derivation, Model, NODE_LIMIT, Point};
use search_parts::oldest_least;
use std::alloc::{AllocError, Global};
use std::mem;

/// A search by branching: a model, its cuts, a tree whose leaves are judged, and the feasible points that were kept, oldest
/// first.
/// Contracts see a `PlainSearch`, and each search is sound (`IsSound`).
#[derive(Drop)]
pub struct Search {
    pub(crate) model: Model,
    pub(crate) pool: CutPool,
    pub(crate) tree: Tree,
    pub(crate) points: Vec<Point>,
    pub(crate) values: Vec<Frac>,
    pub(crate) numbers: LeafNumbers,
    pub(crate) queue: LeafQueue,
    pub(crate) alloc: Global,
}

impl std::marker::Model for Search {
    ghost use Rattle.sound_searches.specs.Sound.{PlainSearch};
    ghost use Rattle.tree_edit.specs.Indexed.{IsIndexed};
    ghost use Rattle.sound_searches.specs.SearchCode.{search_code};

    ghost Value = { PlainSearch };

    ghost coded = { search_code };

    ghost view = { λ s. record { model = s.model; cuts = s.pool; tree = s.tree; points = s.points.items } };

    ghost invariant = { λ s. IsIndexed (record { model = s.model; cuts = s.pool; tree = s.tree; points = s.points.items }) s.values.items s.numbers s.queue };
}

/// A tree of one leaf, which is judged where there is no point, and what is kept of its leaf.
fn judged_tree(alloc: Global, model: &Model, limit: u64) -> Result<(Tree, LeafIndex), AllocError>
    ensures judged { IfOk result (λ both. JudgesAll (without_cuts model.now) None (first_tree limit) both.0) }
    ensures numbers { IfOk result (λ both. AreNumbersOf (without_cuts model.now) both.0.root both.1.numbers) }
    ensures queue { IfOk result (λ both. IsQueueOf (without_cuts model.now) both.0.root both.1.queue) }
{
    let Ok(mut tree) = Tree::new(alloc, limit) else {
        return Err(AllocError);
    };
    let none = CutPool::new(alloc);
    match judge_all_unseen(alloc, model, &none, &None, &mut tree) {
        Ok(index) => Ok((tree, index)),
        Err(error) => {
            drop(tree);
            Err(error)
        }
    }
}

/// Puts a tree, and what is kept of its leaves, in the place of another.
pub(crate) fn put_tree(
    place: &mut Tree,
    numbers: &mut LeafNumbers,
    queue: &mut LeafQueue,
    tree: Tree,
    index: LeafIndex,
)
    ensures tree { place.new ≡ tree }
    ensures numbers { numbers.new ≡ index.numbers }
    ensures queue { queue.new ≡ index.queue }
{
    let old = mem::replace(place, tree);
    drop(old);
    *numbers = index.numbers;
    *queue = index.queue;
}

/// Takes out all cuts, all points and their values.
fn clear(alloc: Global, pool: &mut CutPool, points: &mut Vec<Point>, values: &mut Vec<Frac>)
    ensures pool { pool.new ≡ [] }
    ensures points { points.new.items ≡ [] }
    ensures values { values.new.items ≡ [] }
{
    drop(mem::replace(pool, CutPool::new(alloc)));
    drop(mem::replace(points, Vec::new(alloc)));
    *values = Vec::new(alloc);
}

impl Search {
    /// A search with one leaf, which is judged, no cut and no point. There will be at most 1,000,000 nodes.
    pub fn new(alloc: Global, model: Model) -> Result<Search, AllocError>
        ensures { IfOk result (λ s. IsFresh model node_limit s) }
    {
        match judged_tree(alloc, &model, NODE_LIMIT) {
            Ok((tree, index)) => Ok(Search {
                model,
                pool: CutPool::new(alloc),
                tree,
                points: Vec::new(alloc),
                values: Vec::new(alloc),
                numbers: index.numbers,
                queue: index.queue,
                alloc,
            }),
            Err(error) => {
                drop(model);
                Err(error)
            }
        }
    }

    /// Begins again with the same model and limit, no cut and no point. Where there is no memory nothing has changed.
    pub fn restart(&mut self) -> Result<(), AllocError>
        ensures fresh { IfOk result (λ _. IsFresh self.old.model self.old.tree.limit self.new) }
        ensures kept { OnErr result (self.new ≡ self.old) }
    {
        let Ok((tree, index)) = judged_tree(self.alloc, &self.model, self.tree.limit()) else {
            return Err(AllocError);
        };
        clear(
            self.alloc,
            &mut self.pool,
            &mut self.points,
            &mut self.values,
        );
        put_tree(
            &mut self.tree,
            &mut self.numbers,
            &mut self.queue,
            tree,
            index,
        );
        Ok(())
    }

    /// Another limit on the nodes. Those that there are stay.
    pub fn set_limit(&mut self, n: u64)
        ensures { self.new ≡ search_with_limit self.old n }
    {
        self.tree.set_limit(n);
    }

    /// The tree, whose leaves are judged.
    pub fn tree(&self) -> &Tree
        ensures tree { result.now ≡ self.now.tree }
        ensures sound { IsSound self.now }
    {
        &self.tree
    }

    /// The model that is searched.
    pub fn model(&self) -> &Model
        ensures { result.now ≡ self.now.model }
    {
        &self.model
    }

    /// The cuts of the search, in the order in which they came, those among them that do not count at its model.
    pub fn pool(&self) -> &CutPool
        ensures pool { result.now ≡ self.now.cuts }
        ensures sound { IsSound self.now }
    {
        &self.pool
    }

    /// One more cut at the end of the pool, and its place. No list names it, so each leaf keeps its number and its state.
    /// Refused where 10,000 stand; then, and for want of memory, nothing has changed.
    pub fn add_cut(&mut self, derivation: Derivation) -> Result<CutId, PoolFault>
        ensures place { IfOk result (λ id. id.0 ≡ length self.old.cuts) }
        ensures added { OnOk result (AddsCut self.old derivation self.new) }
        ensures kept { OnErr result (self.new ≡ self.old) }
        ensures fault { IfErr result (λ f. (f ≡ Memory) ⊎ ((f ≡ Full) × (length self.old.cuts ≡ pool_limit))) }
    {
        self.pool.add(&self.model, derivation)
    }

    /// The kept points, oldest first.
    pub fn points(&self) -> &[Point]
        ensures points { result.now ≡ self.now.points }
        ensures sound { IsSound self.now }
    {
        &self.points
    }

    /// A kept point of the best value, the oldest of equals.
    pub fn incumbent(&self) -> Option<&Point>
        ensures { IsIncumbent self.now.model self.now.points (option_copied result) }
    {
        match oldest_least(&self.values) {
            None => None,
            Some(place) => Some(&self.points[place]),
        }
    }

    /// The value of the incumbent in least form, against which leaves close.
    pub fn target(&self) -> Option<Frac>
        ensures { result ≡ target self.now.model self.now.points }
    {
        match oldest_least(&self.values) {
            None => None,
            Some(place) => Some(self.values[place]),
        }
    }

    /// How many leaves are open.
    pub fn open_leaves(&self) -> u64
        ensures { result ≡ open_count self.now.tree.root }
    {
        self.tree.open_leaves()
    }

    /// The number of the leaf with the id, if there is such a leaf.
    pub fn number(&self, id: u64) -> Option<LeafNumber>
        ensures { IsLeafNumberAnswer self.now id result }
    {
        match self.tree.leaf(id) {
            None => None,
            Some(_) => self.numbers.get(id),
        }
    }

    /// The numbers of the leaves, each kept under its leaf's id.
    pub fn numbers(&self) -> &LeafNumbers
        ensures { AreNumbersOf (formulation_of self.now) self.now.tree.root result.now }
    {
        &self.numbers
    }

    /// The open leaf that goes first, with its number, if a leaf is open.
    pub fn next_candidate(&self) -> Option<Candidate>
        ensures { IsFirstCandidate (formulation_of self.now) (region_leaves [] self.now.tree.root) result }
    {
        self.queue.first_candidate()
    }

    /// The id of the open leaf with the least number. One whose number is `Minus` or could not be computed goes before
    /// all numbers, and of equals the one with the least id.
    pub fn next_leaf(&self) -> Option<u64>
        ensures { IsNext self.now result }
    {
        match self.queue.first_candidate() {
            None => None,
            Some(first) => Some(first.id),
        }
    }

    /// The id of the open leaf with the least number of those that nobody holds, in the same order. `held` has for each worker
    /// the id of the leaf that it holds, or none.
    pub fn next_free_leaf(&self, held: &[Option<u64>]) -> Option<u64>
        ensures { IsNextFree self.now held.now result }
    {
        match self.queue.first_free(held) {
            None => None,
            Some(first) => Some(first.id),
        }
    }
}
