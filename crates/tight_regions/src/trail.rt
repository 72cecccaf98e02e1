// The path to a node, and its region by the tightest changes alone. A leaf is judged by the region, which has at most one
// change for each side of each column, however long the path is.
ghost use Rattle.std.specs.Prelude.{◌≡◌, ◌<◌, ◌≤◌, ◌+◌, ◌++◌, ◌∷◌, [], length, take, set, max, IfOk, OnOk, if◌then◌else◌, true};
ghost use Rattle.lp_model.specs.Regions.{AreNarrow};
ghost use Rattle.tight_regions.specs.Tight.{is_same_side, are_rivals, tighter_number, tighter, tightened, undone, no_change, no_replaced, AreChangesApart, IsTrail, path_of_trail, region_of, depth_of, room};
ghost use Rattle.tight_regions.specs.private.Tight.{rival_place};
ghost use Rattle.tight_regions.specs.SameBounds.{SameBounds};

use lp_model::{BoundChange, ColId, Side};
use std::alloc::{AllocError, Global};

/// What a change replaced in a region, for the way back.
#[derive(Clone, Copy, Drop)]
pub(crate) struct Replaced {
    pub(crate) place: usize,
    pub(crate) was: BoundChange,
    /// How many changes the region had.
    pub(crate) count: usize,
}

/// A path of bound changes with its tightest ones: the first `depth` changes of `path` are the path, and the first `count` of
/// `region` its tightest changes.
#[derive(Drop)]
pub struct Trail {
    pub(crate) path: Vec<BoundChange>,
    pub(crate) replaced: Vec<Replaced>,
    pub(crate) depth: usize,
    pub(crate) region: Vec<BoundChange>,
    pub(crate) count: usize,
}

/// Whether two sides are the same.
fn is_same_side(first: Side, second: Side) -> bool
    ensures { result ≡ is_same_side first second }
{
    match (first, second) {
        (Side::Lo, Side::Lo) => true,
        (Side::Hi, Side::Hi) => true,
        _ => false,
    }
}

/// Whether two changes are for the same side of the same column.
fn are_rivals(first: &BoundChange, second: &BoundChange) -> bool
    ensures { result ≡ are_rivals first.now second.now }
{
    first.col.0 == second.col.0 && is_same_side(first.side, second.side)
}

/// The tighter of two numbers for this side.
fn tighter_number(side: Side, first: i128, second: i128) -> i128
    ensures { result ≡ tighter_number side first second }
{
    let rises = first <= second;
    match side {
        Side::Lo => if rises { second } else { first },
        Side::Hi => if rises { first } else { second },
    }
}

/// The tighter of two changes for the same side of the same column.
pub(crate) fn tighter(first: &BoundChange, second: &BoundChange) -> BoundChange
    ensures { result ≡ tighter first.now second.now }
{
    BoundChange {
        col: first.col,
        side: first.side,
        v: tighter_number(first.side, first.v, second.v),
    }
}

/// The place of the change for the same side of the same column, or how many changes there are.
pub(crate) fn place_of(region: &[BoundChange], change: &BoundChange) -> usize
    ensures place { result ≡ rival_place region.now change.now }
    ensures within { result ≤ length region.now }
{
    for place in 0..region.len() {
        if are_rivals(&region[place], change) {
            return place;
        }
    }
    region.len()
}

/// The region in the first `count` places, with one more change.
fn tighten(places: &mut [BoundChange], count: usize, change: &BoundChange) -> Replaced
    requires { count < length places.old }
    ensures region { take (max count (result.place + 1)) places.new ≡ tightened (take count places.old) change.now }
    ensures back { undone places.new result ≡ places.old }
    ensures count { result.count ≡ count }
    ensures within { result.place ≤ count }
{
    let place = place_of(&places[..count], change);
    let was = places[place];
    if place < count {
        places[place] = tighter(&was, change);
    } else {
        places[place] = *change;
    }
    Replaced { place, was, count }
}

/// What stands in a place that no change has taken yet.
fn no_change() -> BoundChange
    ensures { result ≡ no_change }
{
    BoundChange {
        col: ColId(0),
        side: Side::Lo,
        v: 0,
    }
}

/// The same of what changes replaced.
fn no_replaced() -> Replaced
    ensures { result ≡ no_replaced }
{
    Replaced {
        place: 0,
        was: no_change(),
        count: 0,
    }
}

impl Trail {
    /// At the root, with room for paths so long.
    pub fn new(alloc: Global, length: usize) -> Result<Trail, AllocError>
        ensures trail { IfOk result IsTrail }
        ensures root { IfOk result (λ t. path_of_trail t ≡ []) }
        ensures room { IfOk result (λ t. length ≤ room t) }
    {
        let change = no_change();
        let Ok(path) = vec![in alloc; change; length] else {
            return Err(AllocError);
        };
        let Ok(replaced) = vec![in alloc; no_replaced(); length] else {
            drop(path);
            return Err(AllocError);
        };
        let Ok(region) = vec![in alloc; change; length] else {
            drop(path);
            drop(replaced);
            return Err(AllocError);
        };
        Ok(Trail {
            path,
            replaced,
            depth: 0,
            region,
            count: 0,
        })
    }

    /// How long the path is.
    pub fn depth(&self) -> usize
        ensures { result ≡ depth_of self.now }
    {
        self.depth
    }

    /// The tightest changes of the path.
    pub fn region(&self) -> &[BoundChange]
        requires { IsTrail self.now }
        ensures region { result.now ≡ region_of self.now }
        ensures apart { AreChangesApart result.now }
        ensures bounds { SameBounds result.now (path_of_trail self.now) }
        ensures narrow { AreNarrow (path_of_trail self.now) → AreNarrow result.now }
    {
        &self.region[..self.count]
    }

    /// Back to the root.
    pub fn restart(&mut self)
        requires { IsTrail self.old }
        ensures trail { IsTrail self.new }
        ensures path { path_of_trail self.new ≡ [] }
        ensures depth { depth_of self.new ≡ 0 }
        ensures room { room self.new ≡ room self.old }
    {
        self.depth = 0;
        self.count = 0;
    }

    /// Makes room for one more change. Memory grows by leaps, so that a walk seldom asks for some.
    pub fn grow(&mut self) -> Result<(), AllocError>
        requires { IsTrail self.old }
        ensures trail { IsTrail self.new }
        ensures path { path_of_trail self.new ≡ path_of_trail self.old }
        ensures depth { depth_of self.new ≡ depth_of self.old }
        ensures room { OnOk result (depth_of self.new < room self.new) }
    {
        if self.depth < self.path.len() {
            return Ok(());
        }
        self.path.reserve(1)?;
        self.replaced.reserve(1)?;
        self.region.reserve(1)?;
        self.path.push_reserved(no_change());
        self.replaced.push_reserved(no_replaced());
        self.region.push_reserved(no_change());
        Ok(())
    }

    /// One change further.
    pub fn push(&mut self, change: BoundChange)
        requires trail { IsTrail self.old }
        requires room { depth_of self.old < room self.old }
        ensures trail { IsTrail self.new }
        ensures path { path_of_trail self.new ≡ path_of_trail self.old ++ change ∷ [] }
        ensures depth { depth_of self.new ≡ depth_of self.old + 1 }
        ensures room { room self.new ≡ room self.old }
    {
        let replaced = tighten(&mut self.region, self.count, &change);
        self.count = self.count.max(replaced.place + 1);
        self.replaced[self.depth] = replaced;
        self.path[self.depth] = change;
        self.depth += 1;
    }

    /// Back by the last change.
    pub fn pop(&mut self) -> BoundChange
        requires trail { IsTrail self.old }
        requires some { 0 < depth_of self.old }
        ensures trail { IsTrail self.new }
        ensures path { path_of_trail self.old ≡ path_of_trail self.new ++ result ∷ [] }
        ensures depth { depth_of self.old ≡ depth_of self.new + 1 }
        ensures room { room self.new ≡ room self.old }
    {
        self.depth -= 1;
        let last = self.replaced[self.depth];
        self.region[last.place] = last.was;
        self.count = last.count;
        self.path[self.depth]
    }
}
