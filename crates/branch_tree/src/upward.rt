// The path of a leaf, gathered on the way up to the root.
ghost use Rattle.std.specs.Prelude.{◌≡◌, ◌≤◌, length, reverse, MatchOption, IfOk};
ghost use Rattle.slab.specs.Slab.{slab_len};
ghost use Rattle.lp_model.specs.Regions.{Path};
ghost use Rattle.branch_tree.specs.Plain.{leaves_with, path_of};
ghost use Rattle.branch_tree.specs.Changes.{HasLeaf};
ghost use Rattle.branch_tree.specs.Table.{node_at, AreRisingIds};
ghost use Rattle.branch_tree.specs.private.Paths.{LeadsUp, changes_of};

use crate::stored::{NodeKind, Up};
use crate::table::NodeTable;
use crate::tree::Tree;
use lp_model::{BoundChange, ColId, List, Region, Side};
use smallvec::SmallVec;
use std::alloc::{AllocError, Global};

/// One bound change of a path. Places inline want a default value, which a bound change has not.
#[derive(Clone, Copy, Drop)]
pub(crate) struct Turn {
    pub change: BoundChange,
}

impl Default for Turn {
    fn default() -> Turn {
        Turn {
            change: BoundChange {
                col: ColId(0),
                side: Side::Lo,
                v: 0,
            },
        }
    }
}

/// The changes on the way from a node up to the root, its own first.
fn gather(
    alloc: Global,
    table: &NodeTable,
    from: Option<Up>,
) -> Result<SmallVec<Turn, 16>, AllocError>
    requires rising { AreRisingIds table.now.keys.items }
    requires way { (cs : Path) × (LeadsUp (node_at table.now) from cs × (length cs ≤ slab_len table.now.nodes)) }
    ensures { IfOk result (λ turns. (cs : Path) → LeadsUp (node_at table.now) from cs → changes_of turns.items ≡ cs) }
{
    let mut turns = SmallVec::new(alloc);
    let mut up = from;
    while let Some(way) = up {
        let Ok(()) = turns.push(Turn {
            change: way.change(),
        }) else {
            return Err(AllocError);
        };
        let Some(node) = table.get(way.parent) else {
            unreachable!()
        };
        up = node.up;
    }
    Ok(turns)
}

/// The region of the changes, which are gathered with the last one first.
fn turned(alloc: Global, gathered: SmallVec<Turn, 16>) -> Result<Region, AllocError>
    ensures { IfOk result (λ region. region ≡ reverse (changes_of gathered.items)) }
{
    let mut turns = gathered;
    let Ok(mut path) = Vec::with_capacity(alloc, turns.len()) else {
        return Err(AllocError);
    };
    while let Some(turn) = turns.pop() {
        path.push_reserved(turn.change);
    }
    Ok(List::from_vec(path))
}

/// The path of a node with this way up.
fn region_above(alloc: Global, table: &NodeTable, up: Option<Up>) -> Result<Region, AllocError>
    requires rising { AreRisingIds table.now.keys.items }
    requires way { (cs : Path) × (LeadsUp (node_at table.now) up cs × (length cs ≤ slab_len table.now.nodes)) }
    ensures { IfOk result (λ region. (cs : Path) → LeadsUp (node_at table.now) up cs → region ≡ reverse cs) }
{
    match gather(alloc, table, up) {
        Ok(turns) => turned(alloc, turns),
        Err(error) => Err(error),
    }
}

impl Tree {
    /// The bound changes on the way from the root to the leaf with the id.
    pub fn region_of(&self, id: u64) -> Result<Option<Region>, AllocError>
        ensures region { IfOk result (λ region. region ≡ path_of id self.now.root) }
        ensures found { IfOk result (λ region. MatchOption region (leaves_with id self.now.root ≡ 0) (λ _. HasLeaf self.now id)) }
    {
        let Some(node) = self.table.get(id) else {
            return Ok(None);
        };
        match &node.kind {
            NodeKind::Split(_) => Ok(None),
            NodeKind::Leaf(_) => match region_above(self.alloc, &self.table, node.up) {
                Ok(region) => Ok(Some(region)),
                Err(error) => Err(error),
            },
        }
    }
}
