// Visits of the leaves from left to right, with one trail for the whole walk: the path to the node, and beside it the region
// by its tightest changes alone, which a visitor is lent.
ghost use Rattle.std.specs.Prelude.{◌≡◌, ℕ, [], IfOk, OnOk};
ghost use Rattle.lp_model.specs.Regions.{Path};
ghost use Rattle.tight_regions.specs.Tight.{IsTrail, path_of_trail};
ghost use Rattle.tight_regions.specs.SameBounds.{SameBounds};
ghost use Rattle.branch_tree.specs.Tree.{HasNarrowSplits};
ghost use Rattle.branch_tree.specs.Plain.{Plain};
ghost use Rattle.branch_tree.specs.Leaves.{region_leaves};
ghost use Rattle.branch_tree.specs.Visits.{Visits};
ghost use Rattle.branch_tree.specs.Numbered.{IsNumbered};
ghost use Rattle.branch_tree.specs.Held.{HoldsTree};
ghost use Rattle.branch_tree.specs.private.Paths.{path_to, due_below, VisitsNode, IsNarrowAt};

use crate::stored::{NodeKind, TreeNode, Up};
use crate::table::NodeTable;
use crate::tree::Tree;
use crate::visit::LeafVisitor;
use lp_model::BoundChange;
use std::alloc::{AllocError, Global};
use tight_regions::Trail;

/// A node that is due, and how many bound changes lead to its parent.
#[derive(Clone, Copy, Drop)]
pub(crate) struct DueNode {
    pub id: u64,
    pub above: usize,
}

/// Leads the trail back to a node's parent, and on by the node's own change. A walk takes back no more changes than it
/// put there, so a step costs no more than a few on the average.
fn enter(trail: &mut Trail, above: usize, up: Option<Up>) -> Result<(), AllocError>
    requires { IsTrail trail.old }
    ensures trail { IsTrail trail.new }
    ensures path { IfOk result (λ _. path_of_trail trail.new ≡ path_to (path_of_trail trail.old) above up) }
{
    while above < trail.depth() {
        trail.pop();
    }
    match up {
        Some(way) => {
            trail.grow()?;
            trail.push(way.change());
            Ok(())
        }
        None => Ok(()),
    }
}

/// Visits a leaf, and puts the children of a split, which is `depth` changes below the root, behind the nodes that are due,
/// the left one last.
fn visit_node<V: LeafVisitor>(
    node: &TreeNode,
    region: &[BoundChange],
    depth: usize,
    due: &mut Vec<DueNode>,
    visitor: &mut V,
) -> Result<(), AllocError>
    requires { IsNarrowAt region.now node.now.kind }
    ensures due { IfOk result (λ _. due.new.items ≡ due_below depth node.now.kind due.old.items) }
    ensures visits { OnOk result ((path : Path) → SameBounds region.now path → VisitsNode V.step path node.now.id node.now.kind visitor.old visitor.new) }
{
    match &node.kind {
        NodeKind::Leaf(kept) => visitor.visit(node.id, region, kept),
        NodeKind::Split(split) => {
            let Ok(()) = due.push(DueNode {
                id: split.right,
                above: depth,
            }) else {
                return Err(AllocError);
            };
            let Ok(()) = due.push(DueNode {
                id: split.left,
                above: depth,
            }) else {
                return Err(AllocError);
            };
            Ok(())
        }
    }
}

/// Visits each leaf below the root.
fn visit_below<V: LeafVisitor>(
    alloc: Global,
    table: &NodeTable,
    root: u64,
    visitor: &mut V,
) -> Result<(), AllocError>
    requires { (opens : ℕ) × ((T : Plain) × (HoldsTree table.now root opens T × HasNarrowSplits T)) }
    ensures { OnOk result ((opens : ℕ) (T : Plain) → HoldsTree table.now root opens T → HasNarrowSplits T → Visits V.step (region_leaves [] T) visitor.old visitor.new) }
{
    let mut trail = Trail::new(alloc, 0)?;
    let mut due = Vec::new(alloc);
    let Ok(()) = due.push(DueNode { id: root, above: 0 }) else {
        return Err(AllocError);
    };
    while let Some(next) = due.pop() {
        let Some(node) = table.get(next.id) else {
            unreachable!()
        };
        let Ok(()) = enter(&mut trail, next.above, node.up) else {
            return Err(AllocError);
        };
        let depth = trail.depth();
        let Ok(()) = visit_node(node, trail.region(), depth, &mut due, visitor) else {
            return Err(AllocError);
        };
    }
    Ok(())
}

impl Tree {
    /// Visits each leaf from left to right, with the tightest changes of its path. One trail is kept for the whole walk, and
    /// beside it a list of the nodes that are due.
    pub fn visit_leaves<V: LeafVisitor>(&self, visitor: &mut V) -> Result<(), AllocError>
        requires { HasNarrowSplits self.now.root }
        ensures visits { OnOk result (Visits V.step (region_leaves [] self.now.root) visitor.old visitor.new) }
        ensures numbered { IsNumbered self.now }
    {
        visit_below(self.alloc, &self.table, self.root, visitor)
    }
}
