// A node as the table keeps it: its id, the one bound change that leads to it with its parent's id, and what it keeps. It owns no
// other node.
ghost use Rattle.std.specs.Prelude.{◌≡◌, ◌-◌, ◌^◌, ◌<ℤ◌, pos, Some, IfOk};
ghost use Rattle.branch_tree.specs.Plain.{open_data};
ghost use Rattle.branch_tree.specs.Leaves.{one_if_open};
ghost use Rattle.branch_tree.specs.Stored.{up_of, left_up, right_up, leaf_node};
ghost use Rattle.branch_tree.specs.private.Stored.{change_of};

use crate::node::{LeafData, LeafState, copy_lists, open_data};
use lp_model::{Basis, BoundChange, ColId, Mult, Side};
use std::alloc::{AllocError, Global};

/// One where the leaf is open.
pub(crate) fn is_open(state: LeafState) -> u64
    ensures { result ≡ one_if_open state }
{
    match state {
        LeafState::IsOpen => 1,
        LeafState::IsClosed => 0,
    }
}

/// The way to a node from its parent: the parent's id and the bound change, field by field, the widest one first, since fields
/// stand in memory as they are declared.
#[derive(Clone, Copy, Drop)]
pub(crate) struct Up {
    pub v: i128,
    pub parent: u64,
    pub col: ColId,
    pub side: Side,
}

impl Up {
    /// The way from the parent by the change.
    pub(crate) fn to(parent: u64, change: BoundChange) -> Up
        ensures { result ≡ up_of parent change }
    {
        Up {
            v: change.v,
            parent,
            col: change.col,
            side: change.side,
        }
    }

    /// The bound change.
    pub(crate) fn change(&self) -> BoundChange
        ensures { result ≡ change_of self.now }
    {
        BoundChange {
            col: self.col,
            side: self.side,
            v: self.v,
        }
    }
}

/// What a split keeps, with the ids of its children. The widest field stands first.
#[derive(Drop)]
pub(crate) struct SplitNode {
    pub v: i128,
    pub mult: Mult,
    pub basis: Basis,
    pub left: u64,
    pub right: u64,
    pub col: ColId,
}

/// What a node keeps.
#[derive(Drop)]
pub(crate) enum NodeKind {
    Leaf(LeafData),
    Split(SplitNode),
}

/// A node. The root has no way from a parent.
#[derive(Drop)]
pub(crate) struct TreeNode {
    pub id: u64,
    pub up: Option<Up>,
    pub kind: NodeKind,
}

/// An open leaf with copies of these multipliers and of this basis.
fn open_node(
    alloc: Global,
    id: u64,
    up: Up,
    mult: &Mult,
    basis: &Basis,
) -> Result<TreeNode, AllocError>
    ensures { IfOk result (λ node. node ≡ leaf_node (Some up) (record { id = id; kept = open_data mult.now basis.now })) }
{
    let Ok((mult, basis)) = copy_lists(alloc, mult, basis) else {
        return Err(AllocError);
    };
    Ok(TreeNode {
        id,
        up: Some(up),
        kind: NodeKind::Leaf(open_data(alloc, mult, basis)),
    })
}

/// The two children of a new split with the id: open leaves that inherit its multipliers and its basis.
pub(crate) fn children(
    alloc: Global,
    id: u64,
    split: &SplitNode,
) -> Result<(TreeNode, TreeNode), AllocError>
    requires { split.now.v <ℤ pos (2 ^ 127 - 1) }
    ensures left { IfOk result (λ both. both.0 ≡ leaf_node (left_up id split.now.col.0 split.now.v) (record { id = split.now.left; kept = open_data split.now.mult split.now.basis })) }
    ensures right { IfOk result (λ both. both.1 ≡ leaf_node (right_up id split.now.col.0 split.now.v) (record { id = split.now.right; kept = open_data split.now.mult split.now.basis })) }
{
    let low = Up::to(id, BoundChange::at_most(split.col, split.v));
    let high = Up::to(id, BoundChange::at_least(split.col, split.v + 1));
    let Ok(left) = open_node(alloc, split.left, low, &split.mult, &split.basis) else {
        return Err(AllocError);
    };
    let Ok(right) = open_node(alloc, split.right, high, &split.mult, &split.basis) else {
        drop(left);
        return Err(AllocError);
    };
    Ok((left, right))
}
