// Copies of a tree: the slab with its keys, the map with as much room, and lists with room for as many nodes.
ghost use Rattle.std.specs.Prelude.{◌≡◌, ◌≤◌, Ok, IfOk, vec_len, vec_capacity};

use crate::following::basis_of_lists;
use crate::lists::Lists;
use crate::node::{LeafData, data_of_lists};
use crate::stored::{NodeKind, SplitNode, TreeNode};
use crate::table::{IdKey, NodeTable};
use crate::tree::Tree;
use lp_model::{Basis, ColId, Mult};
use std::alloc::{AllocError, Global};

/// An equal basis, of the same allocator.
fn basis_clone(basis: &Basis) -> Result<Basis, AllocError>
    ensures { IfOk result (λ b. b ≡ basis.now) }
{
    let basic: Result<_, _> = basis.basic.clone();
    let high: Result<_, _> = basis.high.clone();
    basis_of_lists(basic, high)
}

/// Equal data, of the same allocator.
fn data_clone(kept: &LeafData) -> Result<LeafData, AllocError>
    ensures { IfOk result (λ k. k ≡ kept.now) }
{
    let mult: Result<_, _> = kept.mult.clone();
    let farkas: Result<_, _> = kept.farkas.clone();
    let basis = basis_clone(&kept.basis);
    data_of_lists(kept.state, mult, farkas, basis)
}

/// The split on this column with these lists, where there was memory for both.
pub(crate) fn split_of_lists(
    split: &SplitNode,
    col: ColId,
    mult: Result<Mult, AllocError>,
    basis: Result<Basis, AllocError>,
) -> Result<SplitNode, AllocError>
    ensures { IfOk result (λ s. (s ≡ record split.now { col = col; mult = s.mult; basis = s.basis }) × (mult ≡ Ok s.mult) × (basis ≡ Ok s.basis)) }
{
    let Ok(mult) = mult else {
        drop(basis);
        return Err(AllocError);
    };
    let Ok(basis) = basis else {
        drop(mult);
        return Err(AllocError);
    };
    Ok(SplitNode {
        col,
        v: split.v,
        mult,
        basis,
        left: split.left,
        right: split.right,
    })
}

/// An equal split, of the same allocator.
fn split_clone(split: &SplitNode) -> Result<SplitNode, AllocError>
    ensures { IfOk result (λ s. s ≡ split.now) }
{
    let mult: Result<_, _> = split.mult.clone();
    let basis = basis_clone(&split.basis);
    split_of_lists(split, split.col, mult, basis)
}

/// What an equal node keeps, of the same allocator.
fn kind_clone(kind: &NodeKind) -> Result<NodeKind, AllocError>
    ensures { IfOk result (λ k. k ≡ kind.now) }
{
    match kind {
        NodeKind::Leaf(kept) => match data_clone(kept) {
            Ok(kept) => Ok(NodeKind::Leaf(kept)),
            Err(error) => Err(error),
        },
        NodeKind::Split(split) => match split_clone(split) {
            Ok(split) => Ok(NodeKind::Split(split)),
            Err(error) => Err(error),
        },
    }
}

impl Clone for TreeNode {
    ghost is_clone = { λ n m. m ≡ n };

    fn clone(&self) -> Result<TreeNode, AllocError> {
        match kind_clone(&self.kind) {
            Ok(kind) => Ok(TreeNode {
                id: self.id,
                up: self.up,
                kind,
            }),
            Err(error) => Err(error),
        }
    }
}

/// An equal map with as much room.
fn map_copy(alloc: Global, keys: &Vec<IdKey>) -> Result<Vec<IdKey>, AllocError>
    ensures items { IfOk result (λ copy. copy.items ≡ keys.now.items) }
    ensures len { IfOk result (λ copy. vec_len copy ≡ vec_len keys.now) }
    ensures capacity { IfOk result (λ copy. vec_capacity keys.now ≤ vec_capacity copy) }
{
    let Ok(mut copy) = Vec::with_capacity(alloc, keys.capacity()) else {
        return Err(AllocError);
    };
    let Ok(()) = copy.extend_from_slice(keys.as_slice()) else {
        return Err(AllocError);
    };
    Ok(copy)
}

impl NodeTable {
    /// An equal table. Each node has the key that it had, and the map as much room.
    pub(crate) fn copy(&self, alloc: Global) -> Result<NodeTable, AllocError>
        ensures slots { IfOk result (λ t. t.nodes.slots ≡ self.now.nodes.slots) }
        ensures keys { IfOk result (λ t. t.keys.items ≡ self.now.keys.items) }
        ensures len { IfOk result (λ t. vec_len t.keys ≡ vec_len self.now.keys) }
        ensures capacity { IfOk result (λ t. vec_capacity self.now.keys ≤ vec_capacity t.keys) }
    {
        let Ok(nodes) = self.nodes.clone() else {
            return Err(AllocError);
        };
        match map_copy(alloc, &self.keys) {
            Ok(keys) => Ok(NodeTable { nodes, keys }),
            Err(error) => {
                drop(nodes);
                Err(error)
            }
        }
    }
}

impl Tree {
    /// An equal tree.
    pub fn copy(&self) -> Result<Tree, AllocError>
        ensures { IfOk result (λ tree. tree ≡ self.now) }
    {
        let Ok(table) = self.table.copy(self.alloc) else {
            return Err(AllocError);
        };
        let mut lists = Lists::new(self.alloc);
        let Ok(()) = lists.reserve(self.count as usize) else {
            drop(table);
            return Err(AllocError);
        };
        Ok(Tree {
            table,
            root: self.root,
            last: self.last,
            count: self.count,
            still_open: self.still_open,
            limit: self.limit,
            lists,
            alloc: self.alloc,
        })
    }
}
