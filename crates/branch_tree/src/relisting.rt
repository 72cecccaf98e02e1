// The lists of each node changed in place once a variable or some cuts are taken out, in the order of the map.
ghost use Rattle.std.specs.Prelude.{◌≡◌, ℕ, ◌<◌, Some, None, IfOk, OnOk, slice_index_or, vec_len};
ghost use Rattle.std.specs.Option.{option_map};
ghost use Rattle.slab.specs.Slab.{slab_len};
ghost use Rattle.branch_tree.specs.private.Removing.{HasCounts};
ghost use Rattle.branch_tree.specs.private.Relisted.{column_left_by, up_left_by, split_left_by, kind_left_by, node_left_by, tree_left_by};
ghost use Rattle.branch_tree.specs.Table.{node_at, IsNodeTable, AreLive};
ghost use Rattle.branch_tree.specs.private.Table.{PutsNode};
ghost use Rattle.branch_tree.specs.declared.table.IdKey.{IdKey};

use crate::copying::split_of_lists;
use crate::following::{Removed, basis_left, column_after, data_left, mult_left};
use crate::stored::{NodeKind, SplitNode, TreeNode, Up};
use crate::table::{NodeTable, put_at};
use crate::tree::Tree;
use lp_model::ColId;
use std::alloc::{AllocError, Global};

/// Where another column stands then.
fn column_left(gone: &Removed, col: ColId) -> ColId
    ensures { result.0 ≡ column_left_by gone.now col.0 }
{
    match gone {
        Removed::Variable(gone) => column_after(gone, col),
        Removed::Cuts(_) => col,
    }
}

/// The way to a node then.
fn up_left(gone: &Removed, up: Option<Up>) -> Option<Up>
    ensures { result ≡ option_map (up_left_by gone.now) up }
{
    match up {
        Some(way) => Some(Up {
            v: way.v,
            parent: way.parent,
            col: column_left(gone, way.col),
            side: way.side,
        }),
        None => None,
    }
}

/// The split with what is left in its lists.
fn split_left(alloc: Global, split: &SplitNode, gone: &Removed) -> Result<SplitNode, AllocError>
    requires { HasCounts gone.now }
    ensures { IfOk result (λ s. s ≡ split_left_by gone.now split.now) }
{
    let mult = mult_left(alloc, split.mult.as_slice(), gone);
    let basis = basis_left(alloc, &split.basis, gone);
    split_of_lists(split, column_left(gone, split.col), mult, basis)
}

/// What a node keeps with what is left in its lists.
fn kind_left(alloc: Global, kind: &NodeKind, gone: &Removed) -> Result<NodeKind, AllocError>
    requires { HasCounts gone.now }
    ensures { IfOk result (λ k. k ≡ kind_left_by gone.now kind.now) }
{
    match kind {
        NodeKind::Leaf(kept) => match data_left(alloc, kept, gone) {
            Ok(kept) => Ok(NodeKind::Leaf(kept)),
            Err(error) => Err(error),
        },
        NodeKind::Split(split) => match split_left(alloc, split, gone) {
            Ok(split) => Ok(NodeKind::Split(split)),
            Err(error) => Err(error),
        },
    }
}

/// The node with what is left in its lists.
fn node_left(alloc: Global, node: &TreeNode, gone: &Removed) -> Result<TreeNode, AllocError>
    requires { HasCounts gone.now }
    ensures { IfOk result (λ n. n ≡ node_left_by gone.now node.now) }
{
    match kind_left(alloc, &node.kind, gone) {
        Ok(kind) => Ok(TreeNode {
            id: node.id,
            up: up_left(gone, node.up),
            kind,
        }),
        Err(error) => Err(error),
    }
}

impl NodeTable {
    /// Changes the lists of the node of one entry. Where there is no memory it stays as it was.
    fn relist_at(&mut self, alloc: Global, place: usize, gone: &Removed) -> Result<(), AllocError>
        requires counts { HasCounts gone.now }
        requires table { IsNodeTable self.old }
        requires live { AreLive self.old.nodes self.old.keys.items }
        requires within { place < vec_len self.old.keys }
        ensures put { OnOk result ((d : IdKey) → PutsNode (node_at self.old) (slice_index_or self.old.keys.items place d).id (option_map (node_left_by gone.now) (node_at self.old (slice_index_or self.old.keys.items place d).id)) (node_at self.new)) }
        ensures table { IsNodeTable self.new }
        ensures live { AreLive self.new.nodes self.new.keys.items }
        ensures len { slab_len self.new.nodes ≡ slab_len self.old.nodes }
        ensures keys { self.new.keys ≡ self.old.keys }
    {
        let key = self.keys[place].key;
        let Some(node) = self.nodes.get(key) else {
            unreachable!()
        };
        let Ok(left) = node_left(alloc, node, gone) else {
            return Err(AllocError);
        };
        put_at(&mut self.nodes, key, left);
        Ok(())
    }

    /// Changes the lists of each node. Where there is no memory those before one are changed.
    pub(crate) fn relist(&mut self, alloc: Global, gone: &Removed) -> Result<(), AllocError>
        requires counts { HasCounts gone.now }
        requires table { IsNodeTable self.old }
        requires live { AreLive self.old.nodes self.old.keys.items }
        ensures all { OnOk result ((id : ℕ) → node_at self.new id ≡ option_map (node_left_by gone.now) (node_at self.old id)) }
        ensures table { IsNodeTable self.new }
        ensures live { AreLive self.new.nodes self.new.keys.items }
        ensures len { slab_len self.new.nodes ≡ slab_len self.old.nodes }
        ensures keys { self.new.keys ≡ self.old.keys }
    {
        for place in 0..self.keys.len() {
            let Ok(()) = self.relist_at(alloc, place, gone) else {
                return Err(AllocError);
            };
        }
        Ok(())
    }
}

impl Tree {
    /// The tree with what is left in the lists of its nodes.
    pub(crate) fn relisted(self, gone: &Removed) -> Result<Tree, AllocError>
        requires { HasCounts gone.now }
        ensures { IfOk result (λ tree. tree ≡ tree_left_by gone.now self) }
    {
        let Tree {
            mut table,
            root,
            last,
            count,
            still_open,
            limit,
            lists,
            alloc,
        } = self;
        let Ok(()) = table.relist(alloc, gone) else {
            drop(table);
            drop(lists);
            return Err(AllocError);
        };
        Ok(Tree {
            table,
            root,
            last,
            count,
            still_open,
            limit,
            lists,
            alloc,
        })
    }
}
