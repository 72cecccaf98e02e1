// The nodes in a slab, each found under its id through an ordered map from ids to keys. A key may be used again, an id never.
//
// Ids are given in rising order, so the map is a list of pairs in that order: a new id goes to its end, and one is found by halving.
// A list can have room in advance, which a tree of the standard library can't: a collapse gives a new id and may not fail. What is
// taken out of the slab is taken out of the map later, for all of them in one pass (`sweep`). Until then its entry is dead: its
// key is vacant, or has a node with another id, and the entry finds nothing.
ghost use Rattle.std.specs.Prelude.{◌≡◌, ◌≢◌, ◌↔◌, ℕ, ◌+◌, ◌<◌, ◌≤◌, [], length, slice_index_or, IsTrue, IsSome, Some, None, OnOk, vec_len, vec_capacity};
ghost use Rattle.std.specs.Option.{option_copied, option_map};
ghost use Rattle.slab.specs.Slab.{get, slab_len, ContainsKey, Updates, HasRoomFor};
ghost use Rattle.branch_tree.specs.declared.node.LeafData.{LeafData};
ghost use Rattle.branch_tree.specs.declared.stored.SplitNode.{SplitNode};
ghost use Rattle.branch_tree.specs.declared.stored.TreeNode.{TreeNode};
ghost use Rattle.branch_tree.specs.Leaves.{one_if_open};
ghost use Rattle.branch_tree.specs.private.Stored.{leaf_of, split_of, with_child};
ghost use Rattle.branch_tree.specs.private.Moved.{with_up};
ghost use Rattle.branch_tree.specs.private.StateWalk.{node_with_state};
ghost use Rattle.branch_tree.specs.Table.{key_of, node_at, AreRisingIds, AreBelow, IsNodeTable, IsLive, AreLive};
ghost use Rattle.branch_tree.specs.private.Table.{PutsNode};

use crate::node::{LeafData, LeafState};
use crate::stored::{NodeKind, TreeNode, Up, is_open};
use slab::Slab;
use std::alloc::{AllocError, Global};

/// An id beside the key of its node.
#[derive(Clone, Copy, Drop)]
pub(crate) struct IdKey {
    pub id: u64,
    pub key: usize,
}

/// How many entries have a smaller id for sure: each entry in front of the last one has an id that is smaller by one at least.
fn least_place(keys: &[IdKey], id: u64) -> usize
    requires { AreRisingIds keys.now }
    ensures within { result ≤ length keys.now }
    ensures few { result ≤ id }
    ensures before { (k : ℕ) (d : IdKey) → k < result → (slice_index_or keys.now k d).id < id }
{
    let Some(last) = keys.last() else {
        return 0;
    };
    if last.id < id {
        return 0;
    }
    (keys.len() - 1).saturating_sub((last.id - id) as usize)
}

/// How many entries have an id below this one. Ids rise, so that only the places are looked at that the ids that are gone leave
/// open: where none is gone, one.
fn place_of(keys: &[IdKey], id: u64) -> usize
    requires { AreRisingIds keys.now }
    ensures within { result ≤ length keys.now }
    ensures before { (k : ℕ) (d : IdKey) → k < result → (slice_index_or keys.now k d).id < id }
    ensures after { (k : ℕ) (d : IdKey) → result ≤ k → k < length keys.now → id ≤ (slice_index_or keys.now k d).id }
{
    let mut low = least_place(keys, id);
    let mut high = keys.len().min(id as usize);
    while low < high {
        let middle = low + (high - low) / 2;
        if keys[middle].id < id {
            low = middle + 1;
        } else {
            high = middle;
        }
    }
    low
}

/// The key beside the id.
fn key_of(keys: &[IdKey], id: u64) -> Option<usize>
    requires { AreRisingIds keys.now }
    ensures { result ≡ key_of id keys.now }
{
    match keys.get(place_of(keys, id)) {
        Some(entry) => if entry.id == id {
            Some(entry.key)
        } else {
            None
        },
        None => None,
    }
}

/// Puts another node into a slot that has one.
pub(crate) fn put_at(nodes: &mut Slab<TreeNode>, key: usize, node: TreeNode)
    requires { ContainsKey nodes.old key }
    ensures put { Updates nodes.old nodes.new key (Some node) }
    ensures len { slab_len nodes.new ≡ slab_len nodes.old }
    ensures capacity { nodes.new.capacity ≡ nodes.old.capacity }
{
    let old = nodes.remove(key);
    let _ = nodes.insert_reserved(node);
    drop(old);
}

/// The node, with the new id in the place of the old one of a child.
fn with_child(node: TreeNode, old: u64, new: u64) -> TreeNode
    ensures { result ≡ with_child old new node }
{
    let mut node = node;
    if let NodeKind::Split(split) = &mut node.kind {
        if split.left == old {
            split.left = new;
        }
        if split.right == old {
            split.right = new;
        }
    }
    node
}

/// Gives the node in a slot another child in the place of an old one.
fn rename_at(nodes: &mut Slab<TreeNode>, key: usize, old: u64, new: u64)
    requires { ContainsKey nodes.old key }
    ensures put { (node : TreeNode) → get nodes.old key ≡ Some node → Updates nodes.old nodes.new key (Some (with_child old new node)) }
    ensures len { slab_len nodes.new ≡ slab_len nodes.old }
{
    let node = nodes.remove(key);
    let _ = nodes.insert_reserved(with_child(node, old, new));
}

/// The node, with another state if it is a leaf.
fn with_state(node: TreeNode, state: LeafState) -> TreeNode
    ensures { result ≡ node_with_state state node }
{
    let mut node = node;
    if let NodeKind::Leaf(kept) = &mut node.kind {
        kept.state = state;
    }
    node
}

/// Gives the node in a slot another state if it is a leaf.
fn set_state_at(nodes: &mut Slab<TreeNode>, key: usize, state: LeafState)
    requires { ContainsKey nodes.old key }
    ensures put { (node : TreeNode) → get nodes.old key ≡ Some node → Updates nodes.old nodes.new key (Some (node_with_state state node)) }
    ensures len { slab_len nodes.new ≡ slab_len nodes.old }
{
    let node = nodes.remove(key);
    let _ = nodes.insert_reserved(with_state(node, state));
}

/// The nodes by their ids.
#[derive(Drop)]
pub(crate) struct NodeTable {
    pub nodes: Slab<TreeNode>,
    pub keys: Vec<IdKey>,
}

impl NodeTable {
    /// No node.
    pub(crate) fn new(alloc: Global) -> NodeTable
        ensures table { IsNodeTable result }
        ensures keys { result.keys.items ≡ [] }
        ensures len { slab_len result.nodes ≡ 0 }
        ensures empty { (id : ℕ) → node_at result id ≡ None }
    {
        NodeTable {
            nodes: Slab::new(alloc),
            keys: Vec::new(alloc),
        }
    }

    /// Makes room for so many more nodes, and for so many more ids.
    pub(crate) fn reserve(&mut self, nodes: usize, ids: usize) -> Result<(), AllocError>
        ensures nodes { OnOk result (HasRoomFor self.new.nodes nodes) }
        ensures ids { OnOk result (vec_len self.new.keys + ids ≤ vec_capacity self.new.keys) }
        ensures slots { self.new.nodes.slots ≡ self.old.nodes.slots }
        ensures keys { self.new.keys.items ≡ self.old.keys.items }
        ensures len { vec_len self.new.keys ≡ vec_len self.old.keys }
        ensures capacity { vec_capacity self.old.keys ≤ vec_capacity self.new.keys }
    {
        let Ok(()) = self.nodes.reserve(nodes) else {
            return Err(AllocError);
        };
        self.keys.reserve(ids)
    }

    /// The node with the id.
    pub(crate) fn get(&self, id: u64) -> Option<&TreeNode>
        requires { AreRisingIds self.now.keys.items }
        ensures { option_copied result ≡ node_at self.now id }
    {
        let Some(key) = key_of(self.keys.as_slice(), id) else {
            return None;
        };
        match self.nodes.get(key) {
            Some(node) => if node.id == id { Some(node) } else { None },
            None => None,
        }
    }

    /// The key of a node that is there.
    fn key(&self, id: u64) -> usize
        requires rising { AreRisingIds self.now.keys.items }
        requires there { IsSome (node_at self.now id) }
        ensures key { key_of id self.now.keys.items ≡ Some result }
        ensures there { node_at self.now id ≡ get self.now.nodes result }
    {
        let Some(key) = key_of(self.keys.as_slice(), id) else {
            unreachable!()
        };
        key
    }

    /// Puts another node into the place of the one with its id.
    pub(crate) fn set(&mut self, node: TreeNode)
        requires table { IsNodeTable self.old }
        requires there { IsSome (node_at self.old node.id) }
        ensures table { IsNodeTable self.new }
        ensures put { PutsNode (node_at self.old) node.id (Some node) (node_at self.new) }
        ensures len { slab_len self.new.nodes ≡ slab_len self.old.nodes }
        ensures room { self.new.nodes.capacity ≡ self.old.nodes.capacity }
        ensures live { AreLive self.old.nodes self.old.keys.items → AreLive self.new.nodes self.new.keys.items }
        ensures keys { self.new.keys ≡ self.old.keys }
    {
        let key = self.key(node.id);
        put_at(&mut self.nodes, key, node);
    }

    /// Gives a split another child in the place of an old one.
    pub(crate) fn set_child(&mut self, id: u64, old: u64, new: u64)
        requires table { IsNodeTable self.old }
        requires there { IsSome (node_at self.old id) }
        ensures table { IsNodeTable self.new }
        ensures put { PutsNode (node_at self.old) id (option_map (with_child old new) (node_at self.old id)) (node_at self.new) }
        ensures len { slab_len self.new.nodes ≡ slab_len self.old.nodes }
        ensures keys { self.new.keys ≡ self.old.keys }
    {
        let key = self.key(id);
        rename_at(&mut self.nodes, key, old, new);
    }

    /// Gives a leaf another state.
    pub(crate) fn set_state(&mut self, id: u64, state: LeafState)
        requires table { IsNodeTable self.old }
        requires there { IsSome (node_at self.old id) }
        ensures table { IsNodeTable self.new }
        ensures put { PutsNode (node_at self.old) id (option_map (node_with_state state) (node_at self.old id)) (node_at self.new) }
        ensures len { slab_len self.new.nodes ≡ slab_len self.old.nodes }
        ensures live { AreLive self.old.nodes self.old.keys.items → AreLive self.new.nodes self.new.keys.items }
        ensures keys { self.new.keys ≡ self.old.keys }
    {
        let key = self.key(id);
        set_state_at(&mut self.nodes, key, state);
    }

    /// Takes a node out. Its entry in the map is dead until the next sweep.
    pub(crate) fn take(&mut self, id: u64) -> TreeNode
        requires table { IsNodeTable self.old }
        requires there { IsSome (node_at self.old id) }
        ensures table { IsNodeTable self.new }
        ensures node { node_at self.old id ≡ Some result }
        ensures put { PutsNode (node_at self.old) id None (node_at self.new) }
        ensures len { slab_len self.new.nodes + 1 ≡ slab_len self.old.nodes }
        ensures room { HasRoomFor self.new.nodes 1 }
        ensures keys { self.new.keys ≡ self.old.keys }
    {
        let key = self.key(id);
        self.nodes.remove(key)
    }

    /// Puts a node with a new id behind the others. There is room for it.
    pub(crate) fn insert(&mut self, node: TreeNode)
        requires table { IsNodeTable self.old }
        requires new { AreBelow node.id self.old.keys.items }
        requires nodes { HasRoomFor self.old.nodes 1 }
        requires keys { vec_len self.old.keys < vec_capacity self.old.keys }
        ensures table { IsNodeTable self.new }
        ensures put { PutsNode (node_at self.old) node.id (Some node) (node_at self.new) }
        ensures below { AreBelow (node.id + 1) self.new.keys.items }
        ensures live { AreLive self.old.nodes self.old.keys.items → AreLive self.new.nodes self.new.keys.items }
        ensures len { slab_len self.new.nodes ≡ slab_len self.old.nodes + 1 }
        ensures room { self.new.nodes.capacity ≡ self.old.nodes.capacity }
        ensures keys { vec_len self.new.keys ≡ vec_len self.old.keys + 1 }
        ensures capacity { vec_capacity self.new.keys ≡ vec_capacity self.old.keys }
    {
        let id = node.id;
        let key = self.nodes.insert_reserved(node);
        self.keys.push_reserved(IdKey { id, key });
    }

    /// Whether the node of an entry is in the slab, under the entry's key.
    fn is_live(&self, entry: &IdKey) -> bool
        ensures { IsTrue result ↔ IsLive self.now.nodes entry.now }
    {
        match self.nodes.get(entry.key) {
            Some(node) => node.id == entry.id,
            None => false,
        }
    }

    /// Takes the dead entries out of the map.
    pub(crate) fn sweep(&mut self)
        requires { IsNodeTable self.old }
        ensures table { IsNodeTable self.new }
        ensures same { (id : ℕ) → node_at self.new id ≡ node_at self.old id }
        ensures live { AreLive self.new.nodes self.new.keys.items }
        ensures below { (id : ℕ) → AreBelow id self.old.keys.items → AreBelow id self.new.keys.items }
        ensures nodes { self.new.nodes ≡ self.old.nodes }
        ensures fewer { vec_len self.new.keys ≤ vec_len self.old.keys }
        ensures capacity { vec_capacity self.new.keys ≡ vec_capacity self.old.keys }
    {
        let mut kept = 0;
        for place in 0..self.keys.len() {
            let entry = self.keys[place];
            if self.is_live(&entry) {
                self.keys[kept] = entry;
                kept += 1;
            }
        }
        self.keys.truncate(kept);
    }

    /// The data of the leaf with the id.
    pub(crate) fn leaf(&self, id: u64) -> Option<&LeafData>
        requires { AreRisingIds self.now.keys.items }
        ensures { option_copied result ≡ leaf_of (node_at self.now id) }
    {
        let Some(node) = self.get(id) else {
            return None;
        };
        match &node.kind {
            NodeKind::Leaf(kept) => Some(kept),
            NodeKind::Split(_) => None,
        }
    }

    /// Whether the leaf with the id is open, as one or none, and the way to it.
    pub(crate) fn leaf_parts(&self, id: u64) -> (u64, Option<Up>)
        requires rising { AreRisingIds self.now.keys.items }
        requires there { IsSome (leaf_of (node_at self.now id)) }
        ensures open { (kept : LeafData) → leaf_of (node_at self.now id) ≡ Some kept → result.0 ≡ one_if_open kept.state }
        ensures up { (node : TreeNode) → node_at self.now id ≡ Some node → result.1 ≡ node.up }
    {
        let Some(node) = self.get(id) else {
            unreachable!()
        };
        match &node.kind {
            NodeKind::Leaf(kept) => (is_open(kept.state), node.up),
            NodeKind::Split(_) => unreachable!(),
        }
    }

    /// Whether a split has the id.
    pub(crate) fn has_split(&self, id: u64) -> bool
        requires { AreRisingIds self.now.keys.items }
        ensures { IsTrue result ↔ IsSome (split_of (node_at self.now id)) }
    {
        let Some(node) = self.get(id) else {
            return false;
        };
        match &node.kind {
            NodeKind::Leaf(_) => false,
            NodeKind::Split(_) => true,
        }
    }

    /// The children of a split.
    pub(crate) fn children(&self, id: u64) -> (u64, u64)
        requires rising { AreRisingIds self.now.keys.items }
        requires there { IsSome (split_of (node_at self.now id)) }
        ensures { (split : SplitNode) → split_of (node_at self.now id) ≡ Some split → result ≡ (split.left, split.right) }
    {
        let Some(node) = self.get(id) else {
            unreachable!()
        };
        match &node.kind {
            NodeKind::Leaf(_) => unreachable!(),
            NodeKind::Split(split) => (split.left, split.right),
        }
    }
}

/// The node, with another way from its parent.
fn with_up(node: TreeNode, up: Option<Up>) -> TreeNode
    ensures { result ≡ with_up up node }
{
    let mut node = node;
    node.up = up;
    node
}

/// Gives the node in a slot another way from its parent.
fn move_at(nodes: &mut Slab<TreeNode>, key: usize, up: Option<Up>)
    requires { ContainsKey nodes.old key }
    ensures put { (node : TreeNode) → get nodes.old key ≡ Some node → Updates nodes.old nodes.new key (Some (with_up up node)) }
    ensures len { slab_len nodes.new ≡ slab_len nodes.old }
{
    let node = nodes.remove(key);
    let _ = nodes.insert_reserved(with_up(node, up));
}

impl NodeTable {
    /// Gives a node another way from its parent.
    pub(crate) fn set_up(&mut self, id: u64, up: Option<Up>)
        requires table { IsNodeTable self.old }
        requires there { IsSome (node_at self.old id) }
        ensures table { IsNodeTable self.new }
        ensures put { PutsNode (node_at self.old) id (option_map (with_up up) (node_at self.old id)) (node_at self.new) }
        ensures len { slab_len self.new.nodes ≡ slab_len self.old.nodes }
        ensures keys { self.new.keys ≡ self.old.keys }
    {
        let key = self.key(id);
        move_at(&mut self.nodes, key, up);
    }
}
