// Every split at a depth, or on a column, made an open leaf, in one walk.
ghost use Rattle.std.specs.Prelude.{◌≡◌, ◌≤◌, ℕ, ◌+◌, [], Some, IsTrue, vec_len, vec_capacity};
ghost use Rattle.branch_tree.specs.Plain.{Plain};
ghost use Rattle.branch_tree.specs.Changes.{after_trim};
ghost use Rattle.branch_tree.specs.Following.{tree_merged};
ghost use Rattle.branch_tree.specs.private.Collapsing.{chosen_count, chosen_collapsed};
ghost use Rattle.branch_tree.specs.Held.{HoldsTree};
ghost use Rattle.branch_tree.specs.Table.{AreBelow};
ghost use Rattle.branch_tree.specs.private.Trimming.{is_chosen_kind, is_split_kind, children_due, CanTrim, after_chosen};

use crate::cutting::collapse_at;
use crate::lists::{Due, Lists};
use crate::stored::{NodeKind, TreeNode};
use crate::table::NodeTable;
use crate::tree::Tree;
use crate::walks::Chosen;
use std::alloc::Global;

/// Whether a node is a split that becomes an open leaf, where the depth has been counted down to this one.
fn is_chosen(chosen: Chosen, depth: u64, node: &TreeNode) -> bool
    ensures { result ≡ is_chosen_kind chosen depth node.now.kind }
{
    match &node.kind {
        NodeKind::Leaf(_) => false,
        NodeKind::Split(split) => chosen.has(split.col.0, depth),
    }
}

/// Puts the children of a node behind those that are due, with the depth counted down by one, the left one last.
fn put_children(node: &TreeNode, depth: u64, due: &mut Vec<Due>)
    requires { IsTrue (is_split_kind node.now.kind) → vec_len due.old + 2 ≤ vec_capacity due.old }
    ensures due { due.new.items ≡ children_due depth node.now.kind due.old.items }
    ensures room { vec_capacity due.new ≡ vec_capacity due.old }
{
    match &node.kind {
        NodeKind::Leaf(_) => {}
        NodeKind::Split(split) => {
            let depth = depth.saturating_sub(1);
            due.push_reserved(Due {
                id: split.right,
                depth,
            });
            due.push_reserved(Due {
                id: split.left,
                depth,
            });
        }
    }
}

/// Makes each chosen split that stands below no other one an open leaf, from left to right, with the ids after the last one.
/// Answers the last id that is given then. The entries of the nodes that go are dead.
fn collapse_all(
    alloc: Global,
    table: &mut NodeTable,
    root: &mut u64,
    opens: &mut u64,
    lists: &mut Lists,
    chosen: Chosen,
    depth: u64,
    last: u64,
) -> u64
    requires tree { (T : Plain) × CanTrim table.old root.old opens.old lists.old chosen depth last T }
    ensures tree { (T : Plain) → CanTrim table.old root.old opens.old lists.old chosen depth last T → HoldsTree table.new root.new opens.new (chosen_collapsed chosen depth last T) }
    ensures last { (T : Plain) → CanTrim table.old root.old opens.old lists.old chosen depth last T → result ≡ last + chosen_count chosen depth T }
    ensures below { AreBelow (result + 1) table.new.keys.items }
    ensures due { lists.new.due.items ≡ [] }
    ensures cut { lists.new.cut.items ≡ [] }
    ensures due_room { vec_capacity lists.new.due ≡ vec_capacity lists.old.due }
    ensures cut_room { vec_capacity lists.new.cut ≡ vec_capacity lists.old.cut }
{
    let mut given = last;
    lists.due.push_reserved(Due { id: *root, depth });
    while let Some(next) = lists.due.pop() {
        let Some(node) = table.get(next.id) else {
            unreachable!()
        };
        if is_chosen(chosen, next.depth, node) {
            given += 1;
            collapse_at(alloc, table, root, opens, &mut lists.cut, next.id, given);
        } else {
            put_children(node, next.depth, &mut lists.due);
        }
    }
    given
}

impl Tree {
    /// Makes each chosen split, with all that is below it, one open leaf, from left to right.
    fn collapse_chosen(&mut self, chosen: Chosen, depth: u64)
        ensures { self.new ≡ after_chosen self.old chosen depth }
    {
        self.last = collapse_all(
            self.alloc,
            &mut self.table,
            &mut self.root,
            &mut self.still_open,
            &mut self.lists,
            chosen,
            depth,
            self.last,
        );
        self.table.sweep();
        self.count = self.table.nodes.len() as u64;
    }

    /// Makes each split at a depth (the root is at 0), with all that is below it, one open leaf, from left to right.
    pub fn trim_depth(&mut self, depth: u64)
        ensures { self.new ≡ after_trim self.old depth }
    {
        self.collapse_chosen(Chosen::AtDepth, depth);
    }

    /// Makes each split on a column, with all that is below it, one open leaf, from left to right.
    pub(crate) fn merge(&mut self, col: u32)
        ensures { self.new ≡ tree_merged col self.old }
    {
        self.collapse_chosen(Chosen::OnColumn(col), 0);
    }
}
