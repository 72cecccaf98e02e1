// Splits on a column taken out of the tree, each with its child that allows 0 in its place.
ghost use Rattle.std.specs.Option.{option_map};
ghost use Rattle.std.specs.Prelude.{◌≡◌, ℕ, ◌<◌, [], ◌∷◌, None, Some, IsSome, vec_capacity};
ghost use Rattle.slab.specs.Slab.{slab_len};
ghost use Rattle.branch_tree.specs.Plain.{Plain};
ghost use Rattle.branch_tree.specs.private.Stored.{with_child};
ghost use Rattle.branch_tree.specs.Held.{HoldsTree};
ghost use Rattle.branch_tree.specs.Table.{node_at, IsNodeTable};
ghost use Rattle.branch_tree.specs.private.Table.{PutsNode};
ghost use Rattle.branch_tree.specs.private.Splicing.{spliced, spliced_tree};
ghost use Rattle.branch_tree.specs.private.Spliced.{allowing, nodes_around, Spot, tree_after, CanSplice, due_ids, nodes_due, HasRoomToSplice, IsSplicing};
ghost use Rattle.branch_tree.specs.declared.stored.Up.{Up};

use crate::cutting::cut_below;
use crate::lists::{Due, Lists};
use crate::stored::{NodeKind, SplitNode, Up};
use crate::table::NodeTable;
use crate::tree::Tree;

/// The child of a split that allows 0, and the other one.
fn sides(split: &SplitNode) -> (u64, u64)
    ensures { result ≡ (allowing split.now.v split.now.left split.now.right, allowing split.now.v split.now.right split.now.left) }
{
    if 0 <= split.v {
        (split.left, split.right)
    } else {
        (split.right, split.left)
    }
}

/// Puts a node into another one's place as a child of its parent, or as the root where it has none.
fn relink(table: &mut NodeTable, root: &mut u64, up: Option<Up>, old: u64, new: u64)
    requires table { IsNodeTable table.old }
    requires there { (way : Up) → up ≡ Some way → IsSome (node_at table.old way.parent) }
    ensures table { IsNodeTable table.new }
    ensures top { up ≡ None → (table.new ≡ table.old) × (root.new ≡ new) }
    ensures below { (way : Up) → up ≡ Some way → PutsNode (node_at table.old) way.parent (option_map (with_child old new) (node_at table.old way.parent)) (node_at table.new) × (root.new ≡ root.old) }
    ensures len { slab_len table.new.nodes ≡ slab_len table.old.nodes }
    ensures keys { table.new.keys ≡ table.old.keys }
{
    match up {
        Some(way) => table.set_child(way.parent, old, new),
        None => *root = new,
    }
}

/// Takes the split with the id out: the child `stay` takes its place, and all that is below the child `go` goes. The entries of
/// the nodes that go are dead.
fn splice_at(
    table: &mut NodeTable,
    root: &mut u64,
    opens: &mut u64,
    cut: &mut Vec<u64>,
    id: u64,
    stay: u64,
    go: u64,
)
    requires { (s : Spot) × CanSplice table.old root.old opens.old cut.old.items (vec_capacity cut.old) id stay go s }
    ensures tree { (s : Spot) → CanSplice table.old root.old opens.old cut.old.items (vec_capacity cut.old) id stay go s → HoldsTree table.new root.new opens.new (tree_after s) }
    ensures others { (s : Spot) → CanSplice table.old root.old opens.old cut.old.items (vec_capacity cut.old) id stay go s → (k : ℕ) → 0 < nodes_around k s.around → node_at table.new k ≡ option_map (with_child id stay) (node_at table.old k) }
    ensures keys { table.new.keys ≡ table.old.keys }
    ensures empty { cut.new.items ≡ [] }
    ensures room { vec_capacity cut.new ≡ vec_capacity cut.old }
{
    let node = table.take(id);
    let up = node.up;
    drop(node);
    table.set_up(stay, up);
    relink(table, root, up, id, stay);
    cut.push_reserved(go);
    cut_below(table, cut, opens);
}

/// One step of the walk, at the node with the id: a split on the column goes, and the child in its place is due next. The children
/// of another split are due, the left one next.
fn splice_next(
    table: &mut NodeTable,
    root: &mut u64,
    opens: &mut u64,
    lists: &mut Lists,
    id: u64,
    col: u32,
)
    requires { (target : Plain) × IsSplicing table.old root.old opens.old (id ∷ due_ids lists.old.due.items) lists.old col target }
    ensures walk { (target : Plain) → IsSplicing table.old root.old opens.old (id ∷ due_ids lists.old.due.items) lists.old col target → IsSplicing table.new root.new opens.new (due_ids lists.new.due.items) lists.new col target }
    ensures fewer { nodes_due (vec_capacity lists.old.due) (node_at table.new) (due_ids lists.new.due.items) < nodes_due (vec_capacity lists.old.due) (node_at table.old) (id ∷ due_ids lists.old.due.items) }
    ensures keys { table.new.keys ≡ table.old.keys }
    ensures due { vec_capacity lists.new.due ≡ vec_capacity lists.old.due }
    ensures cut { vec_capacity lists.new.cut ≡ vec_capacity lists.old.cut }
{
    let Some(node) = table.get(id) else {
        unreachable!()
    };
    let NodeKind::Split(split) = &node.kind else {
        return;
    };
    if split.col.0 != col {
        lists.due.push_reserved(Due {
            id: split.right,
            depth: 0,
        });
        lists.due.push_reserved(Due {
            id: split.left,
            depth: 0,
        });
        return;
    }
    let (stay, go) = sides(split);
    splice_at(table, root, opens, &mut lists.cut, id, stay, go);
    lists.due.push_reserved(Due { id: stay, depth: 0 });
}

/// Takes each split on a column out. The entries of the nodes that go are dead.
fn splice_all(table: &mut NodeTable, root: &mut u64, opens: &mut u64, lists: &mut Lists, col: u32)
    requires { (T : Plain) × HasRoomToSplice table.old root.old opens.old lists.old T }
    ensures tree { (T : Plain) → HasRoomToSplice table.old root.old opens.old lists.old T → HoldsTree table.new root.new opens.new (spliced col T) }
    ensures keys { table.new.keys ≡ table.old.keys }
    ensures due { lists.new.due.items ≡ [] }
    ensures cut { lists.new.cut.items ≡ [] }
    ensures due_room { vec_capacity lists.new.due ≡ vec_capacity lists.old.due }
    ensures cut_room { vec_capacity lists.new.cut ≡ vec_capacity lists.old.cut }
{
    lists.due.push_reserved(Due {
        id: *root,
        depth: 0,
    });
    while let Some(due) = lists.due.pop() {
        splice_next(table, root, opens, lists, due.id, col);
    }
}

impl Tree {
    /// Takes each split on a column out of the tree, so that its child that allows 0 stands in its place, and what is below the
    /// other child goes.
    pub(crate) fn splice_column(&mut self, col: u32)
        ensures { self.new ≡ spliced_tree col self.old }
    {
        splice_all(
            &mut self.table,
            &mut self.root,
            &mut self.still_open,
            &mut self.lists,
            col,
        );
        self.table.sweep();
        self.count = self.table.nodes.len() as u64;
    }
}
