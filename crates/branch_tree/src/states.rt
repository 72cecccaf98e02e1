// Leaves with other states.
ghost use Rattle.std.specs.Prelude.{◌≡◌, ◌≤◌, [], length, vec_capacity};
ghost use Rattle.branch_tree.specs.Plain.{Plain};
ghost use Rattle.branch_tree.specs.Leaves.{leaf_count, with_states};
ghost use Rattle.branch_tree.specs.Changes.{with_leaf_states};
ghost use Rattle.branch_tree.specs.Table.{node_at, AreRisingIds, AreLive};
ghost use Rattle.branch_tree.specs.Held.{HoldsTree};
ghost use Rattle.branch_tree.specs.private.StateWalk.{children_of, TakesStates};

use crate::lists::Due;
use crate::node::LeafState;
use crate::stored::{NodeKind, is_open};
use crate::table::NodeTable;
use crate::tree::Tree;

/// The ids of the children of a split, and `None` at a leaf.
fn children_of(table: &NodeTable, id: u64) -> Option<(u64, u64)>
    requires { AreRisingIds table.now.keys.items }
    ensures { result ≡ children_of (node_at table.now id) }
{
    let Some(node) = table.get(id) else {
        return None;
    };
    match &node.kind {
        NodeKind::Leaf(_) => None,
        NodeKind::Split(split) => Some((split.left, split.right)),
    }
}

/// Gives the leaves below the root these states, from left to right, and answers how many of them are open.
fn give_states(table: &mut NodeTable, due: &mut Vec<Due>, root: u64, states: &[LeafState]) -> u64
    requires tree { (T : Plain) × TakesStates table.old root due.old.items (vec_capacity due.old) (length states.now) T }
    ensures tree { (T : Plain) → TakesStates table.old root due.old.items (vec_capacity due.old) (length states.now) T → HoldsTree table.new root result (with_states states.now T) }
    ensures live { AreLive table.old.nodes table.old.keys.items → AreLive table.new.nodes table.new.keys.items }
    ensures keys { table.new.keys ≡ table.old.keys }
    ensures empty { due.new.items ≡ [] }
    ensures room { vec_capacity due.new ≡ vec_capacity due.old }
{
    let mut next = 0;
    let mut opens = 0;
    due.push_reserved(Due { id: root, depth: 0 });
    while let Some(at) = due.pop() {
        match children_of(table, at.id) {
            Some((left, right)) => {
                due.push_reserved(Due {
                    id: right,
                    depth: 0,
                });
                due.push_reserved(Due { id: left, depth: 0 });
            }
            None => {
                let state = states[next];
                table.set_state(at.id, state);
                opens += is_open(state);
                next += 1;
            }
        }
    }
    opens
}

impl Tree {
    /// Gives the leaves these states, from left to right. States that are left over are of no account.
    pub fn set_states(&mut self, states: &[LeafState])
        requires { leaf_count self.old.root ≤ length states.now }
        ensures { self.new ≡ with_leaf_states self.old states.now }
    {
        let opens = give_states(&mut self.table, &mut self.lists.due, self.root, states);
        self.still_open = opens;
    }
}
