// Where the splits above the trees that are due stand among nodes in preorder.
ghost use Rattle.std.specs.Prelude.{◌≡◌, ◌<◌, ◌+◌, ℕ, List as Items, reverse, All, OnOk};
ghost use Rattle.std.specs.Option.{option_copied};
ghost use Rattle.branch_tree.specs.declared.node.NodeData.{NodeData as Node};
ghost use Rattle.node_differences.specs.Told.{node_lists, due_behind};
ghost use Rattle.node_differences.specs.Answers.{lists_above};
ghost use Rattle.node_differences.specs.Above.{node_at_place, lists_at, lists_due, next_lists, rest_lists};

use branch_tree::NodeData;
use std::alloc::AllocError;

/// The place of the split above the next tree, which is due no more; none where a tree begins anew.
pub fn next_split(due: &mut Vec<usize>) -> Option<usize>
    ensures next { (nodes : Items Node) → lists_at nodes result ≡ next_lists (lists_due nodes due.old.items) }
    ensures rest { (nodes : Items Node) → lists_due nodes due.new.items ≡ rest_lists (lists_due nodes due.old.items) }
    ensures kept { (place : ℕ) → All (λ k. k < place) (reverse due.old.items) → All (λ k. k < place) (reverse due.new.items) }
{
    due.pop()
}

/// The split at a place among the nodes; none where there is no such place.
pub fn split_above<'a>(nodes: &'a [NodeData], above: Option<usize>) -> Option<&'a NodeData>
    ensures { lists_above (option_copied result) ≡ lists_at nodes.now above }
{
    match above {
        Some(place) => nodes.get(place),
        None => None,
    }
}

/// The trees below the node at a place are due: two of a split, none of a leaf.
pub fn put_split(due: &mut Vec<usize>, node: &NodeData, place: usize) -> Result<(), AllocError>
    ensures lists { OnOk result ((nodes : Items Node) → node_at_place nodes place ≡ node.now → lists_due nodes due.new.items ≡ due_behind (node_lists node.now) (lists_due nodes due.old.items) node.now) }
    ensures kept { OnOk result (All (λ k. k < place) (reverse due.old.items) → All (λ k. k < place + 1) (reverse due.new.items)) }
{
    match node {
        NodeData::Split { .. } => {
            due.push(place)?;
            due.push(place)?;
            Ok(())
        }
        NodeData::Leaf(_) => Ok(()),
    }
}
