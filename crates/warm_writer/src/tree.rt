// The JSON value of a tree, a node at a time in preorder.
ghost use Rattle.std.specs.Prelude.{◌≡◌, ◌<◌, length, IfOk, OnOk};
ghost use Rattle.serde_json.specs.View.{view};
ghost use Rattle.node_differences.specs.Told.{node_lists, due_behind};
ghost use Rattle.node_differences.specs.Above.{node_at_place, lists_due, next_lists, rest_lists};
ghost use Rattle.warm_writer.specs.Written.{told_json, tree_json};

use crate::nodes::told_node;
use branch_tree::NodeData;
use lp_model::List;
use node_differences::{next_split, put_split, split_above};
use serde_json::Value;
use std::alloc::{AllocError, Global};

/// The value of the node at a place, told by the split that is next of those above the trees that are due.
fn value_at(
    alloc: Global,
    due: &mut Vec<usize>,
    nodes: &[NodeData],
    place: usize,
) -> Result<Value, AllocError>
    requires { place < length nodes.now }
    ensures value { IfOk result (λ v. view v ≡ told_json (next_lists (lists_due nodes.now due.old.items)) (node_at_place nodes.now place)) }
    ensures due { OnOk result (lists_due nodes.now due.new.items ≡ due_behind (node_lists (node_at_place nodes.now place)) (rest_lists (lists_due nodes.now due.old.items)) (node_at_place nodes.now place)) }
{
    let split = next_split(due);
    let above = split_above(nodes, split);
    let node = &nodes[place];
    let value = match told_node(alloc, above, node) {
        Ok(value) => value,
        Err(error) => return Err(error),
    };
    match put_split(due, node, place) {
        Ok(()) => Ok(value),
        Err(error) => {
            drop(value);
            Err(error)
        }
    }
}

/// The nodes of a tree in preorder, each told by the lists of the split above it.
pub(crate) fn tree(alloc: Global, nodes: &[NodeData]) -> Result<Value, AllocError>
    ensures { IfOk result (λ v. view v ≡ tree_json nodes.now) }
{
    let mut due = Vec::new(alloc);
    let mut values = List::new(alloc);
    for place in 0..nodes.len() {
        let value = match value_at(alloc, &mut due, nodes, place) {
            Ok(value) => value,
            Err(error) => {
                drop(values);
                return Err(error);
            }
        };
        match values.push(value) {
            Ok(()) => {}
            Err(error) => {
                drop(values);
                return Err(error);
            }
        }
    }
    Ok(Value::Array(values.into_vec()))
}
