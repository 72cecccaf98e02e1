// A tree made of its nodes in preorder. They are gone over twice, each time in a loop: from the last one on, since where a split's
// right child begins is known once its left child's nodes are counted, and then from the first one on, since ids rise.
ghost use Rattle.std.specs.Prelude.{◌≡◌, ◌≤◌, ◌^◌, ◌++◌, ◌∷◌, [], length, reverse, All, IfOk};
ghost use Rattle.branch_tree.specs.Preorder.{DataTree, data_nodes, IsOneTree, numbered_tree, HasNodeBound};
ghost use Rattle.branch_tree.specs.private.Rebuilt.{right_of, roots_left, planned_of, built_node, ways_behind, one_if_open_leaf, IsEmptyFor, ArePlanned, IsBuilt};

use crate::lists::Lists;
use crate::node::NodeData;
use crate::stored::{NodeKind, SplitNode, TreeNode, Up, is_open};
use crate::table::NodeTable;
use crate::tree::Tree;
use lp_model::{BoundChange, List};
use std::alloc::{AllocError, Global};

/// No memory holds more nodes than these, 2^62, and with so few an id is left for each split.
const MOST_NODES: usize = 4_611_686_018_427_387_904;

/// A node that has no id yet, beside the id of its right child, which is 0 at a leaf.
#[derive(Drop)]
pub(crate) struct Planned {
    pub right: u64,
    pub node: NodeData,
}

/// Takes the roots of a node's children off the list, and answers the id of the right one.
fn take_children(node: &NodeData, roots: &mut Vec<u64>) -> u64
    ensures right { result ≡ right_of node.now (reverse roots.old.items) }
    ensures left { reverse roots.new.items ≡ roots_left node.now (reverse roots.old.items) }
{
    match node {
        NodeData::Split { .. } => {
            let _ = roots.pop();
            match roots.pop() {
                Some(right) => right,
                None => 0,
            }
        }
        NodeData::Leaf(_) => 0,
    }
}

/// Puts a node behind the others.
fn put_planned(planned: &mut Vec<Planned>, node: Planned) -> Result<(), AllocError>
    ensures { IfOk result (λ _. planned.new.items ≡ planned.old.items ++ node ∷ []) }
{
    match planned.push(node) {
        Ok(()) => Ok(()),
        Err(failed) => Err(failed.into()),
    }
}

/// The nodes, each beside the id of its right child, the last one first.
fn planned_of(alloc: Global, nodes: Vec<NodeData>) -> Result<Vec<Planned>, AllocError>
    requires { length nodes.items ≤ 2 ^ 62 }
    ensures { IfOk result (λ planned. reverse planned.items ≡ planned_of 1 nodes.items) }
{
    let mut rest = nodes;
    let mut roots = Vec::new(alloc);
    let mut planned = Vec::new(alloc);
    while let Some(node) = rest.pop() {
        let right = take_children(&node, &mut roots);
        let Ok(()) = roots.push(rest.len() as u64 + 1) else {
            drop(node);
            drop(rest);
            drop(planned);
            return Err(AllocError);
        };
        let Ok(()) = put_planned(&mut planned, Planned { right, node }) else {
            drop(rest);
            drop(planned);
            return Err(AllocError);
        };
    }
    Ok(planned)
}

/// One where the node is an open leaf.
fn is_open_leaf(node: &NodeData) -> u64
    ensures { result ≡ one_if_open_leaf node.now }
{
    match node {
        NodeData::Split { .. } => 0,
        NodeData::Leaf(kept) => is_open(kept.state),
    }
}

/// Puts the ways to the children of the node with the id behind those that are due, that to the left one last.
fn put_ways(id: u64, node: &NodeData, ways: &mut Vec<Option<Up>>) -> Result<(), AllocError>
    requires { HasNodeBound node.now }
    ensures { IfOk result (λ _. ways.new.items ≡ ways_behind id node.now ways.old.items) }
{
    match node {
        NodeData::Split { col, v, .. } => {
            ways.push(Some(Up::to(id, BoundChange::at_least(*col, *v + 1))))?;
            ways.push(Some(Up::to(id, BoundChange::at_most(*col, *v))))?;
            Ok(())
        }
        NodeData::Leaf(_) => Ok(()),
    }
}

/// The node with the id and the way to it. The nodes of a split's left child begin behind it.
fn built_node(id: u64, up: Option<Up>, planned: Planned) -> TreeNode
    requires { id ≤ 2 ^ 62 }
    ensures { result ≡ built_node id up planned }
{
    let right = planned.right;
    let kind = match planned.node {
        NodeData::Split {
            col,
            v,
            mult,
            basis,
        } => NodeKind::Split(SplitNode {
            col,
            v,
            mult,
            basis,
            left: id + 1,
            right,
        }),
        NodeData::Leaf(kept) => NodeKind::Leaf(kept),
    };
    TreeNode { id, up, kind }
}

/// Puts the nodes into the table, from the first one on, and answers how many leaves are open.
fn build(alloc: Global, table: &mut NodeTable, planned: Vec<Planned>) -> Result<u64, AllocError>
    requires { (t : DataTree) × ArePlanned table.old planned.items t }
    ensures { IfOk result (λ opens. (t : DataTree) → ArePlanned table.old planned.items t → IsBuilt table.new opens t) }
{
    let mut rest = planned;
    let mut ways = Vec::new(alloc);
    let Ok(()) = ways.push(None) else {
        drop(rest);
        return Err(AllocError);
    };
    let mut id = 1;
    let mut opens = 0;
    while let Some(next) = rest.pop() {
        let Some(up) = ways.pop() else { unreachable!() };
        let Ok(()) = put_ways(id, &next.node, &mut ways) else {
            drop(next);
            drop(rest);
            return Err(AllocError);
        };
        opens += is_open_leaf(&next.node);
        table.insert(built_node(id, up, next));
        id += 1;
    }
    Ok(opens)
}

/// A table without nodes, with room for so many and for the ids of their collapses.
fn empty_table(alloc: Global, count: usize) -> Result<NodeTable, AllocError>
    requires { count ≤ 2 ^ 62 }
    ensures { IfOk result (λ table. IsEmptyFor table count) }
{
    let mut table = NodeTable::new(alloc);
    match table.reserve(count, count + count / 2) {
        Ok(()) => Ok(table),
        Err(error) => Err(error),
    }
}

impl Tree {
    /// The tree whose nodes in preorder these are. Their ids are 1, 2 and so on in that order, and a split keeps within `limit`
    /// nodes.
    pub fn from_preorder(
        alloc: Global,
        limit: u64,
        nodes: List<NodeData>,
    ) -> Result<Tree, AllocError>
        requires whole { IsOneTree nodes }
        requires bounds { All HasNodeBound nodes }
        ensures { IfOk result (λ tree. (t : DataTree) → data_nodes t ≡ nodes → tree ≡ numbered_tree limit t) }
    {
        let nodes = nodes.into_vec();
        let count = nodes.len();
        if count > MOST_NODES {
            return Err(AllocError);
        }
        let mut lists = Lists::new(alloc);
        let Ok(()) = lists.reserve(count) else {
            return Err(AllocError);
        };
        let Ok(mut table) = empty_table(alloc, count) else {
            return Err(AllocError);
        };
        let Ok(planned) = planned_of(alloc, nodes) else {
            return Err(AllocError);
        };
        let Ok(still_open) = build(alloc, &mut table, planned) else {
            return Err(AllocError);
        };
        Ok(Tree {
            table,
            root: 1,
            last: count as u64,
            count: count as u64,
            still_open,
            limit,
            lists,
            alloc,
        })
    }
}
