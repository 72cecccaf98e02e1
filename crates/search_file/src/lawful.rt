// The nodes of a tree whose splits are on integer columns.
ghost use Rattle.std.specs.Prelude.{◌≡◌, ◌+◌, ◌<◌, ◌^◌, IfOk};
ghost use Rattle.branch_tree.specs.Plain.{open_data};
ghost use Rattle.branch_tree.specs.declared.node.NodeData.TheVariants.{Leaf};
ghost use Rattle.search_file.specs.private.Lawful.{is_lawful_node, merged_node, trees_out, lawful_behind, PutsLawfulNode};

use branch_tree::{LeafData, LeafState, NodeData, copy_lists};
use lp_model::{Basis, List, Model, Mult};
use std::alloc::{AllocError, Global};

/// Whether the node is a leaf, or a split on an integer column.
fn is_lawful(model: &Model, node: &NodeData) -> bool
    ensures { result ≡ is_lawful_node model.now node.now }
{
    match node {
        NodeData::Split { col, .. } => model.is_integer(col.0 as usize),
        NodeData::Leaf(_) => true,
    }
}

/// Equal data of a leaf.
fn leaf_copy(alloc: Global, kept: &LeafData) -> Result<NodeData, AllocError>
    ensures { IfOk result (λ n. n ≡ Leaf kept.now) }
{
    let Ok(farkas) = kept.farkas.copy(alloc) else {
        return Err(AllocError);
    };
    let Ok((mult, basis)) = copy_lists(alloc, &kept.mult, &kept.basis) else {
        drop(farkas);
        return Err(AllocError);
    };
    Ok(NodeData::Leaf(LeafData {
        state: kept.state,
        mult,
        farkas,
        basis,
    }))
}

/// An equal node.
fn node_copy(alloc: Global, node: &NodeData) -> Result<NodeData, AllocError>
    ensures { IfOk result (λ n. n ≡ node.now) }
{
    match node {
        NodeData::Split {
            col,
            v,
            mult,
            basis,
        } => match copy_lists(alloc, mult, basis) {
            Ok((mult, basis)) => Ok(NodeData::Split {
                col: *col,
                v: *v,
                mult,
                basis,
            }),
            Err(error) => Err(error),
        },
        NodeData::Leaf(kept) => leaf_copy(alloc, kept),
    }
}

/// An open leaf with copies of these multipliers and this basis.
fn open_leaf(alloc: Global, mult: &Mult, basis: &Basis) -> Result<NodeData, AllocError>
    ensures { IfOk result (λ n. n ≡ Leaf (open_data mult.now basis.now)) }
{
    let Ok((mult, basis)) = copy_lists(alloc, mult, basis) else {
        return Err(AllocError);
    };
    Ok(NodeData::Leaf(LeafData {
        state: LeafState::IsOpen,
        mult,
        farkas: List::new(alloc),
        basis,
    }))
}

/// The open leaf of a split.
fn merged(alloc: Global, node: &NodeData) -> Result<NodeData, AllocError>
    ensures { IfOk result (λ n. n ≡ merged_node node.now) }
{
    match node {
        NodeData::Split { mult, basis, .. } => open_leaf(alloc, mult, basis),
        NodeData::Leaf(kept) => leaf_copy(alloc, kept),
    }
}

/// How many whole trees go behind a node that goes, where so many go with it.
fn trees_out(out: u128, node: &NodeData) -> u128
    requires some { 0 < out }
    requires room { out + 1 < 2 ^ 128 }
    ensures { result ≡ trees_out out node.now }
{
    match node {
        NodeData::Split { .. } => out + 1,
        NodeData::Leaf(_) => out - 1,
    }
}

/// Puts a node behind those that stay, or the open leaf of a split that is not lawful, and answers how many whole trees behind it
/// go.
fn put(
    alloc: Global,
    model: &Model,
    node: &NodeData,
    kept: &mut List<NodeData>,
) -> Result<u128, AllocError>
    ensures { IfOk result (λ out. PutsLawfulNode model.now node.now kept.old out kept.new) }
{
    if is_lawful(model, node) {
        let Ok(copy) = node_copy(alloc, node) else {
            return Err(AllocError);
        };
        let Ok(()) = kept.push(copy) else {
            return Err(AllocError);
        };
        return Ok(0);
    }
    let Ok(leaf) = merged(alloc, node) else {
        return Err(AllocError);
    };
    let Ok(()) = kept.push(leaf) else {
        return Err(AllocError);
    };
    Ok(2)
}

/// Copies of the nodes of a tree, of which each split that is not on an integer column is one open leaf.
pub(crate) fn lawful_nodes(
    alloc: Global,
    model: &Model,
    nodes: &[NodeData],
) -> Result<List<NodeData>, AllocError>
    ensures { IfOk result (λ kept. kept ≡ lawful_behind model.now 0 nodes.now) }
{
    let mut kept = List::new(alloc);
    let mut out: u128 = 0;
    for node in nodes {
        if out == 0 {
            let Ok(gone) = put(alloc, model, node, &mut kept) else {
                drop(kept);
                return Err(AllocError);
            };
            out = gone;
        } else {
            out = trees_out(out, node);
        }
    }
    Ok(kept)
}
