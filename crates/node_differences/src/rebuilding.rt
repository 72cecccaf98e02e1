// The nodes that nodes told by differences tell.
ghost use Rattle.std.specs.Prelude.{◌≡◌, ◌<◌, List as Items, length};
ghost use Rattle.branch_tree.specs.declared.node.NodeData.{NodeData as Node};
ghost use Rattle.node_differences.specs.Told.{node_lists, with_lists, rebuilt_lists};
ghost use Rattle.node_differences.specs.Answers.{AreLists, IsRebuilt, AreRebuiltInto};
ghost use Rattle.node_differences.specs.Above.{node_at_place, lists_at};
ghost use Rattle.node_differences.specs.private.Rebuilding.{Rebuilding, IsRebuiltAt};

use crate::above::{next_split, put_split, split_above};
use crate::multipliers::{ChangeFault, changed};
use crate::telling::{basis_of, differing_basis, mult_above, mult_of};
use branch_tree::NodeData;
use lp_model::{Basis, List, Mult};
use std::alloc::Global;
use std::mem;

/// Why nodes told by differences tell none.
#[derive(Clone, Copy, Drop)]
pub enum RebuildFault {
    /// The first node of which a change says nothing, and the place of its first such change.
    Idle { node: usize, change: usize },
    /// There is no memory.
    Memory,
}

/// The lists of the node at `place`, told by those of the split at `above`, which are there already.
fn lists_of(
    alloc: Global,
    nodes: &[NodeData],
    above: Option<usize>,
    place: usize,
) -> Result<(Mult, Basis), ChangeFault>
    requires { place < length nodes.now }
    ensures { AreLists (rebuilt_lists (lists_at nodes.now above) (node_lists (node_at_place nodes.now place))) result }
{
    let split = split_above(nodes, above);
    let node = &nodes[place];
    let mult = match changed(alloc, mult_above(split), mult_of(node).as_slice()) {
        Ok(mult) => mult,
        Err(fault) => return Err(fault),
    };
    match differing_basis(alloc, split, basis_of(node)) {
        Ok(basis) => Ok((mult, basis)),
        Err(_) => {
            drop(mult);
            Err(ChangeFault::Memory)
        }
    }
}

/// Gives a node other multipliers.
fn set_mult(node: &mut NodeData, new: Mult)
    ensures { node.new ≡ with_lists (record { mult = new; basis = (node_lists node.old).basis }) node.old }
{
    match node {
        NodeData::Split { mult, .. } => drop(mem::replace(mult, new)),
        NodeData::Leaf(kept) => drop(mem::replace(&mut kept.mult, new)),
    }
}

/// Gives a node another basis.
fn set_basis(node: &mut NodeData, new: Basis)
    ensures { node.new ≡ with_lists (record { mult = (node_lists node.old).mult; basis = new }) node.old }
{
    match node {
        NodeData::Split { basis, .. } => drop(mem::replace(basis, new)),
        NodeData::Leaf(kept) => drop(mem::replace(&mut kept.basis, new)),
    }
}

/// Gives a node other lists.
fn set_lists(node: &mut NodeData, lists: (Mult, Basis))
    ensures { node.new ≡ with_lists (record { mult = lists.0; basis = lists.1 }) node.old }
{
    let (mult, basis) = lists;
    set_mult(node, mult);
    set_basis(node, basis);
}

/// Gives the node at a place its lists.
fn rebuild_at(
    alloc: Global,
    nodes: &mut [NodeData],
    due: &mut Vec<usize>,
    place: usize,
) -> Result<(), RebuildFault>
    requires { place < length nodes.old }
    ensures { (was : Items Node) → Rebuilding was nodes.old due.old.items place → IsRebuiltAt was nodes.new due.new.items place result }
{
    let above = next_split(due);
    let lists = match lists_of(alloc, nodes, above, place) {
        Ok(lists) => lists,
        Err(ChangeFault::Idle(change)) => {
            return Err(RebuildFault::Idle {
                node: place,
                change,
            });
        }
        Err(ChangeFault::Memory) => return Err(RebuildFault::Memory),
    };
    set_lists(&mut nodes[place], lists);
    match put_split(due, &nodes[place], place) {
        Ok(()) => Ok(()),
        Err(_) => Err(RebuildFault::Memory),
    }
}

/// Gives each node its lists, from the first one on.
fn rebuild_all(alloc: Global, nodes: &mut [NodeData]) -> Result<(), RebuildFault>
    ensures { AreRebuiltInto nodes.old nodes.new result }
{
    let mut due = Vec::new(alloc);
    for place in 0..nodes.len() {
        match rebuild_at(alloc, nodes, &mut due, place) {
            Ok(()) => {}
            Err(fault) => return Err(fault),
        }
    }
    Ok(())
}

/// The nodes that these tell, each by the lists of the split above it; or the first node of which a change says nothing.
pub fn rebuild(alloc: Global, told: List<NodeData>) -> Result<List<NodeData>, RebuildFault>
    ensures { IsRebuilt told result }
{
    let mut nodes = told.into_vec();
    match rebuild_all(alloc, nodes.as_mut_slice()) {
        Ok(()) => Ok(List::from_vec(nodes)),
        Err(fault) => {
            drop(nodes);
            Err(fault)
        }
    }
}
