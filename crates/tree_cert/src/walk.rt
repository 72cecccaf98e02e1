// The walk through the nodes of a tree, with one trail: the path to the node, and beside it the region by its tightest changes
// alone, which a leaf is judged by.
ghost use Rattle.std.specs.Prelude.{◌≡◌, suc, ◌<◌, ◌++◌, ◌∷◌, [], length, IfOk};
ghost use Rattle.lp_model.specs.Regions.{Path, AreNarrow};
ghost use Rattle.lp_model.specs.Formulations.{formulation};
ghost use Rattle.tight_regions.specs.Tight.{IsTrail, path_of_trail};
ghost use Rattle.tight_regions.specs.SameBounds.{SameBounds};
ghost use Rattle.leaf_dual.specs.Dual.{HavePlaces};
ghost use Rattle.cert_check.specs.Walk.{after_leaf};
ghost use Rattle.tree_cert.specs.private.Walked.{path_after, IsNodeOf, AreNodesOf, IsFit, AreFit, HasTurns};

use crate::leaf::leaf_node;
use crate::names::column_name;
use branch_tree::Node;
use cert_check::second_child;
use cert_text::CertNode;
use lp_model::{BoundChange, CutRow, List, Model, Side};
use std::alloc::{AllocError, Global};
use tight_regions::Trail;

/// From the path to a leaf to that of the node behind it. The change to a second child takes the place of the first's, so no
/// memory is taken.
fn turn(trail: &mut Trail)
    requires trail { IsTrail trail.old }
    requires turns { HasTurns (path_of_trail trail.old) }
    ensures trail { IsTrail trail.new }
    ensures path { path_of_trail trail.new ≡ after_leaf (path_of_trail trail.old) }
{
    while trail.depth() > 0 {
        let last = trail.pop();
        match last.side {
            Side::Lo => {}
            Side::Hi => {
                trail.push(second_child(&last));
                return;
            }
        }
    }
}

/// From the path to a node to that of the node behind it.
fn step_on(trail: &mut Trail, node: &Node) -> Result<(), AllocError>
    requires trail { IsTrail trail.old }
    requires turns { HasTurns (path_of_trail trail.old) }
    ensures trail { IfOk result (λ _. IsTrail trail.new) }
    ensures path { IfOk result (λ _. path_of_trail trail.new ≡ path_after (path_of_trail trail.old) node.now) }
{
    match node {
        Node::Split { col, v, .. } => {
            trail.grow()?;
            trail.push(BoundChange::at_most(*col, *v));
            Ok(())
        }
        Node::Leaf { .. } => {
            turn(trail);
            Ok(())
        }
    }
}

/// The certificate's node for a node of this region, which is that of each path with the region's bounds. It names the cuts
/// that count by their places, from 1.
fn cert_node(
    alloc: Global,
    model: &Model,
    cuts: &[CutRow],
    region: &[BoundChange],
    node: &Node,
) -> Result<CertNode, AllocError>
    requires narrow { AreNarrow region.now }
    requires places { HavePlaces cuts.now }
    requires fit { IsFit (formulation model.now cuts.now) node.now }
    ensures { IfOk result (λ c. (path : Path) → SameBounds region.now path → IsNodeOf (formulation model.now cuts.now) suc path node.now c) }
{
    match node {
        Node::Split { col, v, .. } => match column_name(alloc, model, *col) {
            Ok(name) => Ok(CertNode::Split { col: name, v: *v }),
            Err(error) => Err(error),
        },
        Node::Leaf { kept, .. } => leaf_node(alloc, model, cuts, region, kept),
    }
}

/// The certificate's nodes for the nodes of a tree in preorder. They name the cuts that count by their places, from 1.
pub(crate) fn cert_nodes(
    alloc: Global,
    model: &Model,
    cuts: &[CutRow],
    nodes: &[Node],
) -> Result<List<CertNode>, AllocError>
    requires places { HavePlaces cuts.now }
    requires fit { AreFit (formulation model.now cuts.now) nodes.now }
    ensures { IfOk result (λ certs. AreNodesOf (formulation model.now cuts.now) suc [] nodes.now certs) }
{
    let mut trail = Trail::new(alloc, 0)?;
    let mut certs = List::new(alloc);
    for node in nodes {
        let Ok(cert) = cert_node(alloc, model, cuts, trail.region(), node) else {
            return Err(AllocError);
        };
        let Ok(()) = certs.push(cert) else {
            return Err(AllocError);
        };
        let Ok(()) = step_on(&mut trail, node) else {
            return Err(AllocError);
        };
    }
    Ok(certs)
}
