// The walk through a certificate's nodes.
ghost use Rattle.std.specs.Prelude.{◌≡◌, ◌↔◌, ◌<◌, ◌≤◌, ◌+◌, ◌+ℤ◌, pos, length, All, IsTrue, IfOk, Ok, ℕ, List as Items};
ghost use Rattle.frac128.specs.Range.{IsNarrow};
ghost use Rattle.lp_model.specs.Program.{HasWholeObjective};
ghost use Rattle.lp_model.specs.Regions.{AreNarrow, at_least};
ghost use Rattle.lp_model.specs.Formulations.{formulation};
ghost use Rattle.leaf_dual.specs.Dual.{HavePlaces};
ghost use Rattle.cert_check.specs.Walk.{IsPlace, AreNodesPlaced, IsBufferOf, after_leaf, IsNodesVerdict, IsPointOf};
ghost use Rattle.cert_check.specs.private.Walk.{IsPlacedJudged, CanTurn, after_node, IsWalked, has_tree};
ghost use Rattle.tight_regions.specs.Tight.{IsTrail, path_of_trail, depth_of, room};
ghost use Rattle.cert_check.specs.Verdict.{WhereThere, IsPointJudged, IsFeasibleJudged, IsDirectionJudged, IsClaimJudged, IsHeadJudged, IsVerdict};
ghost use Rattle.cert_check.specs.Trees.{IsTreeVerdict};
ghost use Rattle.cert_check.specs.Cuts.{AreCutsFound};
ghost use Rattle.lp_model.specs.Lawful.{column_names};
ghost use Rattle.cert_check.specs.Accepted.{AreNames, point_of};
ghost use Rattle.cert_text.specs.Whole.{IsCertificate, AreOneTree, IsNarrowNode};
ghost use Rattle.lp_model.specs.Edits.{Named};
ghost use Rattle.cert_text.specs.Tree.{CertTree};
ghost use Rattle.cert_text.specs.declared.cert.CertNode.{CertNode};
ghost use Rattle.cert_text.specs.declared.cert.NamedCut.{NamedCut};
ghost use Rattle.cert_text.specs.declared.cert.Claim.TheVariants.{Within, Unbounded};

use crate::cuts::{CutRows, cut_rows, cuts_judgement, standing_rows};
use crate::judging::{
    NodeWithPlaces, is_whole, judge_difference, judge_empty, judge_farkas, judge_feasible,
    judge_number, judge_point, judge_ray, judge_split,
};
use crate::mults::multipliers;
use crate::names::{column_place, point};
use crate::verdict::{Judgement, Verdict};
use cert_text::{Cert, CertNode, Claim};
use frac128::Frac;
use lp_model::{BoundChange, CutRow, Model, Point, Side};
use std::alloc::{AllocError, Global};
use tight_regions::Trail;

/// The most cuts of a certificate: the place of a cut has 32 bits.
const MOST_CUTS: usize = 4_294_967_296;

/// What the judging of a certificate works in: its nodes, its point and its ray with the names as places, the rows of its
/// cuts, and room for the path to a node and the region's changes.
#[derive(Drop)]
pub struct RegionBuf {
    pub(crate) nodes: Vec<NodeWithPlaces>,
    pub(crate) trail: Trail,
    pub(crate) point: Option<Point>,
    pub(crate) ray: Option<Point>,
    pub(crate) cuts: CutRows,
}

/// A node with its names and the numbers of some cuts as places.
fn node_with_places(
    alloc: Global,
    model: &Model,
    cuts: usize,
    node: &CertNode,
) -> Result<NodeWithPlaces, AllocError>
    requires { cuts ≤ 4294967296 }
    ensures { IfOk result (λ placed. IsPlace model.now cuts node.now placed) }
{
    match node {
        CertNode::Split { col, v } => match column_place(model, col) {
            Some(col) => Ok(NodeWithPlaces::Split { col, v: *v }),
            None => Ok(NodeWithPlaces::Misnamed),
        },
        CertNode::Bound(mults) => match multipliers(alloc, model, cuts, mults.as_slice()) {
            Ok(Some(mult)) => Ok(NodeWithPlaces::Bound(mult)),
            Ok(None) => Ok(NodeWithPlaces::Misnamed),
            Err(error) => Err(error),
        },
        CertNode::Farkas(mults) => match multipliers(alloc, model, cuts, mults.as_slice()) {
            Ok(Some(mult)) => Ok(NodeWithPlaces::Farkas(mult)),
            Ok(None) => Ok(NodeWithPlaces::Misnamed),
            Err(error) => Err(error),
        },
        CertNode::Empty => Ok(NodeWithPlaces::Empty),
    }
}

/// The nodes with their names and the numbers of some cuts as places.
fn placed_nodes(
    alloc: Global,
    model: &Model,
    cuts: usize,
    nodes: &[CertNode],
) -> Result<Vec<NodeWithPlaces>, AllocError>
    requires { cuts ≤ 4294967296 }
    ensures { IfOk result (λ all. AreNodesPlaced model.now cuts nodes.now all.items) }
{
    let mut all = Vec::new(alloc);
    for node in nodes {
        let Ok(one) = node_with_places(alloc, model, cuts, node) else {
            drop(all);
            return Err(AllocError);
        };
        let Ok(()) = all.push(one) else {
            drop(all);
            return Err(AllocError);
        };
    }
    Ok(all)
}

/// The buffer with these parts, where there was memory for each.
fn buffer_of(
    cuts: Result<CutRows, AllocError>,
    nodes: Result<Vec<NodeWithPlaces>, AllocError>,
    trail: Result<Trail, AllocError>,
    point: Result<Option<Point>, AllocError>,
    ray: Result<Option<Point>, AllocError>,
) -> Result<RegionBuf, AllocError>
    ensures { IfOk result (λ buf. (cuts ≡ Ok buf.cuts) × (nodes ≡ Ok buf.nodes) × (trail ≡ Ok buf.trail) × (point ≡ Ok buf.point) × (ray ≡ Ok buf.ray)) }
{
    let Ok(cuts) = cuts else {
        drop(nodes);
        drop(trail);
        drop(point);
        drop(ray);
        return Err(AllocError);
    };
    let Ok(nodes) = nodes else {
        drop(cuts);
        drop(trail);
        drop(point);
        drop(ray);
        return Err(AllocError);
    };
    let Ok(trail) = trail else {
        drop(cuts);
        drop(nodes);
        drop(point);
        drop(ray);
        return Err(AllocError);
    };
    let Ok(point) = point else {
        drop(cuts);
        drop(nodes);
        drop(trail);
        drop(ray);
        return Err(AllocError);
    };
    let Ok(ray) = ray else {
        drop(cuts);
        drop(nodes);
        drop(trail);
        drop(point);
        return Err(AllocError);
    };
    Ok(RegionBuf {
        nodes,
        trail,
        point,
        ray,
        cuts,
    })
}

impl RegionBuf {
    /// The buffer for a model and a certificate: the names are looked up, and the cuts are judged. Memory is linear in the
    /// certificate.
    pub fn new(alloc: Global, model: &Model, cert: &Cert) -> Result<RegionBuf, AllocError>
        ensures { IfOk result (λ buf. IsBufferOf model.now cert.now buf) }
    {
        let named = cert.cuts.as_slice();
        let stated = cert.nodes.as_slice();
        let count = named.len();
        // so many rows would take more memory than a machine has
        if count > MOST_CUTS {
            return Err(AllocError);
        }
        let cuts = cut_rows(alloc, model, named);
        let nodes = placed_nodes(alloc, model, count, stated);
        let trail = Trail::new(alloc, stated.len());
        let found = point(alloc, model, cert.point.as_slice());
        let ray = point(alloc, model, cert.ray.as_slice());
        buffer_of(cuts, nodes, trail, found, ray)
    }
}

/// One node, by the changes of a path to it or others that leave the same bounds.
fn judge(
    model: &Model,
    cuts: &[CutRow],
    claim: &Claim,
    whole: bool,
    path: &[BoundChange],
    node: &NodeWithPlaces,
) -> Judgement
    requires narrow { AreNarrow path.now }
    requires places { HavePlaces cuts.now }
    requires whole { IsTrue whole ↔ HasWholeObjective model.now 1 }
    requires placed { (n : CertNode) × IsPlace model.now (length cuts.now) n node.now }
    ensures { IsPlacedJudged (formulation model.now cuts.now) claim.now path.now node.now result }
{
    match node {
        NodeWithPlaces::Misnamed => Judgement::Breaks(1),
        NodeWithPlaces::Split { col, .. } => judge_split(model, *col),
        NodeWithPlaces::Bound(mult) => {
            judge_number(model, cuts, claim, whole, path, mult.as_slice())
        }
        NodeWithPlaces::Farkas(mult) => judge_farkas(model, cuts, path, mult.as_slice()),
        NodeWithPlaces::Empty => judge_empty(model, path),
    }
}

/// The change to the second child of a split, whose first child is that of the change.
pub fn second_child(first: &BoundChange) -> BoundChange
    requires { IsNarrow (first.now.v +ℤ pos 1) }
    ensures { result ≡ at_least first.now.col.0 (first.now.v +ℤ pos 1) }
{
    BoundChange::at_least(first.col, first.v + 1)
}

/// From a leaf's path to that of the node behind it.
fn turn(trail: &mut Trail)
    requires trail { IsTrail trail.old }
    requires turns { All CanTurn (path_of_trail trail.old) }
    ensures trail { IsTrail trail.new }
    ensures path { path_of_trail trail.new ≡ after_leaf (path_of_trail trail.old) }
    ensures within { depth_of trail.new ≤ depth_of trail.old }
    ensures room { room trail.new ≡ room trail.old }
{
    while trail.depth() > 0 {
        let last = trail.pop();
        match last.side {
            Side::Lo => {}
            Side::Hi => {
                trail.push(second_child(&last));
                return;
            }
        }
    }
}

/// From a node's path to that of the node behind it.
fn step_on(trail: &mut Trail, node: &NodeWithPlaces)
    requires trail { IsTrail trail.old }
    requires room { depth_of trail.old < room trail.old }
    requires turns { All CanTurn (path_of_trail trail.old) }
    ensures trail { IsTrail trail.new }
    ensures path { path_of_trail trail.new ≡ after_node node.now (path_of_trail trail.old) }
    ensures within { depth_of trail.new ≤ depth_of trail.old + 1 }
    ensures room { room trail.new ≡ room trail.old }
{
    match node {
        NodeWithPlaces::Split { col, v } => trail.push(BoundChange {
            col: *col,
            side: Side::Hi,
            v: *v,
        }),
        _ => turn(trail),
    }
}

/// The nodes in order, each judged by the region of its path.
fn check_nodes(
    model: &Model,
    cuts: &[CutRow],
    claim: &Claim,
    nodes: &[NodeWithPlaces],
    trail: &mut Trail,
) -> Verdict
    requires trail { IsTrail trail.old }
    requires room { length nodes.now ≤ room trail.old }
    requires places { HavePlaces cuts.now }
    requires tree { (tree : CertTree) × IsWalked (formulation model.now cuts.now) tree nodes.now }
    ensures verdict { (tree : CertTree) → IsWalked (formulation model.now cuts.now) tree nodes.now → IsNodesVerdict (formulation model.now cuts.now) claim.now tree result }
    ensures trail { IsTrail trail.new }
    ensures room { room trail.new ≡ room trail.old }
{
    let whole = is_whole(model);
    trail.restart();
    for index in 0..nodes.len() {
        let node = &nodes[index];
        match judge(model, cuts, claim, whole, trail.region(), node) {
            Judgement::Passes => step_on(trail, node),
            Judgement::Breaks(why) => {
                return Verdict::Rejected {
                    node: index as u64 + 1,
                    why,
                };
            }
            Judgement::NoRoom(step) => {
                return Verdict::Wide {
                    node: index as u64 + 1,
                    step,
                };
            }
        }
    }
    Verdict::Accepted(*claim)
}

/// Whether the nodes of a tree that stands by itself close against the claim, by the rows of the model and of cuts: the first node
/// that does not hold, or has a step of arithmetic without room. Memory is linear in the nodes.
pub fn check_tree(
    alloc: Global,
    model: &Model,
    cuts: &[CutRow],
    claim: &Claim,
    nodes: &[CertNode],
) -> Result<Verdict, AllocError>
    requires places { HavePlaces cuts.now }
    requires tree { AreOneTree nodes.now }
    requires narrow { All IsNarrowNode nodes.now }
    ensures { IfOk result (IsTreeVerdict (formulation model.now cuts.now) claim.now nodes.now) }
{
    let placed = match placed_nodes(alloc, model, cuts.len(), nodes) {
        Ok(placed) => placed,
        Err(error) => return Err(error),
    };
    match Trail::new(alloc, nodes.len()) {
        Ok(mut trail) => Ok(check_nodes(model, cuts, claim, &placed, &mut trail)),
        Err(error) => {
            drop(placed);
            Err(error)
        }
    }
}

/// A point that is claimed to be feasible.
fn check_feasible(model: &Model, point: &Option<Point>) -> Judgement
    ensures { (named : Named) → IsPointOf model.now named point.now → WhereThere (AreNames (column_names model.now) named) (IsFeasibleJudged model.now (point_of model.now named)) result }
{
    match point {
        None => Judgement::Breaks(1),
        Some(point) => judge_feasible(model, point),
    }
}

/// A direction that is claimed to be a ray.
fn check_ray(model: &Model, ray: &Option<Point>) -> Judgement
    ensures { (named : Named) → IsPointOf model.now named ray.now → WhereThere (AreNames (column_names model.now) named) (IsDirectionJudged model.now (point_of model.now named)) result }
{
    match ray {
        None => Judgement::Breaks(1),
        Some(direction) => judge_ray(model, direction),
    }
}

/// The point and the ray of a model that is claimed unbounded. The ray is judged where the point passes.
fn check_unbounded(model: &Model, point: &Option<Point>, ray: &Option<Point>) -> Judgement
    ensures { (p r : Named) → IsPointOf model.now p point.now → IsPointOf model.now r ray.now → IsClaimJudged model.now Unbounded p r result }
{
    match check_feasible(model, point) {
        Judgement::Passes => check_ray(model, ray),
        Judgement::Breaks(why) => Judgement::Breaks(why),
        Judgement::NoRoom(step) => Judgement::NoRoom(step),
    }
}

/// A point that is claimed to have this value.
fn check_value(model: &Model, value: &Frac, point: &Option<Point>) -> Judgement
    ensures { (named : Named) → IsPointOf model.now named point.now → WhereThere (AreNames (column_names model.now) named) (IsPointJudged model.now value.now (point_of model.now named)) result }
{
    match point {
        None => Judgement::Breaks(1),
        Some(point) => judge_point(model, value, point),
    }
}

/// A point that is claimed to have this value, and the difference of the value and a gap, which is judged where the point passes.
fn check_within(model: &Model, value: &Frac, gap: &Frac, point: &Option<Point>) -> Judgement
    ensures { (p r : Named) → IsPointOf model.now p point.now → IsClaimJudged model.now (Within gap.now value.now) p r result }
{
    match check_value(model, value, point) {
        Judgement::Passes => judge_difference(model, value, gap),
        Judgement::Breaks(why) => Judgement::Breaks(why),
        Judgement::NoRoom(step) => Judgement::NoRoom(step),
    }
}

/// The point and the ray of the claim, as it has them, and the difference of a value and a gap.
fn check_claim(
    model: &Model,
    claim: &Claim,
    point: &Option<Point>,
    ray: &Option<Point>,
) -> Judgement
    ensures { (p r : Named) → IsPointOf model.now p point.now → IsPointOf model.now r ray.now → IsClaimJudged model.now claim.now p r result }
{
    match claim {
        Claim::Infeasible => Judgement::Passes,
        Claim::Unbounded => check_unbounded(model, point, ray),
        Claim::Optimal(value) => check_value(model, value, point),
        Claim::Within { gap, value } => check_within(model, value, gap, point),
    }
}

/// The point, the ray and the cuts. The cuts were judged before; what was found of them counts where the point and the ray
/// pass.
fn check_head(
    model: &Model,
    claim: &Claim,
    point: &Option<Point>,
    ray: &Option<Point>,
    cuts: &CutRows,
) -> Judgement
    ensures { (p r : Named) (named : Items NamedCut) → IsPointOf model.now p point.now → IsPointOf model.now r ray.now → AreCutsFound model.now named cuts.now → IsHeadJudged model.now claim.now p r named result }
{
    match check_claim(model, claim, point, ray) {
        Judgement::Passes => cuts_judgement(cuts),
        Judgement::Breaks(why) => Judgement::Breaks(why),
        Judgement::NoRoom(step) => Judgement::NoRoom(step),
    }
}

/// Whether the claim is proved by a tree.
fn has_tree(claim: &Claim) -> bool
    ensures { result ≡ has_tree claim.now }
{
    match claim {
        Claim::Optimal(_) => true,
        Claim::Within { .. } => true,
        Claim::Infeasible => true,
        Claim::Unbounded => false,
    }
}

/// Whether the certificate is accepted for the model: the first node that does not hold, or has a step of arithmetic
/// without room, in the order of the text, its point, its ray and its cuts before all. No memory is taken, and a deep tree
/// takes no more of the stack than a flat one.
pub fn check(model: &Model, cert: &Cert, buf: &mut RegionBuf) -> Verdict
    requires certificate { IsCertificate cert.now }
    requires buffer { IsBufferOf model.now cert.now buf.old }
    ensures verdict { IsVerdict model.now cert.now result }
    ensures buffer { IsBufferOf model.now cert.now buf.new }
{
    match check_head(model, &cert.claim, &buf.point, &buf.ray, &buf.cuts) {
        Judgement::Passes => {}
        Judgement::Breaks(why) => return Verdict::Rejected { node: 0, why },
        Judgement::NoRoom(step) => return Verdict::Wide { node: 0, step },
    }
    if has_tree(&cert.claim) {
        let cuts = standing_rows(&buf.cuts);
        check_nodes(model, cuts, &cert.claim, &buf.nodes, &mut buf.trail)
    } else {
        Verdict::Accepted(cert.claim)
    }
}
