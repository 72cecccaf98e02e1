// The cuts that the nodes of a certificate name, and their numbers.
ghost use Rattle.std.specs.Prelude.{◌≡◌, ◌<◌, ◌≤◌, ◌-◌, ◌++◌, ◌∷◌, [], length, map, set, true, false, replicate, IfOk, All};
ghost use Rattle.tree_cert.specs.Cuts.{node_mults, IsOfFirst};
ghost use Rattle.tree_cert.specs.private.Marked.{mark_of, marks_of, marks_in, NodeNamesFirst, place_if, places_of, count_with, counts_of, renumbered, renumbered_node};
ghost use Rattle.lp_model.specs.Limits.{pool_limit};

use cert_text::{CertMult, CertNode};
use lp_model::List;
use std::alloc::{AllocError, Global};

/// The cuts that nodes name: their places in the pool, and for each place of the pool how many of them stand before it.
#[derive(Drop)]
pub(crate) struct Used {
    pub(crate) places: Vec<usize>,
    pub(crate) counts: Vec<u32>,
}

/// Marks the place of a cut that has this number.
fn mark_at(marks: &mut [bool], number: u64)
    requires some { 0 < number }
    requires within { number ≤ length marks.old }
    ensures { marks.new ≡ set marks.old (number - 1) true }
{
    let place = number as usize - 1;
    marks[place] = true;
}

/// Marks the cut of a multiplier.
fn mark(marks: &mut [bool], mult: &CertMult)
    requires { IsOfFirst (length marks.old) mult.now }
    ensures { marks.new ≡ mark_of marks.old mult.now }
{
    match mult {
        CertMult::Row(..) => {}
        CertMult::Cut(number, _) => mark_at(marks, *number),
    }
}

/// Marks the cuts of multipliers.
fn mark_all(marks: &mut [bool], mults: &[CertMult])
    requires { All (IsOfFirst (length marks.old)) mults.now }
    ensures { marks.new ≡ marks_of marks.old mults.now }
{
    for mult in mults {
        mark(marks, mult);
    }
}

/// The multipliers of a node.
fn node_mults(node: &CertNode) -> &[CertMult]
    ensures { result.now ≡ node_mults node.now }
{
    match node {
        CertNode::Bound(mults) => mults.as_slice(),
        CertNode::Farkas(mults) => mults.as_slice(),
        _ => &[],
    }
}

/// Marks the cuts that the nodes name.
fn mark_nodes(marks: &mut [bool], nodes: &[CertNode])
    requires { All (NodeNamesFirst (length marks.old)) nodes.now }
    ensures { marks.new ≡ marks_in marks.old nodes.now }
{
    for node in nodes {
        mark_all(marks, node_mults(node));
    }
}

/// Notes a place that is marked.
fn note(places: &mut Vec<usize>, marked: bool, place: usize) -> Result<(), AllocError>
    ensures { IfOk result (λ _. places.new.items ≡ places.old.items ++ place_if marked place) }
{
    if !marked {
        return Ok(());
    }
    places.push(place)?;
    Ok(())
}

/// The places that are marked.
fn places_of(alloc: Global, marks: &[bool]) -> Result<Vec<usize>, AllocError>
    ensures { IfOk result (λ places. places.items ≡ places_of 0 marks.now) }
{
    let mut places = Vec::new(alloc);
    for place in 0..marks.len() {
        let Ok(()) = note(&mut places, marks[place], place) else {
            return Err(AllocError);
        };
    }
    Ok(places)
}

/// How many there are with a further one, if it is marked.
fn count_with(count: u32, marked: bool) -> u32
    requires { count < pool_limit }
    ensures { result ≡ count_with count marked }
{
    if marked { count + 1 } else { count }
}

/// How many places before each are marked.
fn counts_of(alloc: Global, marks: &[bool]) -> Result<Vec<u32>, AllocError>
    requires { length marks.now ≤ pool_limit }
    ensures { IfOk result (λ counts. counts.items ≡ counts_of 0 marks.now) }
{
    let mut counts = Vec::new(alloc);
    let mut count = 0u32;
    for place in 0..marks.len() {
        let Ok(()) = counts.push(count) else {
            return Err(AllocError);
        };
        count = count_with(count, marks[place]);
    }
    Ok(counts)
}

/// The cuts that nodes name, which name each by its place in a pool of this size, from 1.
pub(crate) fn used_by(alloc: Global, size: usize, nodes: &[CertNode]) -> Result<Used, AllocError>
    requires few { size ≤ pool_limit }
    requires within { All (NodeNamesFirst size) nodes.now }
    ensures places { IfOk result (λ used. used.places.items ≡ places_of 0 (marks_in (replicate size false) nodes.now)) }
    ensures counts { IfOk result (λ used. used.counts.items ≡ counts_of 0 (marks_in (replicate size false) nodes.now)) }
{
    let Ok(mut marks) = vec![in alloc; false; size] else {
        return Err(AllocError);
    };
    mark_nodes(&mut marks, nodes);
    let Ok(places) = places_of(alloc, &marks) else {
        drop(marks);
        return Err(AllocError);
    };
    let Ok(counts) = counts_of(alloc, &marks) else {
        drop(places);
        drop(marks);
        return Err(AllocError);
    };
    drop(marks);
    Ok(Used { places, counts })
}

/// One more multiplier, of a cut by its number among those that are named.
fn push_renumbered(
    alloc: Global,
    list: &mut List<CertMult>,
    counts: &[u32],
    mult: &CertMult,
) -> Result<(), AllocError>
    requires { IsOfFirst (length counts.now) mult.now }
    ensures { IfOk result (λ _. list.new ≡ list.old ++ renumbered counts.now mult.now ∷ []) }
{
    match mult {
        CertMult::Row(name, number) => match name.copy(alloc) {
            Ok(own) => list.push(CertMult::Row(own, *number)),
            Err(error) => Err(error),
        },
        CertMult::Cut(cut, number) => {
            let count = counts[*cut as usize - 1];
            list.push(CertMult::Cut(u64::from(count) + 1, *number))
        }
    }
}

/// Multipliers, with cuts by their numbers among those that are named.
fn renumbered_mults(
    alloc: Global,
    counts: &[u32],
    mults: &[CertMult],
) -> Result<List<CertMult>, AllocError>
    requires { All (IsOfFirst (length counts.now)) mults.now }
    ensures { IfOk result (λ ms. ms ≡ map (renumbered counts.now) mults.now) }
{
    let mut list = List::new(alloc);
    for mult in mults {
        let Ok(()) = push_renumbered(alloc, &mut list, counts, mult) else {
            return Err(AllocError);
        };
    }
    Ok(list)
}

/// One more node, with cuts by their numbers among those that are named.
fn push_renumbered_node(
    alloc: Global,
    list: &mut List<CertNode>,
    counts: &[u32],
    node: &CertNode,
) -> Result<(), AllocError>
    requires { NodeNamesFirst (length counts.now) node.now }
    ensures { IfOk result (λ _. list.new ≡ list.old ++ renumbered_node counts.now node.now ∷ []) }
{
    match node {
        CertNode::Split { col, v } => match col.copy(alloc) {
            Ok(own) => list.push(CertNode::Split { col: own, v: *v }),
            Err(error) => Err(error),
        },
        CertNode::Bound(mults) => match renumbered_mults(alloc, counts, mults.as_slice()) {
            Ok(own) => list.push(CertNode::Bound(own)),
            Err(error) => Err(error),
        },
        CertNode::Farkas(mults) => match renumbered_mults(alloc, counts, mults.as_slice()) {
            Ok(own) => list.push(CertNode::Farkas(own)),
            Err(error) => Err(error),
        },
        CertNode::Empty => list.push(CertNode::Empty),
    }
}

/// The nodes, with cuts by their numbers among those that are named.
pub(crate) fn renumbered_nodes(
    alloc: Global,
    counts: &[u32],
    nodes: &[CertNode],
) -> Result<List<CertNode>, AllocError>
    requires { All (NodeNamesFirst (length counts.now)) nodes.now }
    ensures { IfOk result (λ ns. ns ≡ map (renumbered_node counts.now) nodes.now) }
{
    let mut list = List::new(alloc);
    for node in nodes {
        let Ok(()) = push_renumbered_node(alloc, &mut list, counts, node) else {
            return Err(AllocError);
        };
    }
    Ok(list)
}
