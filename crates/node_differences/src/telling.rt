// A node told by the lists of the split above it.
ghost use Rattle.std.specs.Prelude.{◌≡◌, [], not, IfOk};
ghost use Rattle.std.specs.Option.{option_copied};
ghost use Rattle.std.specs.List.{list_all};
ghost use Rattle.lp_model.specs.Edits.{is_zero};
ghost use Rattle.node_differences.specs.Told.{node_lists, told_lists, are_told_multipliers, is_told_node};
ghost use Rattle.node_differences.specs.Answers.{lists_above};

use crate::multipliers::difference;
use crate::order::are_rising;
use crate::variables::differing;
use branch_tree::NodeData;
use frac128::Frac;
use lp_model::{Basis, Mult, Var};
use std::alloc::{AllocError, Global};

/// The multipliers of a node.
pub(crate) fn mult_of(node: &NodeData) -> &Mult
    ensures { result.now ≡ (node_lists node.now).mult }
{
    match node {
        NodeData::Split { mult, .. } => mult,
        NodeData::Leaf(kept) => &kept.mult,
    }
}

/// The basis of a node.
pub(crate) fn basis_of(node: &NodeData) -> &Basis
    ensures { result.now ≡ (node_lists node.now).basis }
{
    match node {
        NodeData::Split { basis, .. } => basis,
        NodeData::Leaf(kept) => &kept.basis,
    }
}

/// Whether none of these is 0.
fn are_nonzero(mult: &[(Var, Frac)]) -> bool
    ensures { result ≡ list_all (λ m. not (is_zero m.1)) mult.now }
{
    for entry in mult {
        if lp_model::is_zero(&entry.1) {
            return false;
        }
    }
    true
}

/// Whether the lists of a node that are told rise, and have no number 0.
pub fn are_told(node: &NodeData) -> bool
    ensures { result ≡ is_told_node node.now }
{
    let mult = mult_of(node).as_slice();
    let basis = basis_of(node);
    are_rising(mult)
        && are_nonzero(mult)
        && are_rising(basis.basic.as_slice())
        && are_rising(basis.high.as_slice())
}

/// How a node's basis differs from that of the split above it.
pub(crate) fn differing_basis(
    alloc: Global,
    above: Option<&NodeData>,
    basis: &Basis,
) -> Result<Basis, AllocError>
    ensures { IfOk result (λ b. b ≡ (told_lists (lists_above (option_copied above.entry)) (record { mult = []; basis = basis.now })).basis) }
{
    let none: &[Var] = &[];
    let (basic, high) = match above {
        Some(split) => {
            let former = basis_of(split);
            (former.basic.as_slice(), former.high.as_slice())
        }
        None => (none, none),
    };
    let Ok(basic) = differing(alloc, basic, basis.basic.as_slice()) else {
        return Err(AllocError);
    };
    match differing(alloc, high, basis.high.as_slice()) {
        Ok(high) => Ok(Basis { basic, high }),
        Err(error) => {
            drop(basic);
            Err(error)
        }
    }
}

/// The multipliers of the split above a node, none above the root.
pub(crate) fn mult_above<'a>(above: Option<&'a NodeData>) -> &'a [(Var, Frac)]
    ensures { result.now ≡ (lists_above (option_copied above.entry)).mult }
{
    match above {
        Some(split) => mult_of(split).as_slice(),
        None => &[],
    }
}

/// How the lists of a node differ from those of the split above it: multipliers and basis.
pub fn told_lists(
    alloc: Global,
    above: Option<&NodeData>,
    node: &NodeData,
) -> Result<(Mult, Basis), AllocError>
    ensures mult { IfOk result (λ told. told.0 ≡ (told_lists (lists_above (option_copied above.entry)) (node_lists node.now)).mult) }
    ensures basis { IfOk result (λ told. told.1 ≡ (told_lists (lists_above (option_copied above.entry)) (node_lists node.now)).basis) }
{
    let Ok(mult) = difference(alloc, mult_above(above), mult_of(node).as_slice()) else {
        return Err(AllocError);
    };
    match differing_basis(alloc, above, basis_of(node)) {
        Ok(basis) => Ok((mult, basis)),
        Err(error) => {
            drop(mult);
            Err(error)
        }
    }
}
