// A search made of its data. Cuts are derived and points tested at the stated model, and leaves are judged, so no state, point or
// cut of the data is believed.
ghost use Rattle.std.specs.Prelude.{◌≡◌, ◌≤◌, length, All, IfOk};
ghost use Rattle.lp_model.specs.Limits.{node_limit, pool_limit};
ghost use Rattle.branch_tree.specs.Preorder.{DataTree, data_nodes, IsOneTree, numbered_tree, HasNodeBound};
ghost use Rattle.search_file.specs.Lawful.{lawful_tree};
ghost use Rattle.search_file.specs.Saved.{IsRestorable, Restores};
ghost use Rattle.search_file.specs.private.Saved.{IsPoolFrom};

use crate::lawful::lawful_nodes;
use branch_tree::{NodeData, Tree};
use cover_cuts::CutPool;
use kept_cuts::{add_derivation, copy_derivation};
use lp_model::{Derivation, Model, NODE_LIMIT};
use search_data::SearchData;
use std::alloc::{AllocError, Global};
use tree_edit::Search;

/// A pool of the cuts of derivations, in their order. Each counts where it derives at the model.
fn pool_of(alloc: Global, model: &Model, cuts: &[Derivation]) -> Result<CutPool, AllocError>
    requires { length cuts.now ≤ pool_limit }
    ensures { IfOk result (λ pool. IsPoolFrom model.now cuts.now pool) }
{
    let mut pool = CutPool::new(alloc);
    for cut in cuts {
        let Ok(from) = copy_derivation(cut) else {
            drop(pool);
            return Err(AllocError);
        };
        let Ok(()) = add_derivation(&mut pool, model, from) else {
            drop(pool);
            return Err(AllocError);
        };
    }
    Ok(pool)
}

/// The tree of nodes, in which each split that is not on an integer column is one open leaf.
fn tree_of(alloc: Global, model: &Model, nodes: &[NodeData]) -> Result<Tree, AllocError>
    requires whole { IsOneTree nodes.now }
    requires bounds { All HasNodeBound nodes.now }
    ensures { IfOk result (λ tree. (t : DataTree) → data_nodes t ≡ nodes.now → tree ≡ numbered_tree node_limit (lawful_tree model.now t)) }
{
    let Ok(kept) = lawful_nodes(alloc, model, nodes) else {
        return Err(AllocError);
    };
    Tree::from_preorder(alloc, NODE_LIMIT, kept)
}

/// The pool of the stated cuts and the stated tree.
fn parts_of(alloc: Global, stated: &SearchData) -> Result<(CutPool, Tree), AllocError>
    requires { IsRestorable stated.now }
    ensures pool { IfOk result (λ both. IsPoolFrom stated.now.model stated.now.cuts both.0) }
    ensures tree { IfOk result (λ both. (t : DataTree) → data_nodes t ≡ stated.now.nodes → both.1 ≡ numbered_tree node_limit (lawful_tree stated.now.model t)) }
{
    let Ok(pool) = pool_of(alloc, &stated.model, stated.cuts.as_slice()) else {
        return Err(AllocError);
    };
    let Ok(tree) = tree_of(alloc, &stated.model, stated.nodes.as_slice()) else {
        drop(pool);
        return Err(AllocError);
    };
    Ok((pool, tree))
}

/// A search of the stated model, with the stated cuts, those of the stated points that may be kept, and the stated tree, in which
/// each split that is not on an integer column is one leaf. Its ids are 1, 2 and so on in preorder, and it may have 1,000,000 nodes.
/// Cuts, points and leaves are judged at the model. Where there is no memory the data is let go.
pub fn search_of(alloc: Global, stated: SearchData) -> Result<Search, AllocError>
    requires { IsRestorable stated }
    ensures { IfOk result (λ s. Restores stated s) }
{
    match parts_of(alloc, &stated) {
        Ok((pool, tree)) => {
            let SearchData {
                model,
                cuts,
                points,
                nodes,
            } = stated;
            drop(cuts);
            drop(nodes);
            Search::of_parts(alloc, model, pool, tree, points.as_slice())
        }
        Err(error) => {
            drop(stated);
            Err(error)
        }
    }
}
