// The data of a search.
ghost use Rattle.std.specs.Prelude.{◌≡◌, IfOk};
ghost use Rattle.branch_tree.specs.Preorder.{data_nodes, without_ids};
ghost use Rattle.kept_cuts.specs.Kept.{derivations_of};
ghost use Rattle.search_file.specs.Saved.{saved_data};

use branch_tree::NodeData;
use kept_cuts::derivations;
use lp_model::{Derivation, List, Model, Point};
use search_data::SearchData;
use std::alloc::{AllocError, Global};
use tree_edit::Search;

/// Copies of points.
fn copies(alloc: Global, points: &[Point]) -> Result<List<Point>, AllocError>
    ensures { IfOk result (λ list. list ≡ points.now) }
{
    let mut list = List::new(alloc);
    for point in points {
        let Ok(copy) = List::from_slice(alloc, point.as_slice()) else {
            drop(list);
            return Err(AllocError);
        };
        let Ok(()) = list.push(copy) else {
            drop(list);
            return Err(AllocError);
        };
    }
    Ok(list)
}

/// The model of a search, and the derivations of its cuts.
fn model_and_cuts(alloc: Global, search: &Search) -> Result<(Model, List<Derivation>), AllocError>
    ensures model { IfOk result (λ both. both.0 ≡ search.now.model) }
    ensures cuts { IfOk result (λ both. both.1 ≡ derivations_of search.now.cuts) }
{
    let Ok(model) = search.model().copy() else {
        return Err(AllocError);
    };
    match derivations(alloc, search.pool().rows()) {
        Ok(cuts) => Ok((model, cuts)),
        Err(error) => {
            drop(model);
            Err(error)
        }
    }
}

/// The points of a search, and its nodes in preorder with their states.
fn points_and_nodes(
    alloc: Global,
    search: &Search,
) -> Result<(List<Point>, List<NodeData>), AllocError>
    ensures points { IfOk result (λ both. both.0 ≡ search.now.points) }
    ensures nodes { IfOk result (λ both. both.1 ≡ data_nodes (without_ids search.now.tree.root)) }
{
    let Ok(points) = copies(alloc, search.points()) else {
        return Err(AllocError);
    };
    match search.tree().data_nodes() {
        Ok(nodes) => Ok((points, nodes)),
        Err(error) => {
            drop(points);
            Err(error)
        }
    }
}

/// The data of a search: its model, the derivations of its cuts, its points, and its nodes in preorder with their states.
pub fn data_of(alloc: Global, search: &Search) -> Result<SearchData, AllocError>
    ensures { IfOk result (λ s. s ≡ saved_data search.now) }
{
    let Ok((model, cuts)) = model_and_cuts(alloc, search) else {
        return Err(AllocError);
    };
    match points_and_nodes(alloc, search) {
        Ok((points, nodes)) => Ok(SearchData {
            model,
            cuts,
            points,
            nodes,
        }),
        Err(error) => {
            drop(model);
            drop(cuts);
            Err(error)
        }
    }
}
