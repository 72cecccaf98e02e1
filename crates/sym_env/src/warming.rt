// A search that goes on from the tree and the points that are kept.
ghost use Rattle.std.specs.Prelude.{◌≡◌, ◌<◌, ◌≤◌, length};
ghost use Rattle.sound_searches.specs.Calls.{search_with_limit};
ghost use Rattle.tree_search.specs.Steps.{HasOpenLeaf};
ghost use Rattle.ray_phase.specs.Beginnings.{HasNoSlackBasis};
ghost use Rattle.tree_search.specs.Enough.{IsKeptEnough, IsEnoughFrom};
ghost use Rattle.tree_search.specs.Solves.{HasRayFor};
ghost use Rattle.tree_search.specs.Truth.{IsTrueOfKept, HasEnded};
ghost use Rattle.tree_search.specs.Warm.{Resumes, Warms};
ghost use Rattle.tree_search.specs.Extends.{Extends};
ghost use Rattle.tree_search.specs.Within.{IsGapLimit};

use crate::solving::{Solution, search_own, search_without_point};
use dual_simplex::slack_basis;
use lp_model::StopWhy;
use ray_phase::{RayAnswer, out_of_moves, ray};
use search_answers::Answer;
use search_counting::{cap_law, left_law};
use sound_searches::empty_law;
use std::alloc::{AllocError, Global};
use tree_edit::Search;
use tree_search::{Limits, finished, stop_bound_law, stopped};

/// Goes on where the slack state is not lawful and a point is kept: beside a ray the objective has no end.
fn resume_by_ray_phase(alloc: Global, search: Search, limits: &Limits) -> Solution
    requires workers { 1 ≤ limits.now.workers }
    requires gap { IsGapLimit limits.now.gap }
    requires some { HasOpenLeaf search }
    requires point { 0 < length search.points }
    requires none { HasNoSlackBasis search.model }
    ensures resumes { Resumes limits.now search result.answer result.search }
    ensures model { result.search.model ≡ search.model }
    ensures extends { Extends search.tree.root result.search.tree.root }
    ensures ray { HasRayFor search.model limits.now.pivots result.answer result.ray }
    ensures complete { IsEnoughFrom search result.search.cuts limits.now.nodes limits.now.pivots → HasEnded result.answer }
{
    let _sound = search.points();
    match ray(alloc, search.model(), limits.pivots) {
        RayAnswer::Memory => Solution {
            search,
            answer: Answer::Memory,
            ray: None,
        },
        RayAnswer::DualBasis(first) => {
            let (search, answer) = search_own(alloc, search, first, limits);
            Solution {
                search,
                answer,
                ray: None,
            }
        },
        RayAnswer::Ray(direction) => Solution {
            search,
            answer: Answer::Unbounded { results: 0 },
            ray: Some(direction),
        },
        RayAnswer::Pivots { basis } => {
            let answer = stopped(&search, out_of_moves(alloc, basis), 0);
            Solution {
                search,
                answer,
                ray: None,
            }
        },
        RayAnswer::Wide(at) => {
            let answer = stopped(&search, StopWhy::Wide(at), 0);
            Solution {
                search,
                answer,
                ray: None,
            }
        },
    }
}

/// Goes on with a search that has an open leaf and keeps a point.
fn resume_with_point(alloc: Global, search: Search, limits: &Limits) -> Solution
    requires workers { 1 ≤ limits.now.workers }
    requires gap { IsGapLimit limits.now.gap }
    requires some { HasOpenLeaf search }
    requires point { 0 < length search.points }
    ensures resumes { Resumes limits.now search result.answer result.search }
    ensures model { result.search.model ≡ search.model }
    ensures extends { Extends search.tree.root result.search.tree.root }
    ensures ray { HasRayFor search.model limits.now.pivots result.answer result.ray }
    ensures complete { IsEnoughFrom search result.search.cuts limits.now.nodes limits.now.pivots → HasEnded result.answer }
{
    let _sound = search.points();
    match slack_basis(alloc, search.model()) {
        Err(AllocError) => Solution {
            search,
            answer: Answer::Memory,
            ray: None,
        },
        Ok(Some(first)) => {
            let (search, answer) = search_own(alloc, search, first, limits);
            Solution {
                search,
                answer,
                ray: None,
            }
        },
        Ok(None) => resume_by_ray_phase(alloc, search, limits),
    }
}

/// Goes on with a search that has an open leaf.
fn resume(alloc: Global, search: Search, limits: &Limits) -> Solution
    requires workers { 1 ≤ limits.now.workers }
    requires gap { IsGapLimit limits.now.gap }
    requires some { HasOpenLeaf search }
    ensures resumes { Resumes limits.now search result.answer result.search }
    ensures model { result.search.model ≡ search.model }
    ensures extends { Extends search.tree.root result.search.tree.root }
    ensures ray { HasRayFor search.model limits.now.pivots result.answer result.ray }
    ensures complete { IsEnoughFrom search result.search.cuts limits.now.nodes limits.now.pivots → HasEnded result.answer }
{
    match search.target() {
        Some(_) => resume_with_point(alloc, search, limits),
        None => search_without_point(alloc, search, limits),
    }
}

/// Goes on with a search, or answers again what it has shown where no leaf is open.
fn warm_limited(alloc: Global, search: Search, limits: &Limits) -> Solution
    requires workers { 1 ≤ limits.now.workers }
    requires gap { IsGapLimit limits.now.gap }
    ensures warms { Warms limits.now search result.answer result.search }
    ensures model { result.search.model ≡ search.model }
    ensures extends { Extends search.tree.root result.search.tree.root }
    ensures ray { HasRayFor search.model limits.now.pivots result.answer result.ray }
    ensures complete { IsEnoughFrom search result.search.cuts limits.now.nodes limits.now.pivots → HasEnded result.answer }
{
    let _numbered = search.tree().nodes();
    match search.next_leaf() {
        None => {
            let answer = finished(alloc, &search, 0);
            Solution {
                search,
                answer,
                ray: None,
            }
        },
        Some(_) => resume(alloc, search, limits),
    }
}

/// Goes on with the search. What is answered is true of its model.
pub(crate) fn warm_search(alloc: Global, mut search: Search, limits: &Limits) -> Solution
    requires workers { 1 ≤ limits.now.workers }
    requires gap { IsGapLimit limits.now.gap }
    ensures warms { Warms limits.now (search_with_limit search limits.now.tree) result.answer result.search }
    ensures model { result.search.model ≡ search.model }
    ensures extends { Extends search.tree.root result.search.tree.root }
    ensures ray { HasRayFor search.model limits.now.pivots result.answer result.ray }
    ensures complete { IsKeptEnough search result.search.cuts limits.now → HasEnded result.answer }
    ensures true_answer { IsTrueOfKept search limits.now result.answer }
{
    let _lawful = search.model().cols();
    empty_law();
    cap_law();
    left_law();
    stop_bound_law();
    search.set_limit(limits.tree);
    let _sound = search.points();
    warm_limited(alloc, search, limits)
}
