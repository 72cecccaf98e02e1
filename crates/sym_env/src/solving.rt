// A search from its beginning to what it shows: from a fresh root, or from the tree and the points that are kept.
ghost use Rattle.std.specs.Prelude.{◌≡◌, ◌≤◌, [], replicate, None};
ghost use Rattle.sound_searches.specs.Sound.{IsSound};
ghost use Rattle.sound_searches.specs.Calls.{IsFresh};
ghost use Rattle.tree_search.specs.Steps.{HasOpenLeaf, IsWayFor, IsFirstFor, IsRayWay};
ghost use Rattle.tree_search.specs.declared.searching.Ways.TheVariants.{Own};
ghost use Rattle.ray_phase.specs.Beginnings.{BeginsBeside};
ghost use Rattle.tree_search.specs.Beginnings.{BeginsWith};
ghost use Rattle.tree_search.specs.Enough.{IsEnough, IsEnoughFrom};
ghost use Rattle.tree_search.specs.Solves.{Solved, SolvesModel, SaysUnbounded, HasRayFor};
ghost use Rattle.tree_search.specs.Truth.{IsTrueAnswer, HasEnded};
ghost use Rattle.tree_search.specs.Warm.{Went};
ghost use Rattle.tree_search.specs.Within.{IsGapLimit};

use lp_model::{Basis, Model, Point};
use ray_phase::{Beginning, find_beginning, no_ray_law, root_law};
use search_answers::Answer;
use search_counting::{cap_law, left_law, roomy_law, too_small_law};
use sound_searches::empty_law;
use std::alloc::{AllocError, Global};
use tree_edit::Search;
use tree_manager::Manager;
use tree_search::{Limits, Ways, answer_of, search_on, stop_bound_law, stopped};

/// The search, what it shows, and the ray beside which it was made, if there is one.
#[derive(Drop)]
pub(crate) struct Solution {
    pub(crate) search: Search,
    pub(crate) answer: Answer,
    pub(crate) ray: Option<Point>,
}

/// Searches through a manager whose workers hold nothing, and says what that shows.
fn search_through(
    alloc: Global,
    manager: Manager,
    ways: &Ways<'_>,
    first: &Basis,
    limits: &Limits,
) -> (Search, Answer)
    requires idle { manager.held ≡ replicate limits.now.workers None }
    requires gap { IsGapLimit limits.now.gap }
    requires sound { IsSound manager.search }
    requires some { HasOpenLeaf manager.search }
    requires begins { BeginsWith manager.search.model limits.now.pivots ways.now first.now }
    requires ways { IsWayFor manager.search ways.now }
    requires first { IsFirstFor ways.now manager.search first.now }
    ensures went { Went limits.now manager.search result.1 result.0 }
    ensures beside { SaysUnbounded result.1 → IsRayWay ways.now }
    ensures complete { IsEnoughFrom manager.search result.0.cuts limits.now.nodes limits.now.pivots → HasEnded result.1 }
{
    no_ray_law();
    let (search, searched) = search_on(alloc, manager, ways, first, limits);
    match searched {
        Err(AllocError) => (search, Answer::Memory),
        Ok(searched) => {
            let answer = answer_of(alloc, &search, searched);
            (search, answer)
        }
    }
}

/// Searches with these relaxations from the first lists on, and says what that shows.
fn search_with(
    alloc: Global,
    search: Search,
    ways: &Ways<'_>,
    first: &Basis,
    limits: &Limits,
) -> (Search, Answer)
    requires workers { 1 ≤ limits.now.workers }
    requires gap { IsGapLimit limits.now.gap }
    requires some { HasOpenLeaf search }
    requires begins { BeginsWith search.model limits.now.pivots ways.now first.now }
    requires ways { IsWayFor search ways.now }
    requires first { IsFirstFor ways.now search first.now }
    ensures went { Went limits.now search result.1 result.0 }
    ensures beside { SaysUnbounded result.1 → IsRayWay ways.now }
    ensures complete { IsEnoughFrom search result.0.cuts limits.now.nodes limits.now.pivots → HasEnded result.1 }
{
    let _sound = search.points();
    match Manager::new(alloc, search, limits.workers as usize) {
        Err(search) => (search, Answer::Memory),
        Ok(manager) => search_through(alloc, manager, ways, first, limits),
    }
}

/// Searches with the model's own relaxations.
pub(crate) fn search_own(
    alloc: Global,
    search: Search,
    first: Basis,
    limits: &Limits,
) -> (Search, Answer)
    requires workers { 1 ≤ limits.now.workers }
    requires gap { IsGapLimit limits.now.gap }
    requires some { HasOpenLeaf search }
    requires begins { BeginsWith search.model limits.now.pivots Own first }
    ensures went { Went limits.now search result.1 result.0 }
    ensures bounded { ¬ SaysUnbounded result.1 }
    ensures complete { IsEnoughFrom search result.0.cuts limits.now.nodes limits.now.pivots → HasEnded result.1 }
{
    root_law();
    let (search, answer) = search_with(alloc, search, &Ways::Own, &first, limits);
    drop(first);
    (search, answer)
}

/// Searches with the relaxations of the model without costs, which has a ray.
fn search_beside_ray(
    alloc: Global,
    search: Search,
    costless: Model,
    first: Basis,
    limits: &Limits,
) -> (Search, Answer)
    requires workers { 1 ≤ limits.now.workers }
    requires gap { IsGapLimit limits.now.gap }
    requires some { HasOpenLeaf search }
    requires none { search.points ≡ [] }
    requires begins { BeginsBeside search.model limits.now.pivots costless first }
    ensures went { Went limits.now search result.1 result.0 }
    ensures complete { IsEnoughFrom search result.0.cuts limits.now.nodes limits.now.pivots → HasEnded result.1 }
{
    root_law();
    let (search, answer) = search_with(alloc, search, &Ways::Rays(&costless), &first, limits);
    drop(costless);
    drop(first);
    (search, answer)
}

/// Goes on with a search that has an open leaf and keeps no point.
pub(crate) fn search_without_point(alloc: Global, search: Search, limits: &Limits) -> Solution
    requires workers { 1 ≤ limits.now.workers }
    requires gap { IsGapLimit limits.now.gap }
    requires some { HasOpenLeaf search }
    requires none { search.points ≡ [] }
    ensures went { Went limits.now search result.answer result.search }
    ensures ray { HasRayFor search.model limits.now.pivots result.answer result.ray }
    ensures complete { IsEnoughFrom search result.search.cuts limits.now.nodes limits.now.pivots → HasEnded result.answer }
{
    let _sound = search.points();
    match find_beginning(alloc, search.model(), limits.pivots) {
        Beginning::Memory => Solution {
            search,
            answer: Answer::Memory,
            ray: None,
        },
        Beginning::Stopped(why) => {
            let answer = stopped(&search, why, 0);
            Solution {
                search,
                answer,
                ray: None,
            }
        },
        Beginning::Own(first) => {
            let (search, answer) = search_own(alloc, search, first, limits);
            Solution {
                search,
                answer,
                ray: None,
            }
        },
        Beginning::BesideRay(direction, costless, first) => {
            let (search, answer) = search_beside_ray(alloc, search, costless, first, limits);
            Solution {
                search,
                answer,
                ray: Some(direction),
            }
        }
    }
}

/// Solves a search of one leaf.
fn solve_fresh(alloc: Global, search: Search, limits: &Limits) -> Solution
    requires workers { 1 ≤ limits.now.workers }
    requires gap { IsGapLimit limits.now.gap }
    requires fresh { IsFresh search.model limits.now.tree search }
    ensures solved { Solved search.model limits.now result.answer result.search }
    ensures ray { HasRayFor search.model limits.now.pivots result.answer result.ray }
    ensures complete { IsEnough search.model result.search.cuts limits.now → HasEnded result.answer }
{
    let _sound = search.points();
    let _numbered = search.tree().nodes();
    roomy_law();
    match search.next_leaf() {
        None => Solution {
            search,
            answer: Answer::Infeasible { results: 0 },
            ray: None,
        },
        Some(_) => search_without_point(alloc, search, limits),
    }
}

/// Solves the search's model from a fresh leaf on. Where there is no memory for it the search stays, with the new limit.
fn solve_again(alloc: Global, mut search: Search, limits: &Limits) -> Solution
    requires workers { 1 ≤ limits.now.workers }
    requires gap { IsGapLimit limits.now.gap }
    ensures solves { SolvesModel search.model limits.now search result.answer result.search }
    ensures ray { HasRayFor search.model limits.now.pivots result.answer result.ray }
    ensures complete { IsEnough search.model result.search.cuts limits.now → HasEnded result.answer }
{
    search.set_limit(limits.tree);
    match search.restart() {
        Err(AllocError) => Solution {
            search,
            answer: Answer::Memory,
            ray: None,
        },
        Ok(()) => solve_fresh(alloc, search, limits),
    }
}

/// Solves the search's model. What is answered is true of it.
pub(crate) fn solve_search(alloc: Global, search: Search, limits: &Limits) -> Solution
    requires workers { 1 ≤ limits.now.workers }
    requires gap { IsGapLimit limits.now.gap }
    ensures solves { SolvesModel search.model limits.now search result.answer result.search }
    ensures ray { HasRayFor search.model limits.now.pivots result.answer result.ray }
    ensures complete { IsEnough search.model result.search.cuts limits.now → HasEnded result.answer }
    ensures true_answer { IsTrueAnswer search.model limits.now result.answer }
{
    let _lawful = search.model().cols();
    empty_law();
    cap_law();
    left_law();
    too_small_law();
    stop_bound_law();
    solve_again(alloc, search, limits)
}
