// What the end of a search shows.
ghost use Rattle.std.specs.Prelude.{◌≡◌, IfOk};
ghost use Rattle.sound_searches.specs.Laws.{HasNoOpenLeaf};
ghost use Rattle.tree_search.specs.Steps.{HasOpenLeaf};
ghost use Rattle.tree_search.specs.Bounds.{IsBoundOf};
ghost use Rattle.tree_search.specs.Search.{best_value, IsLeft, IsFinishedAnswer, IsWithinAnswer, IsStoppedAnswer, IsAnswerAtEnd};
ghost use Rattle.search_gaps.specs.Within.{AreLeavesWithin};

use crate::bounds::least_number;
use crate::searching::{Ended, Searched};
use crate::sound::show_sound;
use frac128::Frac;
use lp_model::{Point, StopWhy};
use search_answers::Answer;
use std::alloc::{AllocError, Global};
use tree_edit::Search;

/// The best value of the kept points in the model's own sense, if there are any.
fn best_value(search: &Search) -> Option<Frac>
    ensures { result ≡ best_value search.now }
{
    match search.target() {
        None => None,
        Some(least) => Some(search.model().sense().own_sense(&least)),
    }
}

/// What a search without an open leaf has shown.
pub fn finished(alloc: Global, search: &Search, results: u64) -> Answer
    requires { HasNoOpenLeaf search.now }
    ensures { IsFinishedAnswer search.now results result }
{
    show_sound(search);
    let Some(incumbent) = search.incumbent() else {
        return Answer::Infeasible { results };
    };
    let Some(value) = best_value(search) else {
        unreachable!()
    };
    match Point::from_slice(alloc, incumbent.as_slice()) {
        Err(_) => Answer::Memory,
        Ok(point) => Answer::Optimal {
            value,
            point,
            results,
        },
    }
}

/// What a search with an open leaf has shown whose leaves are all within this gap.
fn within(alloc: Global, search: &Search, gap: Frac, results: u64) -> Answer
    requires left { HasOpenLeaf search.now }
    requires within { AreLeavesWithin search.now gap }
    ensures { IsWithinAnswer search.now gap results result }
{
    show_sound(search);
    let Some(best) = search.incumbent() else {
        unreachable!()
    };
    let Some(value) = best_value(search) else {
        unreachable!()
    };
    match Point::from_slice(alloc, best.as_slice()) {
        Err(_) => Answer::Memory,
        Ok(point) => Answer::Within {
            gap,
            value,
            point,
            results,
        },
    }
}

/// The least number of an open leaf in the model's own sense, if each has one. No feasible point is better.
fn bound_of(search: &Search) -> Result<Option<Frac>, AllocError>
    requires { HasOpenLeaf search.now }
    ensures { IfOk result (λ bound. IsBoundOf search.now bound) }
{
    show_sound(search);
    match least_number(search) {
        Ok(None) => Ok(None),
        Ok(Some(least)) => Ok(Some(search.model().sense().own_sense(&least))),
        Err(error) => Err(error),
    }
}

/// What is known where a search stops with an open leaf.
pub fn stopped(search: &Search, why: StopWhy, results: u64) -> Answer
    requires { HasOpenLeaf search.now }
    ensures { IsStoppedAnswer search.now why results result }
{
    show_sound(search);
    match bound_of(search) {
        Err(_) => {
            drop(why);
            Answer::Memory
        }
        Ok(bound) => Answer::Stopped {
            why,
            results,
            bound,
            best: best_value(search),
        },
    }
}

/// What a search has shown that came to this end.
pub fn answer_of(alloc: Global, search: &Search, searched: Searched) -> Answer
    requires { IsLeft search.now searched.ended }
    ensures { IsAnswerAtEnd search.now searched.ended searched.results result }
{
    let Searched { ended, results } = searched;
    match ended {
        Ended::Finished => finished(alloc, search, results),
        Ended::Within(gap) => within(alloc, search, gap, results),
        Ended::Unbounded => Answer::Unbounded { results },
        Ended::Stopped(why) => stopped(search, why, results),
    }
}
