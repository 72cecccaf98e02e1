// Searches of models that were solved before, and one of them as a search of another model.
ghost use Rattle.std.specs.Prelude.{◌≡◌, IsTrue, IsSome, IfSome, IfOk};
ghost use Rattle.front_env.specs.FrontEnvs.{program_in};
ghost use Rattle.front_env.specs.private.Going.{AreAlike};

use kept_env::{Env, Held};
use lp_model::Model;
use search_data::SearchData;
use search_file::{data_of, saved_law, search_of};
use std::alloc::{AllocError, Global};
use std::mem::replace;
use tree_edit::Search;

/// How many nodes a search has at most that is kept: where the leaves are more it takes longer to judge them than to work as many as are
/// wanted anew.
const MOST_NODES: u64 = 500;

/// The last two searches that were kept, the last one first.
#[derive(Drop)]
pub(crate) struct KeptSearches {
    /// How many rows a model has at least whose search is kept.
    rows: usize,
    first: Option<Search>,
    second: Option<Search>,
}

/// Whether two models have as many rows and as many columns.
fn are_alike(first: &Model, second: &Model) -> bool
    ensures { IsTrue result → AreAlike first.now second.now }
{
    if first.rows().len() != second.rows().len() {
        return false;
    }
    first.cols().len() == second.cols().len()
}

/// The search that stands in a place, if its model has as many rows and columns as this one. It is taken out.
fn taken(place: &mut Option<Search>, model: &Model) -> Option<Search>
    ensures { IfSome result (λ s. AreAlike s.model model.now) }
{
    let Some(search) = replace(place, None) else {
        return None;
    };
    if are_alike(search.model(), model) {
        return Some(search);
    }
    drop(replace(place, Some(search)));
    None
}

impl KeptSearches {
    /// None is kept. Only those of models with as many rows will be.
    pub(crate) fn new(rows: usize) -> KeptSearches {
        KeptSearches {
            rows,
            first: None,
            second: None,
        }
    }

    /// Keeps one more, unless its tree is large or its model has too few rows. The older one of two is let go.
    pub(crate) fn keep(&mut self, search: Search) {
        if search.tree().nodes() > MOST_NODES || search.model().rows().len() < self.rows {
            drop(search);
            return;
        }
        if let Some(before) = replace(&mut self.first, Some(search)) {
            drop(replace(&mut self.second, Some(before)));
        }
    }

    /// Takes out one whose model has as many rows and columns as this one.
    pub(crate) fn take(&mut self, model: &Model) -> Option<Search>
        ensures { IfSome result (λ s. AreAlike s.model model.now) }
    {
        match taken(&mut self.first, model) {
            Some(search) => Some(search),
            None => taken(&mut self.second, model),
        }
    }
}

/// A search of the model with the tree, the cuts and the points of a search of another one: cuts are derived, points are tested and leaves
/// are judged at this model.
pub(crate) fn moved_to(alloc: Global, old: Search, model: Model) -> Result<Search, AllocError>
    requires { AreAlike old.model model }
    ensures { IfOk result (λ s. s.model ≡ model) }
{
    saved_law();
    let _sound = old.points();
    let stated = data_of(alloc, &old);
    drop(old);
    match stated {
        Ok(stated) => {
            let SearchData {
                model: before,
                cuts,
                points,
                nodes,
            } = stated;
            drop(before);
            search_of(
                alloc,
                SearchData {
                    model,
                    cuts,
                    points,
                    nodes,
                },
            )
        }
        Err(error) => {
            drop(model);
            Err(error)
        }
    }
}

/// Puts a search of one leaf in the place of an environment's search, which is answered. Where there is no memory that one stays.
fn exchange_search(alloc: Global, env: &mut Env) -> Option<Search>
    requires { IsSome env.old.search }
    ensures loaded { IsSome env.new.search }
    ensures program { program_in env.new.search ≡ program_in env.old.search }
{
    let Some(search) = env.take() else {
        unreachable!();
    };
    let Ok(model) = search.model().copy() else {
        env.give(search, Held::Nothing);
        return None;
    };
    match Search::new(alloc, model) {
        Ok(fresh) => {
            env.give(fresh, Held::Nothing);
            Some(search)
        }
        Err(AllocError) => {
            env.give(search, Held::Nothing);
            None
        }
    }
}

/// Where an environment's search was solved it is kept, and the environment begins with a fresh root of its model, so that nothing has to
/// follow an edit. Where there is no memory for that it stays.
pub(crate) fn begin_anew(alloc: Global, env: &mut Env, kept: &mut KeptSearches, was_solved: bool)
    requires { IsSome env.old.search }
    ensures loaded { IsSome env.new.search }
    ensures program { program_in env.new.search ≡ program_in env.old.search }
{
    if !was_solved {
        return;
    }
    if let Some(old) = exchange_search(alloc, env) {
        kept.keep(old);
    }
}
