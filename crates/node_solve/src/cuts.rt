// The cuts of a relaxation: lent by the pool as long as they are its first ones, and copied where another one is added.
ghost use Rattle.std.specs.Prelude.{◌≡◌, ◌<◌, ◌≤◌, [], ◌∷◌, ◌++◌, length, IfOk, IfSome};
ghost use Rattle.node_solve.specs.Places.{live_cuts, live_places};
ghost use Rattle.node_solve.specs.private.Places.{places_from, IsFirstCount};
ghost use Rattle.lp_model.specs.Limits.{pool_limit};

use crate::places::{CUT_LIMIT, LiveCuts, push_copy};
use cover_cuts::CutPool;
use lp_model::CutRow;
use std::alloc::{AllocError, Global};
use std::mem;

/// The cuts of a relaxation. Contracts see the list.
#[derive(Drop)]
pub struct RelaxationCuts<'a> {
    lent: &'a [CutRow],
    own: Vec<CutRow>,
    is_lent: bool,
}

impl<'a> std::marker::Model for RelaxationCuts<'a> {
    ghost use Rattle.std.specs.Prelude.{List, if◌then◌else◌};
    ghost use Rattle.lp_model.specs.declared.types.CutRow.{CutRow};

    ghost Value = { List CutRow };

    ghost view = { λ c. if c.is_lent then c.lent.now else c.own.items };
}

/// Equal cuts, with room for as many as a relaxation may have.
fn copies(alloc: Global, cuts: &[CutRow]) -> Result<Vec<CutRow>, AllocError>
    ensures { IfOk result (λ v. v.items ≡ cuts.now) }
{
    let Ok(mut own) = Vec::with_capacity(alloc, CUT_LIMIT) else {
        return Err(AllocError);
    };
    for cut in cuts {
        let Ok(()) = push_copy(&mut own, cut) else {
            drop(own);
            return Err(AllocError);
        };
    }
    Ok(own)
}

/// Equal cuts and one more.
fn with_cut(alloc: Global, cuts: &[CutRow], cut: CutRow) -> Result<Vec<CutRow>, AllocError>
    ensures { IfOk result (λ v. v.items ≡ cuts.now ++ cut ∷ []) }
{
    match copies(alloc, cuts) {
        Ok(mut own) => match own.push(cut) {
            Ok(()) => Ok(own),
            Err(error) => {
                drop(own);
                Err(error.into())
            }
        },
        Err(error) => {
            drop(cut);
            Err(error)
        }
    }
}

/// Puts cuts in the place of others.
fn put_cuts(place: &mut Vec<CutRow>, cuts: Vec<CutRow>)
    ensures { place.new.items ≡ cuts.items }
{
    drop(mem::replace(place, cuts));
}

impl RelaxationCuts<'_> {
    /// The list.
    pub fn as_slice(&self) -> &[CutRow]
        ensures value { result.now ≡ self.now }
    {
        if self.is_lent {
            self.lent
        } else {
            self.own.as_slice()
        }
    }

    /// How many there are.
    pub fn len(&self) -> usize
        ensures { result ≡ length self.now }
    {
        self.as_slice().len()
    }

    /// One more.
    pub fn push(&mut self, alloc: Global, cut: CutRow) -> Result<(), AllocError>
        ensures items { IfOk result (λ _. self.new ≡ self.old ++ cut ∷ []) }
    {
        if self.is_lent {
            let Ok(own) = with_cut(alloc, self.lent, cut) else {
                return Err(AllocError);
            };
            put_cuts(&mut self.own, own);
            self.is_lent = false;
            return Ok(());
        }
        match self.own.push(cut) {
            Ok(()) => {}
            Err(error) => return Err(error.into()),
        }
        Ok(())
    }
}

/// How many of so many cuts a relaxation may have.
fn allowed(count: usize) -> usize
    ensures within { result ≤ count }
    ensures few { result ≤ 200 }
    ensures all { result < 200 → result ≡ count }
{
    if count < CUT_LIMIT { count } else { CUT_LIMIT }
}

/// How many cuts of a pool the relaxation has, where these are the first ones. None where a cut before the last of them does
/// not count.
fn first_count(rows: &[CutRow]) -> Option<usize>
    ensures { IfSome result (IsFirstCount rows.now) }
{
    let count = allowed(rows.len());
    for place in 0..count {
        let cut = &rows[place];
        if !cut.live {
            return None;
        }
    }
    Some(count)
}

/// The numbers below this.
fn own_places(alloc: Global, count: usize) -> Result<Vec<usize>, AllocError>
    ensures { IfOk result (λ v. v.items ≡ places_from 0 count) }
{
    let Ok(mut places) = Vec::with_capacity(alloc, count) else {
        return Err(AllocError);
    };
    for place in 0..count {
        let Ok(()) = places.push(place) else {
            drop(places);
            return Err(AllocError);
        };
    }
    Ok(places)
}

/// The first cuts of a pool that count, and their places, without copies where that can be.
#[derive(Drop)]
pub struct FirstCuts<'a> {
    pub cuts: RelaxationCuts<'a>,
    pub places: Vec<usize>,
}

/// The first 200 cuts that count, fewer where there are no more.
pub(crate) fn first_cuts<'a>(alloc: Global, pool: &'a CutPool) -> Result<FirstCuts<'a>, AllocError>
    ensures cuts { IfOk result (λ first. first.cuts ≡ live_cuts 200 pool.now) }
    ensures places { IfOk result (λ first. first.places.items ≡ live_places 200 0 pool.now) }
    ensures few { length pool.now ≤ pool_limit }
{
    let rows = pool.rows();
    match first_count(rows) {
        Some(count) => {
            let Ok(places) = own_places(alloc, count) else {
                return Err(AllocError);
            };
            Ok(FirstCuts {
                cuts: RelaxationCuts {
                    lent: &rows[..count],
                    own: Vec::new(alloc),
                    is_lent: true,
                },
                places,
            })
        }
        None => {
            let Ok(live) = LiveCuts::new(alloc, pool) else {
                return Err(AllocError);
            };
            Ok(FirstCuts {
                cuts: RelaxationCuts {
                    lent: rows,
                    own: live.cuts,
                    is_lent: false,
                },
                places: live.places,
            })
        }
    }
}
