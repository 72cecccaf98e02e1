// The cuts of a relaxation beside those of a pool, and the lists that name them.
ghost use Rattle.std.specs.Prelude.{◌≡◌, ◌≤◌, ◌+◌, ◌-◌, ◌++◌, ◌∷◌, [], length, map, get_or, IsTrue, IfOk};
ghost use Rattle.branch_tree.specs.declared.node.NodeResult.TheVariants.{Close, Split, PointAndClose, Keep};
ghost use Rattle.kept_cuts.specs.Places.{index_among};
ghost use Rattle.node_solve.specs.Places.{live_cuts, live_places, ArePoolPlaces, var_in_relaxation, var_in_pool, basis_in_relaxation, basis_in_pool, mult_in_pool, result_in_pool, with_cut_variables};
ghost use Rattle.node_solve.specs.private.Places.{AreOwnPlaces};
ghost use Rattle.lp_model.specs.Limits.{pool_limit};

use branch_tree::NodeResult;
use cover_cuts::CutPool;
use frac128::Frac;
use lp_model::{Basis, ColId, CutId, CutRow, List, Mult, Point, Var};
use std::alloc::{AllocError, Global};

/// How many cuts a relaxation may have.
pub(crate) const CUT_LIMIT: usize = 200;

/// Puts an equal cut behind the others.
pub(crate) fn push_copy(cuts: &mut Vec<CutRow>, cut: &CutRow) -> Result<(), AllocError>
    ensures { IfOk result (λ _. cuts.new.items ≡ cuts.old.items ++ cut.now ∷ []) }
{
    let Ok(copy) = cut.clone() else {
        return Err(AllocError);
    };
    match cuts.push(copy) {
        Ok(()) => Ok(()),
        Err(error) => Err(error.into()),
    }
}

/// Notes a cut and its place, where it counts and there is room.
fn note(
    cuts: &mut Vec<CutRow>,
    places: &mut Vec<usize>,
    cut: &CutRow,
    place: usize,
) -> Result<(), AllocError>
    ensures cuts { IfOk result (λ _. cuts.new.items ≡ cuts.old.items ++ live_cuts (200 - length cuts.old.items) (cut.now ∷ [])) }
    ensures places { IfOk result (λ _. places.new.items ≡ places.old.items ++ live_places (200 - length cuts.old.items) place (cut.now ∷ [])) }
{
    let count = cuts.len();
    if count >= CUT_LIMIT {
        return Ok(());
    }
    if !cut.live {
        return Ok(());
    }
    let Ok(()) = push_copy(cuts, cut) else {
        return Err(AllocError);
    };
    let Ok(()) = places.push(place) else {
        return Err(AllocError);
    };
    Ok(())
}

/// The first cuts of a pool that count, and their places. A relaxation has these.
#[derive(Drop)]
pub struct LiveCuts {
    pub cuts: Vec<CutRow>,
    pub places: Vec<usize>,
}

impl LiveCuts {
    /// The first 200 cuts that count, fewer where there are no more.
    pub fn new(alloc: Global, pool: &CutPool) -> Result<LiveCuts, AllocError>
        ensures cuts { IfOk result (λ live. live.cuts.items ≡ live_cuts 200 pool.now) }
        ensures places { IfOk result (λ live. live.places.items ≡ live_places 200 0 pool.now) }
        ensures few { length pool.now ≤ pool_limit }
    {
        let rows = pool.rows();
        let mut cuts = Vec::new(alloc);
        let mut places = Vec::new(alloc);
        for place in 0..rows.len() {
            let Ok(()) = note(&mut cuts, &mut places, &rows[place], place) else {
                drop(cuts);
                drop(places);
                return Err(AllocError);
            };
        }
        Ok(LiveCuts { cuts, places })
    }
}

/// Where a place stands among others, past the last where it does not.
fn index_among(place: usize, places: &[usize]) -> usize
    ensures { result ≡ index_among place places.now }
{
    for index in 0..places.len() {
        if places[index] == place {
            return index;
        }
    }
    places.len()
}

/// Whether each cut of the relaxation has its own place: so it is where the first cuts of the pool count.
fn are_own_places(places: &[usize]) -> bool
    ensures { IsTrue result → AreOwnPlaces places.now }
{
    for index in 0..places.len() {
        if places[index] != index {
            return false;
        }
    }
    true
}

/// Where a place stands among others, past the last where it does not. Where each is its own, nothing is searched.
fn cut_index(place: usize, places: &[usize], are_own: bool) -> usize
    requires { IsTrue are_own → AreOwnPlaces places.now }
    ensures { result ≡ index_among place places.now }
{
    if !are_own {
        return index_among(place, places);
    }
    let count = places.len();
    if place < count { place } else { count }
}

/// A variable of a pool, in the relaxation whose cuts have these places.
fn var_in_relaxation(places: &[usize], are_own: bool, var: &Var) -> Var
    requires few { length places.now ≤ 200 }
    requires own { IsTrue are_own → AreOwnPlaces places.now }
    ensures { result ≡ var_in_relaxation places.now var.now }
{
    match var {
        Var::Col(col) => Var::Col(*col),
        Var::Row(row) => Var::Row(*row),
        Var::Cut(cut) => Var::Cut(CutId(cut_index(cut.0 as usize, places, are_own) as u32)),
    }
}

/// The place of a cut of the relaxation, 0 past the end.
fn place_at(places: &[usize], cut: u32) -> usize
    ensures { result ≡ get_or places.now cut 0 }
{
    match places.get(cut as usize) {
        Some(place) => *place,
        None => 0,
    }
}

/// A variable of the relaxation whose cuts have these places, in the pool.
fn var_in_pool(places: &[usize], var: &Var) -> Var
    requires { ArePoolPlaces places.now }
    ensures { result ≡ var_in_pool places.now var.now }
{
    match var {
        Var::Col(col) => Var::Col(*col),
        Var::Row(row) => Var::Row(*row),
        Var::Cut(cut) => Var::Cut(CutId(place_at(places, cut.0) as u32)),
    }
}

/// The variables of a pool, in the relaxation.
fn vars_in_relaxation(
    alloc: Global,
    places: &[usize],
    vars: &[Var],
) -> Result<List<Var>, AllocError>
    requires { length places.now ≤ 200 }
    ensures { IfOk result (λ vs. vs ≡ map (var_in_relaxation places.now) vars.now) }
{
    let are_own = are_own_places(places);
    let mut named = List::new(alloc);
    for var in vars {
        let Ok(()) = named.push(var_in_relaxation(places, are_own, var)) else {
            drop(named);
            return Err(AllocError);
        };
    }
    Ok(named)
}

/// The variables of the relaxation, in the pool.
fn vars_in_pool(alloc: Global, places: &[usize], vars: &[Var]) -> Result<List<Var>, AllocError>
    requires { ArePoolPlaces places.now }
    ensures { IfOk result (λ vs. vs ≡ map (var_in_pool places.now) vars.now) }
{
    let mut named = List::new(alloc);
    for var in vars {
        let Ok(()) = named.push(var_in_pool(places, var)) else {
            drop(named);
            return Err(AllocError);
        };
    }
    Ok(named)
}

/// A basis that a leaf keeps, in the relaxation.
pub fn basis_in_relaxation(
    alloc: Global,
    places: &[usize],
    basis: &Basis,
) -> Result<Basis, AllocError>
    requires { length places.now ≤ 200 }
    ensures { IfOk result (λ b. b ≡ basis_in_relaxation places.now basis.now) }
{
    let Ok(basic) = vars_in_relaxation(alloc, places, basis.basic.as_slice()) else {
        return Err(AllocError);
    };
    match vars_in_relaxation(alloc, places, basis.high.as_slice()) {
        Ok(high) => Ok(Basis { basic, high }),
        Err(error) => {
            drop(basic);
            Err(error)
        }
    }
}

/// A basis of the relaxation as a leaf keeps it.
pub fn basis_in_pool(alloc: Global, places: &[usize], basis: &Basis) -> Result<Basis, AllocError>
    requires { ArePoolPlaces places.now }
    ensures { IfOk result (λ b. b ≡ basis_in_pool places.now basis.now) }
{
    let Ok(basic) = vars_in_pool(alloc, places, basis.basic.as_slice()) else {
        return Err(AllocError);
    };
    match vars_in_pool(alloc, places, basis.high.as_slice()) {
        Ok(high) => Ok(Basis { basic, high }),
        Err(error) => {
            drop(basic);
            Err(error)
        }
    }
}

/// Multipliers of the relaxation as a leaf keeps them.
fn mult_in_pool(alloc: Global, places: &[usize], mult: &[(Var, Frac)]) -> Result<Mult, AllocError>
    requires { ArePoolPlaces places.now }
    ensures { IfOk result (λ m. m ≡ mult_in_pool places.now mult.now) }
{
    let mut named = List::new(alloc);
    for (var, number) in mult {
        let Ok(()) = named.push((var_in_pool(places, var), *number)) else {
            drop(named);
            return Err(AllocError);
        };
    }
    Ok(named)
}

/// Multipliers and a basis of the relaxation as a leaf keeps them.
fn lists_in_pool(
    alloc: Global,
    places: &[usize],
    mult: &[(Var, Frac)],
    basis: &Basis,
) -> Result<(Mult, Basis), AllocError>
    requires { ArePoolPlaces places.now }
    ensures mult { IfOk result (λ both. both.0 ≡ mult_in_pool places.now mult.now) }
    ensures basis { IfOk result (λ both. both.1 ≡ basis_in_pool places.now basis.now) }
{
    let Ok(named) = mult_in_pool(alloc, places, mult) else {
        return Err(AllocError);
    };
    match basis_in_pool(alloc, places, basis) {
        Ok(basis) => Ok((named, basis)),
        Err(error) => {
            drop(named);
            Err(error)
        }
    }
}

/// What closes a leaf, as it is placed.
fn close_in_pool(
    alloc: Global,
    places: &[usize],
    mult: &[(Var, Frac)],
    farkas: &[(Var, Frac)],
    basis: &Basis,
) -> Result<NodeResult, AllocError>
    requires { ArePoolPlaces places.now }
    ensures { IfOk result (λ placed. placed ≡ Close (mult_in_pool places.now mult.now) (mult_in_pool places.now farkas.now) (basis_in_pool places.now basis.now)) }
{
    let Ok((mult, basis)) = lists_in_pool(alloc, places, mult, basis) else {
        return Err(AllocError);
    };
    match mult_in_pool(alloc, places, farkas) {
        Ok(farkas) => Ok(NodeResult::Close {
            mult,
            farkas,
            basis,
        }),
        Err(error) => {
            drop(mult);
            drop(basis);
            Err(error)
        }
    }
}

/// What splits a leaf, as it is placed.
fn split_in_pool(
    alloc: Global,
    places: &[usize],
    col: ColId,
    v: i128,
    mult: &[(Var, Frac)],
    basis: &Basis,
) -> Result<NodeResult, AllocError>
    requires { ArePoolPlaces places.now }
    ensures { IfOk result (λ placed. placed ≡ Split col v (mult_in_pool places.now mult.now) (basis_in_pool places.now basis.now)) }
{
    match lists_in_pool(alloc, places, mult, basis) {
        Ok((mult, basis)) => Ok(NodeResult::Split {
            col,
            v,
            mult,
            basis,
        }),
        Err(error) => Err(error),
    }
}

/// A point that closes a leaf, as it is placed.
fn point_in_pool(
    alloc: Global,
    places: &[usize],
    point: Point,
    mult: &[(Var, Frac)],
    basis: &Basis,
) -> Result<NodeResult, AllocError>
    requires { ArePoolPlaces places.now }
    ensures { IfOk result (λ placed. placed ≡ PointAndClose point (mult_in_pool places.now mult.now) (basis_in_pool places.now basis.now)) }
{
    match lists_in_pool(alloc, places, mult, basis) {
        Ok((mult, basis)) => Ok(NodeResult::PointAndClose { point, mult, basis }),
        Err(error) => {
            drop(point);
            Err(error)
        }
    }
}

/// What leaves a leaf open, as it is placed.
fn keep_in_pool(
    alloc: Global,
    places: &[usize],
    point: Option<Point>,
    basis: &Basis,
) -> Result<NodeResult, AllocError>
    requires { ArePoolPlaces places.now }
    ensures { IfOk result (λ placed. placed ≡ Keep point (basis_in_pool places.now basis.now)) }
{
    match basis_in_pool(alloc, places, basis) {
        Ok(basis) => Ok(NodeResult::Keep { point, basis }),
        Err(error) => {
            drop(point);
            Err(error)
        }
    }
}

/// A result of the relaxation as it is placed.
pub(crate) fn result_in_pool(
    alloc: Global,
    places: &[usize],
    own: NodeResult,
) -> Result<NodeResult, AllocError>
    requires { ArePoolPlaces places.now }
    ensures { IfOk result (λ placed. placed ≡ result_in_pool places.now own) }
{
    match own {
        NodeResult::Close {
            mult,
            farkas,
            basis,
        } => {
            let placed = close_in_pool(alloc, places, mult.as_slice(), farkas.as_slice(), &basis);
            drop(mult);
            drop(farkas);
            drop(basis);
            placed
        }
        NodeResult::Split {
            col,
            v,
            mult,
            basis,
        } => {
            let placed = split_in_pool(alloc, places, col, v, mult.as_slice(), &basis);
            drop(mult);
            drop(basis);
            placed
        }
        NodeResult::PointAndClose { point, mult, basis } => {
            let placed = point_in_pool(alloc, places, point, mult.as_slice(), &basis);
            drop(mult);
            drop(basis);
            placed
        }
        NodeResult::Keep { point, basis } => {
            let placed = keep_in_pool(alloc, places, point, &basis);
            drop(basis);
            placed
        }
    }
}

/// A copy of the basis with the activities of so many cuts, from the one at a place on, basic besides.
pub(crate) fn with_cut_variables(
    alloc: Global,
    basis: &Basis,
    from: usize,
    count: usize,
) -> Result<Basis, AllocError>
    requires { from + count ≤ 200 }
    ensures { IfOk result (λ b. b ≡ with_cut_variables basis.now from count) }
{
    let Ok(mut with) = basis.copy(alloc) else {
        return Err(AllocError);
    };
    for index in 0..count {
        let Ok(()) = with.basic.push(Var::Cut(CutId((from + index) as u32))) else {
            drop(with);
            return Err(AllocError);
        };
    }
    Ok(with)
}
