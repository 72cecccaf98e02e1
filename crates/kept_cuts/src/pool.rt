// The cuts of a pool after an edit of the model.
ghost use Rattle.std.specs.Prelude.{◌≡◌, ◌<◌, ◌++◌, ◌∷◌, [], length, map, IfOk, MatchResult};
ghost use Rattle.lp_model.specs.Limits.{pool_limit};
ghost use Rattle.lp_model.specs.Elements.{place_after};
ghost use Rattle.lp_model.specs.Edits.{EditFits, edited};
ghost use Rattle.lp_model.specs.declared.types.CutRow.{CutRow};
ghost use Rattle.cover_cuts.specs.Cuts.{IsCutOf, IsPoolOf};
ghost use Rattle.kept_cuts.specs.Kept.{names_column, goes_with, literal_after, derivation_after, gone_with, IsPoolAfter};
ghost use Rattle.kept_cuts.specs.private.Kept.{one_if, KeepsCut};
ghost use Rattle.kept_cuts.specs.private.Spared.{spares};

use crate::copies::copy_derivation;
use branch_tree::{col_of, row_of};
use cover_cuts::{CutPool, PoolFault};
use lp_model::{ColId, CutId, CutRow, Derivation, Edit, List, Literal, Model, RowId, place_after};
use std::alloc::{AllocError, Global};

/// Whether a literal is of the column.
fn names_column(literals: &[Literal], col: u32) -> bool
    ensures { result ≡ names_column col literals.now }
{
    literals.iter().any(|literal| literal.col.0 == col)
}

/// Whether the cut of the derivation goes with an edit: its row is taken out, or the column of a literal is.
fn goes_with(model: &Model, edit: &Edit, from: &Derivation) -> bool
    requires { EditFits model.now edit.now }
    ensures { result ≡ goes_with model.now edit.now from.now }
{
    match edit {
        Edit::DelRow { row } => from.row.0 == row_of(model, row),
        Edit::DelCol { col } => names_column(from.literals.as_slice(), col_of(model, col)),
        _ => false,
    }
}

/// A literal once a column is taken out that it is not of.
fn literal_after(gone: u32, literal: &Literal) -> Literal
    ensures { result ≡ literal_after gone literal.now }
{
    Literal {
        col: ColId(place_after(gone, literal.col.0)),
        plus: literal.plus,
    }
}

/// The literals once a column is taken out that none of them is of.
fn literals_after(
    alloc: Global,
    literals: &[Literal],
    gone: u32,
) -> Result<List<Literal>, AllocError>
    ensures { IfOk result (λ ls. ls ≡ map (literal_after gone) literals.now) }
{
    let mut after = List::new(alloc);
    for literal in literals {
        let Ok(()) = after.push(literal_after(gone, literal)) else {
            return Err(AllocError);
        };
    }
    Ok(after)
}

/// The derivation once a row is taken out that it is not from.
fn without_row(alloc: Global, from: &Derivation, gone: u32) -> Result<Derivation, AllocError>
    ensures { IfOk result (λ d. d ≡ record { row = record { 0 = place_after gone from.now.row.0 }; side = from.now.side; literals = from.now.literals }) }
{
    let literals = from.literals.copy(alloc)?;
    Ok(Derivation {
        row: RowId(place_after(gone, from.row.0)),
        side: from.side,
        literals,
    })
}

/// The derivation once a column is taken out that none of its literals is of.
fn without_column(alloc: Global, from: &Derivation, gone: u32) -> Result<Derivation, AllocError>
    ensures { IfOk result (λ d. d ≡ record { row = from.now.row; side = from.now.side; literals = map (literal_after gone) from.now.literals }) }
{
    let literals = literals_after(alloc, from.literals.as_slice(), gone)?;
    Ok(Derivation {
        row: from.row,
        side: from.side,
        literals,
    })
}

/// The derivation of a cut that stays, by the places that it names after an edit.
fn derivation_after(
    alloc: Global,
    model: &Model,
    edit: &Edit,
    from: &Derivation,
) -> Result<Derivation, AllocError>
    requires { EditFits model.now edit.now }
    ensures { IfOk result (λ d. d ≡ derivation_after model.now edit.now from.now) }
{
    match edit {
        Edit::DelRow { row } => without_row(alloc, from, row_of(model, row)),
        Edit::DelCol { col } => without_column(alloc, from, col_of(model, col)),
        _ => copy_derivation(from),
    }
}

/// Notes the place of a cut that goes.
fn note(gone: &mut Vec<CutId>, goes: bool, place: usize) -> Result<(), AllocError>
    requires { place < pool_limit }
    ensures { IfOk result (λ _. gone.new.items ≡ gone.old.items ++ one_if goes place) }
{
    if !goes {
        return Ok(());
    }
    gone.push(CutId(place as u32))?;
    Ok(())
}

/// The places of the cuts that go with an edit.
pub fn gone_with(
    alloc: Global,
    model: &Model,
    edit: &Edit,
    pool: &CutPool,
) -> Result<Vec<CutId>, AllocError>
    requires { EditFits model.now edit.now }
    ensures { IfOk result (λ gone. gone.items ≡ gone_with model.now edit.now pool.now) }
{
    let cuts = pool.rows();
    let mut gone = Vec::new(alloc);
    for place in 0..cuts.len() {
        let goes = goes_with(model, edit, &cuts[place].from);
        note(&mut gone, goes, place)?;
    }
    Ok(gone)
}

/// Adds the cut of a derivation to a pool that has room. For want of memory the pool stays as it is.
pub fn add_derivation(pool: &mut CutPool, model: &Model, from: Derivation) -> Result<(), AllocError>
    requires { length pool.old < pool_limit }
    ensures { MatchResult result (λ _. (c : CutRow) × ((pool.new ≡ pool.old ++ c ∷ []) × (c.from ≡ from) × IsCutOf model.now c)) (λ _. pool.new ≡ pool.old) }
{
    match pool.add(model, from) {
        Ok(_) => Ok(()),
        Err(PoolFault::Full) => unreachable!(),
        Err(PoolFault::Memory) => Err(AllocError),
    }
}

/// Adds the cut of a derivation that stays after an edit of the old model, derived again in the new one.
fn keep(
    after: &mut CutPool,
    alloc: Global,
    old: &Model,
    edit: &Edit,
    new: &Model,
    from: &Derivation,
) -> Result<(), AllocError>
    requires fits { EditFits old.now edit.now }
    requires room { length after.old < pool_limit }
    ensures { IfOk result (λ _. KeepsCut old.now edit.now new.now from.now after.old after.new) }
{
    if goes_with(old, edit, from) {
        return Ok(());
    }
    let moved = derivation_after(alloc, old, edit, from)?;
    add_derivation(after, new, moved)?;
    Ok(())
}

/// Whether an edit leaves all that the derivation reads, and at most moves its row: a cost, another row, or a row that is new.
fn spares(model: &Model, edit: &Edit, from: &Derivation) -> bool
    requires { EditFits model.now edit.now }
    ensures { result ≡ spares model.now edit.now from.now }
{
    match edit {
        Edit::SetCost { .. } => true,
        Edit::SetCost2 { .. } => true,
        Edit::SetRow { row, .. } => from.row.0 != row_of(model, row),
        Edit::DelRow { row } => from.row.0 != row_of(model, row),
        Edit::AddRow { .. } => (from.row.0 as usize) < model.rows().len(),
        _ => false,
    }
}

/// The cut with another derivation in place of its own.
pub fn with_derivation(alloc: Global, cut: &CutRow, from: Derivation) -> Result<CutRow, AllocError>
    ensures from { IfOk result (λ c. c.from ≡ from) }
    ensures terms { IfOk result (λ c. c.terms ≡ cut.now.terms) }
    ensures high { IfOk result (λ c. c.hi ≡ cut.now.hi) }
    ensures live { IfOk result (λ c. c.live ≡ cut.now.live) }
{
    Ok(CutRow {
        from,
        terms: cut.terms.copy(alloc)?,
        hi: cut.hi,
        live: cut.live,
    })
}

/// Adds a cut of the old model that stays after an edit: as it stands where the edit spares it, and else derived again.
fn keep_cut(
    after: &mut CutPool,
    alloc: Global,
    old: &Model,
    edit: &Edit,
    new: &Model,
    cut: &CutRow,
) -> Result<(), AllocError>
    requires fits { EditFits old.now edit.now }
    requires edited { new.now ≡ edited old.now edit.now }
    requires cut { IsCutOf old.now cut.now }
    requires room { length after.old < pool_limit }
    ensures { IfOk result (λ _. KeepsCut old.now edit.now new.now cut.now.from after.old after.new) }
{
    if !spares(old, edit, &cut.from) {
        return keep(after, alloc, old, edit, new, &cut.from);
    }
    let moved = derivation_after(alloc, old, edit, &cut.from)?;
    let same = with_derivation(alloc, cut, moved)?;
    after.add_cut_row(new, same)?;
    Ok(())
}

/// The cuts of a pool of the old model that stay at the edited one. Those that the edit spares are taken over as they stand,
/// the others are derived again.
pub fn pool_after(
    alloc: Global,
    old: &Model,
    edit: &Edit,
    new: &Model,
    pool: &CutPool,
) -> Result<CutPool, AllocError>
    requires fits { EditFits old.now edit.now }
    requires edited { new.now ≡ edited old.now edit.now }
    requires pool { IsPoolOf old.now pool.now }
    ensures { IfOk result (λ after. IsPoolAfter old.now edit.now pool.now new.now after) }
{
    let mut after = CutPool::new(alloc);
    let cuts = pool.rows();
    for cut in cuts {
        keep_cut(&mut after, alloc, old, edit, new, cut)?;
    }
    Ok(after)
}
