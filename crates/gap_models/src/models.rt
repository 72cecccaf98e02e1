// The rows of a gap, and the inner models.
ghost use Rattle.std.specs.Prelude.{◌≡◌, ◌⊎◌, ◌++◌, ◌∷◌, [], ℤ, map, nat_eq, if◌then◌else◌, pos, negsuc, true, All, IfOk};
ghost use Rattle.frac128.specs.Rational.{int, ◌*ℚ◌};
ghost use Rattle.frac128.specs.Range.{Fits};
ghost use Rattle.lp_model.specs.Edits.{edited, EditFits};
ghost use Rattle.inner_models.specs.Inner.{costed, z_name, g1_name, g2_name, row_terms, capped, least2_model, gap_start, gap_model};
ghost use Rattle.inner_models.specs.Room.{HasInnerRoom};
ghost use Rattle.gap_models.specs.Gaps.{HasTerms, IsGapOf, FitsGap};
ghost use Rattle.gap_models.specs.Rows.{AreRowsOf};

use crate::gaps::Gap;
use crate::names::{g1_name, g2_name, z_name};
use frac128::Frac;
use lp_model::{Col, Edit, List, Model, Name, copy_name};
use model_edits::{EditFault, apply};
use model_points::without_costs;
use std::alloc::{AllocError, Global};

/// The numbers of the two rows of a gap, beside the names of the columns.
#[derive(Drop)]
pub struct GapRows {
    pub first: List<(Name, Frac)>,
    pub second: List<(Name, Frac)>,
}

/// One more number beside a name.
fn push_named(list: &mut List<(Name, Frac)>, name: &Name, number: Frac) -> Result<(), AllocError>
    ensures { IfOk result (λ _. list.new ≡ list.old ++ (name.now, number) ∷ []) }
{
    match copy_name(name) {
        Ok(name) => list.push((name, number)),
        Err(error) => Err(error),
    }
}

/// The costs of an objective times a weight, beside the names of the columns.
fn weighed_costs(
    alloc: Global,
    cols: &[Col],
    which: u8,
    weight: &Frac,
) -> Result<List<(Name, Frac)>, AllocError>
    requires { All (λ c. Fits (weight.now *ℚ (if nat_eq which 2 then c.cost2 else c.cost))) cols.now }
    ensures { IfOk result (λ list. list ≡ map (λ c. (c.name, weight.now *ℚ (if nat_eq which 2 then c.cost2 else c.cost))) cols.now) }
{
    let mut list = List::new(alloc);
    for col in cols {
        let Ok(number) = weight.mul(col.cost_in(which)) else {
            unreachable!()
        };
        let Ok(()) = push_named(&mut list, &col.name, number) else {
            drop(list);
            return Err(AllocError);
        };
    }
    Ok(list)
}

/// The numbers of a row of a gap: the costs of an objective times a weight, and -1 beside the name of the column Z.
fn row_less_z(
    alloc: Global,
    model: &Model,
    which: u8,
    weight: &Frac,
    z: &Name,
) -> Result<List<(Name, Frac)>, AllocError>
    requires { All (λ c. Fits (weight.now *ℚ (if nat_eq which 2 then c.cost2 else c.cost))) model.now.cols }
    ensures { IfOk result (λ list. list ≡ row_terms (λ c. weight.now *ℚ (if nat_eq which 2 then c.cost2 else c.cost)) model.now ++ (z.now, int (negsuc 0)) ∷ []) }
{
    let mut list = match weighed_costs(alloc, model.cols(), which, weight) {
        Ok(list) => list,
        Err(error) => return Err(error),
    };
    match push_named(&mut list, z, Frac::whole(-1)) {
        Ok(()) => Ok(list),
        Err(error) => {
            drop(list);
            Err(error)
        }
    }
}

/// The numbers of the rows of a gap, where Z has this name.
pub fn gap_rows(alloc: Global, model: &Model, gap: &Gap, z: &Name) -> Result<GapRows, AllocError>
    requires name { z.now ≡ z_name model.now }
    requires fits { All (HasTerms gap.now.a gap.now.b) model.now.cols }
    ensures { IfOk result (AreRowsOf model.now gap.now) }
{
    let first = match row_less_z(alloc, model, 1, &gap.a, z) {
        Ok(first) => first,
        Err(error) => return Err(error),
    };
    match row_less_z(alloc, model, 2, &gap.b, z) {
        Ok(second) => Ok(GapRows { first, second }),
        Err(error) => {
            drop(first);
            Err(error)
        }
    }
}

/// The columns with the cost of objective 2 in objective 1 too.
fn second_cols(alloc: Global, cols: &[Col]) -> Result<List<Col>, AllocError>
    ensures { IfOk result (λ list. list ≡ map (costed (λ c. c.cost2)) cols.now) }
{
    let mut list = List::new(alloc);
    for col in cols {
        let Ok(second) = col.with_cost(col.cost2) else {
            drop(list);
            return Err(AllocError);
        };
        let Ok(()) = list.push(second) else {
            drop(list);
            return Err(AllocError);
        };
    }
    Ok(list)
}

/// The model with objective 2 in the place of objective 1.
pub fn least2_model(alloc: Global, model: &Model) -> Result<Model, AllocError>
    ensures { IfOk result (λ m. m ≡ least2_model model.now) }
{
    match second_cols(alloc, model.cols()) {
        Ok(cols) => model.with_cols(cols),
        Err(error) => Err(error),
    }
}

/// An edit that fits.
fn with_edit(alloc: Global, model: Model, edit: Edit) -> Result<Model, AllocError>
    requires { EditFits model edit }
    ensures { IfOk result (λ m. m ≡ edited model edit) }
{
    let mut model = model;
    match apply(&mut model, alloc, edit) {
        Ok(()) => Ok(model),
        Err(EditFault::Memory) => {
            drop(model);
            Err(AllocError)
        }
        Err(EditFault::NoSuch(_)) => unreachable!(),
        Err(EditFault::Duplicate(_)) => unreachable!(),
        Err(EditFault::Limit(_)) => unreachable!(),
        Err(EditFault::IntegerUnbounded(_)) => unreachable!(),
        Err(EditFault::Ranged(_)) => unreachable!(),
    }
}

/// The model with Z alone in objective 1, a column of whole numbers from 0 to the width.
fn with_width(alloc: Global, model: &Model, width: Frac, z: Name) -> Result<Model, AllocError>
    requires name { z ≡ z_name model.now }
    requires whole { (w : ℤ) × (width ≡ int w) }
    requires wide { model.now.wide ≡ true }
    requires room { HasInnerRoom model.now }
    ensures { IfOk result (λ m. (w : ℤ) → width ≡ int w → m ≡ gap_start model.now w) }
{
    let inner = match without_costs(model, alloc) {
        Ok(inner) => inner,
        Err(error) => {
            drop(z);
            return Err(error);
        }
    };
    let column = Edit::AddCol {
        name: z,
        int: true,
        lo: Some(Frac::whole(0)),
        up: Some(width),
        cost: Frac::whole(1),
        cost2: Frac::whole(0),
        entries: List::new(alloc),
    };
    with_edit(alloc, inner, column)
}

/// The model with a further row, whose sum is at most a number.
fn with_cap(
    alloc: Global,
    model: Model,
    name: Name,
    hi: Frac,
    entries: List<(Name, Frac)>,
) -> Result<Model, AllocError>
    requires { EditFits model (capped name hi entries) }
    ensures { IfOk result (λ m. m ≡ edited model (capped name hi entries)) }
{
    let row = Edit::AddRow {
        name,
        lo: None,
        hi: Some(hi),
        entries,
    };
    with_edit(alloc, model, row)
}

/// The model with both rows of a gap.
fn with_rows(
    alloc: Global,
    model: &Model,
    start: Model,
    gap: &Gap,
    rows: GapRows,
) -> Result<Model, AllocError>
    requires first { EditFits start (capped (g1_name model.now) gap.now.side1 rows.first) }
    requires second { EditFits (edited start (capped (g1_name model.now) gap.now.side1 rows.first)) (capped (g2_name model.now) gap.now.side2 rows.second) }
    ensures { IfOk result (λ m. m ≡ edited (edited start (capped (g1_name model.now) gap.now.side1 rows.first)) (capped (g2_name model.now) gap.now.side2 rows.second)) }
{
    let GapRows { first, second } = rows;
    let Ok(g1) = g1_name(alloc, model) else {
        drop(start);
        drop(first);
        drop(second);
        return Err(AllocError);
    };
    let Ok(half) = with_cap(alloc, start, g1, gap.side1, first) else {
        drop(second);
        return Err(AllocError);
    };
    let Ok(g2) = g2_name(alloc, model) else {
        drop(half);
        drop(second);
        return Err(AllocError);
    };
    with_cap(alloc, half, g2, gap.side2, second)
}

/// The model of a gap, which stands on a model in least form without constants.
pub fn gap_model(alloc: Global, model: &Model, gap: &Gap) -> Result<Model, AllocError>
    requires wide { model.now.wide ≡ true }
    requires room { HasInnerRoom model.now }
    requires fits { (a b i1 i2 : ℤ) × (IsGapOf a b i1 i2 gap.now × FitsGap model.now a b i1 i2) }
    ensures { IfOk result (λ m. (a b i1 i2 : ℤ) → IsGapOf a b i1 i2 gap.now → m ≡ gap_model model.now a b i1 i2) }
{
    let z = match z_name(alloc, model) {
        Ok(z) => z,
        Err(error) => return Err(error),
    };
    let rows = match gap_rows(alloc, model, gap, &z) {
        Ok(rows) => rows,
        Err(error) => {
            drop(z);
            return Err(error);
        }
    };
    match with_width(alloc, model, gap.width, z) {
        Ok(start) => with_rows(alloc, model, start, gap, rows),
        Err(error) => {
            drop(rows);
            Err(error)
        }
    }
}
