// The numbers of a gap, and which of them has no room.
ghost use Rattle.std.specs.Prelude.{◌≡◌, ◌↔◌, ◌-ℤ◌, All, IsTrue, IfOk, OnOk, IfErr, MatchOption};
ghost use Rattle.frac128.specs.Range.{IsNarrow};
ghost use Rattle.frac128.specs.Rational.{int};
ghost use Rattle.gap_models.specs.Gaps.{HasTerms, HasWidth, HasSides, IsGapOf, FitsGap, IsFirstWideColumn, IsFirstGapPlace};
ghost use Rattle.gap_models.specs.private.Parts.{IsWeighed, AreSidesOf};

use frac128::Frac;
use frontier::Outcome;
use lp_model::{Col, ColId, Model};

/// The numbers of a gap: the weights `a` and `b` of `f1` and `f2`, its width `a*b`, and the sides `a*i1` and `b*i2` of its rows.
#[derive(Clone, Copy, Drop)]
pub struct Gap {
    pub a: Frac,
    pub b: Frac,
    pub width: Frac,
    pub side1: Frac,
    pub side2: Frac,
}

/// Where a number of a gap has no room: a weight or the width, a column's coefficient, or a row's side.
#[derive(Clone, Copy, Drop)]
pub enum GapPlace {
    Width,
    Col(ColId),
    Side,
}

/// The weights of a gap and its width.
#[derive(Clone, Copy, Drop)]
pub(crate) struct Weights {
    pub(crate) a: Frac,
    pub(crate) b: Frac,
    pub(crate) width: Frac,
}

/// The sides of the rows of a gap.
#[derive(Clone, Copy, Drop)]
pub(crate) struct Sides {
    pub(crate) first: Frac,
    pub(crate) second: Frac,
}

/// The difference of two whole numbers.
fn difference(left: i128, right: i128) -> Option<Frac>
    requires left { IsNarrow left }
    requires right { IsNarrow right }
    ensures { MatchOption result (¬ IsNarrow (left -ℤ right)) (λ d. IsNarrow (left -ℤ right) × (d ≡ int (left -ℤ right))) }
{
    match Frac::of_whole(left).sub(&Frac::of_whole(right)) {
        Ok(difference) => Some(difference),
        Err(_) => None,
    }
}

/// The weights and the width, if they have room.
fn weights_between(p2: i128, q1: i128, i1: i128, i2: i128) -> Option<Weights>
    requires p2 { IsNarrow p2 }
    requires q1 { IsNarrow q1 }
    requires i1 { IsNarrow i1 }
    requires i2 { IsNarrow i2 }
    ensures { MatchOption result (¬ HasWidth (p2 -ℤ i2) (q1 -ℤ i1)) (λ w. HasWidth (p2 -ℤ i2) (q1 -ℤ i1) × IsWeighed (p2 -ℤ i2) (q1 -ℤ i1) w) }
{
    let Some(a) = difference(p2, i2) else {
        return None;
    };
    let Some(b) = difference(q1, i1) else {
        return None;
    };
    match a.mul(&b) {
        Ok(width) => Some(Weights { a, b, width }),
        Err(_) => None,
    }
}

/// Whether the column's coefficients in the two rows have room.
fn has_terms(weights: &Weights, col: &Col) -> bool
    ensures { IsTrue result ↔ HasTerms weights.now.a weights.now.b col.now }
{
    weights.a.mul(&col.cost).is_ok() && weights.b.mul(&col.cost2).is_ok()
}

/// The first column of which a coefficient has no room.
fn first_wide_column(model: &Model, weights: &Weights) -> Option<ColId>
    ensures { MatchOption result (All (HasTerms weights.now.a weights.now.b) model.now.cols) (IsFirstWideColumn weights.now.a weights.now.b model.now.cols) }
{
    for (index, col) in model.cols().iter().enumerate() {
        if !has_terms(weights, col) {
            return Some(ColId(index as u32));
        }
    }
    None
}

/// The sides of the rows, if they have room.
fn row_sides(weights: &Weights, i1: i128, i2: i128) -> Option<Sides>
    requires i1 { IsNarrow i1 }
    requires i2 { IsNarrow i2 }
    ensures { MatchOption result (¬ HasSides weights.now.a weights.now.b i1 i2) (λ s. HasSides weights.now.a weights.now.b i1 i2 × AreSidesOf weights.now.a weights.now.b i1 i2 s) }
{
    let Ok(first) = weights.a.mul(&Frac::of_whole(i1)) else {
        return None;
    };
    match weights.b.mul(&Frac::of_whole(i2)) {
        Ok(second) => Some(Sides { first, second }),
        Err(_) => None,
    }
}

impl Gap {
    /// The gap between `p` and `q` over the least values, or the first of its numbers that has no room.
    pub fn between(
        model: &Model,
        p: &Outcome,
        q: &Outcome,
        i1: i128,
        i2: i128,
    ) -> Result<Gap, GapPlace>
        requires p { IsNarrow p.now.f2 }
        requires q { IsNarrow q.now.f1 }
        requires i1 { IsNarrow i1 }
        requires i2 { IsNarrow i2 }
        ensures gap { IfOk result (IsGapOf (p.now.f2 -ℤ i2) (q.now.f1 -ℤ i1) i1 i2) }
        ensures fits { OnOk result (FitsGap model.now (p.now.f2 -ℤ i2) (q.now.f1 -ℤ i1) i1 i2) }
        ensures wide { IfErr result (IsFirstGapPlace model.now (p.now.f2 -ℤ i2) (q.now.f1 -ℤ i1) i1 i2) }
    {
        let Some(weights) = weights_between(p.f2, q.f1, i1, i2) else {
            return Err(GapPlace::Width);
        };
        if let Some(col) = first_wide_column(model, &weights) {
            return Err(GapPlace::Col(col));
        }
        match row_sides(&weights, i1, i2) {
            Some(sides) => Ok(Gap {
                a: weights.a,
                b: weights.b,
                width: weights.width,
                side1: sides.first,
                side2: sides.second,
            }),
            None => Err(GapPlace::Side),
        }
    }
}
