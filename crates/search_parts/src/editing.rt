// Points after an edit of the model.
ghost use Rattle.std.specs.Prelude.{◌≡◌, ◌++◌, ◌∷◌, [], map, IfOk};
ghost use Rattle.lp_model.specs.Elements.{without_at};
ghost use Rattle.lp_model.specs.Edits.{EditFits};
ghost use Rattle.search_parts.specs.EditedPoints.{low_allowed, high_allowed, raised, lowered, holds_none, nearest_zero, point_after, AreValued};

use crate::keeping::KeptPoints;
use branch_tree::col_of;
use frac128::Frac;
use lp_model::{Bound, Edit, List, Model, Point};
use std::alloc::{AllocError, Global};

/// The lower bound, for an integer column the least whole number allowed.
fn low_allowed(int: bool, lo: &Bound) -> Bound
    ensures { result ≡ low_allowed int lo.now }
{
    match lo {
        Some(low) if int => Some(Frac::of_whole(low.ceil())),
        _ => *lo,
    }
}

/// The upper bound, for an integer column the greatest whole number allowed.
fn high_allowed(int: bool, up: &Bound) -> Bound
    ensures { result ≡ high_allowed int up.now }
{
    match up {
        Some(high) if int => Some(Frac::of_whole(high.floor())),
        _ => *up,
    }
}

/// The greater of the number and the bound, if there is one.
fn raised(low: &Bound, number: Frac) -> Frac
    ensures { result ≡ raised low.now number }
{
    match low {
        Some(low) if number.is_at_most(low) => *low,
        _ => number,
    }
}

/// The lesser of the number and the bound, if there is one.
fn lowered(high: &Bound, number: Frac) -> Frac
    ensures { result ≡ lowered high.now number }
{
    match high {
        Some(high) if !number.is_at_most(high) => *high,
        _ => number,
    }
}

/// Whether no number is between the bounds.
fn holds_none(low: &Bound, high: &Bound) -> bool
    ensures { result ≡ holds_none low.now high.now }
{
    match (low, high) {
        (Some(low), Some(high)) => !low.is_at_most(high),
        _ => false,
    }
}

/// The number nearest to 0 between the bounds, whole for an integer column, and 0 where there is none.
fn nearest_zero(int: bool, lo: &Bound, up: &Bound) -> Frac
    ensures { result ≡ nearest_zero int lo.now up.now }
{
    let low = low_allowed(int, lo);
    let high = high_allowed(int, up);
    if holds_none(&low, &high) {
        return Frac::whole(0);
    }
    lowered(&high, raised(&low, Frac::whole(0)))
}

/// A copy of the point with one more number.
fn longer_point(alloc: Global, point: &Point, number: Frac) -> Result<Point, AllocError>
    ensures { IfOk result (λ x. x ≡ point.now ++ number ∷ []) }
{
    let mut longer = match List::from_slice(alloc, point.as_slice()) {
        Ok(longer) => longer,
        Err(error) => return Err(error),
    };
    match longer.push(number) {
        Ok(()) => Ok(longer),
        Err(error) => Err(error),
    }
}

/// Takes the number at a place out of the point, if there is one.
fn take_number(point: &mut Point, place: usize)
    ensures { point.new ≡ without_at point.old place }
{
    if place >= point.as_slice().len() {
        return;
    }
    point.remove(place);
}

/// A copy of the point without the number at a place.
fn shorter_point(alloc: Global, point: &Point, place: usize) -> Result<Point, AllocError>
    ensures { IfOk result (λ x. x ≡ without_at point.now place) }
{
    let mut shorter = match List::from_slice(alloc, point.as_slice()) {
        Ok(shorter) => shorter,
        Err(error) => return Err(error),
    };
    take_number(&mut shorter, place);
    Ok(shorter)
}

/// The point in the model after an edit.
fn point_after(
    alloc: Global,
    model: &Model,
    edit: &Edit,
    point: &Point,
) -> Result<Point, AllocError>
    requires { EditFits model.now edit.now }
    ensures { IfOk result (λ x. x ≡ point_after model.now edit.now point.now) }
{
    match edit {
        Edit::AddCol { int, lo, up, .. } => longer_point(alloc, point, nearest_zero(*int, lo, up)),
        Edit::DelCol { col } => shorter_point(alloc, point, col_of(model, col) as usize),
        _ => List::from_slice(alloc, point.as_slice()),
    }
}

/// The points of a search that may be kept after an edit of the old model, in the new one.
pub fn kept_points(
    alloc: Global,
    old: &Model,
    edit: &Edit,
    new: &Model,
    points: &[Point],
) -> Result<KeptPoints, AllocError>
    requires { EditFits old.now edit.now }
    ensures { IfOk result (λ k. AreValued new.now (map (point_after old.now edit.now) points.now) k.points.items k.values.items) }
{
    let mut kept = KeptPoints {
        points: Vec::new(alloc),
        values: Vec::new(alloc),
    };
    for point in points {
        let moved = match point_after(alloc, old, edit, point) {
            Ok(moved) => moved,
            Err(error) => return Err(error),
        };
        match kept.add(new, moved) {
            Ok(()) => {}
            Err(error) => return Err(error),
        }
    }
    Ok(kept)
}
