// The bounds of a region: the model's, and the bound changes of a path.
ghost use Rattle.std.specs.Prelude.{◌≡◌, ◌↔◌, ◌<◌, ℕ, length, IsTrue, if◌then◌else◌};
ghost use Rattle.std.specs.Option.{option_map};
ghost use Rattle.frac128.specs.Rational.{int, floor, ceil, min_ℚ, max_ℚ};
ghost use Rattle.frac128.specs.Range.{IsNarrow};
ghost use Rattle.lp_model.specs.Program.{lower, upper, is_integer};
ghost use Rattle.lp_model.specs.Regions.{AreNarrow, tighter_low, tighter_high, low_after, high_after, low_along, high_along, region_low, region_high, IsCrossed, IsEmptyRegion};
ghost use Rattle.lp_model.specs.private.EmptyRegions.{IsEmptyColumn, IsEmptyWhereNamed};

use crate::model::Model;
use crate::types::{Bound, BoundChange, Col, Side};
use frac128::Frac;

/// The bound, or the number where that is higher or there is no bound.
fn tighter_low(bound: &Bound, number: Frac) -> Bound
    ensures { result ≡ tighter_low bound.now number }
{
    match bound {
        Some(low) if !low.is_at_most(&number) => Some(*low),
        _ => Some(number),
    }
}

/// The bound, or the number where that is lower or there is no bound.
fn tighter_high(bound: &Bound, number: Frac) -> Bound
    ensures { result ≡ tighter_high bound.now number }
{
    match bound {
        Some(high) if high.is_at_most(&number) => Some(*high),
        _ => Some(number),
    }
}

/// A lower bound after a change of the column's bounds.
fn low_after(bound: Bound, change: &BoundChange) -> Bound
    requires { IsNarrow change.now.v }
    ensures { result ≡ low_after change.now.side bound (int change.now.v) }
{
    match change.side {
        Side::Lo => tighter_low(&bound, Frac::of_whole(change.v)),
        Side::Hi => bound,
    }
}

/// An upper bound after a change of the column's bounds.
fn high_after(bound: Bound, change: &BoundChange) -> Bound
    requires { IsNarrow change.now.v }
    ensures { result ≡ high_after change.now.side bound (int change.now.v) }
{
    match change.side {
        Side::Lo => bound,
        Side::Hi => tighter_high(&bound, Frac::of_whole(change.v)),
    }
}

/// A column's lower bound after the changes of a path.
fn low_along(region: &[BoundChange], col: usize, bound: Bound) -> Bound
    requires { AreNarrow region.now }
    ensures { result ≡ low_along region.now col bound }
{
    let mut low = bound;
    for change in region {
        if change.col.0 as usize == col {
            low = low_after(low, change);
        }
    }
    low
}

/// A column's upper bound after the changes of a path.
fn high_along(region: &[BoundChange], col: usize, bound: Bound) -> Bound
    requires { AreNarrow region.now }
    ensures { result ≡ high_along region.now col bound }
{
    let mut high = bound;
    for change in region {
        if change.col.0 as usize == col {
            high = high_after(high, change);
        }
    }
    high
}

/// Whether there are two bounds and they cross: no number is at least `low` and at most `high`.
pub fn is_crossed(low: &Bound, high: &Bound) -> bool
    ensures { IsTrue result ↔ IsCrossed low.now high.now }
{
    match low {
        None => false,
        Some(low) => match high {
            None => false,
            Some(high) => high.is_below(low),
        },
    }
}

/// The least integer that is at least the number: itself where it is one.
fn integer_above(number: &Frac) -> Frac
    ensures { result ≡ int (ceil number.now) }
{
    if number.is_whole() {
        *number
    } else {
        Frac::of_whole(number.ceil())
    }
}

/// The greatest integer that is at most the number: itself where it is one.
fn integer_below(number: &Frac) -> Frac
    ensures { result ≡ int (floor number.now) }
{
    if number.is_whole() {
        *number
    } else {
        Frac::of_whole(number.floor())
    }
}

impl Col {
    /// The lower bound, for an integer column the least whole number allowed.
    fn least(&self) -> Bound
        ensures { result ≡ (if self.now.int then option_map (λ l. int (ceil l)) self.now.lo else self.now.lo) }
    {
        match &self.lo {
            Some(low) if self.int => Some(integer_above(low)),
            _ => self.lo,
        }
    }

    /// The upper bound, for an integer column the greatest whole number allowed.
    fn greatest(&self) -> Bound
        ensures { result ≡ (if self.now.int then option_map (λ h. int (floor h)) self.now.up else self.now.up) }
    {
        match &self.up {
            Some(high) if self.int => Some(integer_below(high)),
            _ => self.up,
        }
    }
}

impl Model {
    /// The lower bound of a column in a region, for an integer column the least whole number allowed.
    pub fn region_low(&self, region: &[BoundChange], col: usize) -> Bound
        requires within { col < length self.now.cols }
        requires narrow { AreNarrow region.now }
        ensures { result ≡ region_low self.now region.now col }
    {
        low_along(region, col, self.cols()[col].least())
    }

    /// The upper bound of a column in a region, for an integer column the greatest whole number allowed.
    pub fn region_high(&self, region: &[BoundChange], col: usize) -> Bound
        requires within { col < length self.now.cols }
        requires narrow { AreNarrow region.now }
        ensures { result ≡ region_high self.now region.now col }
    {
        high_along(region, col, self.cols()[col].greatest())
    }

    /// Whether a column is there and has no number in a region.
    fn is_empty_column(&self, region: &[BoundChange], col: usize) -> bool
        requires { AreNarrow region.now }
        ensures { IsTrue result ↔ IsEmptyColumn self.now region.now col }
    {
        if col < self.cols().len() {
            is_crossed(
                &self.region_low(region, col),
                &self.region_high(region, col),
            )
        } else {
            false
        }
    }

    /// Whether a column has no number in a region, by the bounds of each column.
    fn has_empty_column(&self, region: &[BoundChange]) -> bool
        requires { AreNarrow region.now }
        ensures { IsTrue result ↔ IsEmptyRegion self.now region.now }
    {
        for col in 0..self.cols().len() {
            if is_crossed(
                &self.region_low(region, col),
                &self.region_high(region, col),
            ) {
                return true;
            }
        }
        false
    }

    /// Whether a column that a region names has no number in it.
    fn is_empty_where_named(&self, region: &[BoundChange]) -> bool
        requires { AreNarrow region.now }
        ensures { IsTrue result ↔ IsEmptyWhereNamed self.now region.now }
    {
        for change in region {
            if self.is_empty_column(region, change.col.0 as usize) {
                return true;
            }
        }
        false
    }

    /// Whether a column has no number in a region. A short region is looked at where it names a column: elsewhere the columns' own
    /// bounds stand.
    pub fn is_empty_region(&self, region: &[BoundChange]) -> bool
        requires { AreNarrow region.now }
        ensures { IsTrue result ↔ IsEmptyRegion self.now region.now }
    {
        if region.len() < self.cols().len() {
            self.has_empty_column(&[]) || self.is_empty_where_named(region)
        } else {
            self.has_empty_column(region)
        }
    }
}
