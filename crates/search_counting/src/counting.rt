// How many results a search of a model can place.
ghost use Rattle.std.specs.Prelude.{◌≡◌, ◌<◌, ◌≤◌, ◌^◌, ◌-◌, min, MatchOption};
ghost use Rattle.search_counting.specs.Points.{whole_numbers_from, numbers_within};
ghost use Rattle.search_counting.specs.Work.{factor, whole_points_of, results_for, cap_of};

use lp_model::{Col, Model};

/// How many numbers there are from one to another, or the greatest number of 64 bits where there are more.
fn numbers_from(low: i128, high: i128) -> u64
    ensures { result ≡ min (whole_numbers_from low high) (2 ^ 64 - 1) }
{
    if high < low {
        return 0;
    }
    let width = high.abs_diff(low);
    if width < u128::from(u64::MAX) {
        width as u64 + 1
    } else {
        u64::MAX
    }
}

/// How many whole numbers are within a column's bounds, or the greatest number of 64 bits where there are more. A column
/// without one of its bounds has none here.
fn numbers_within(column: &Col) -> u64
    ensures { result ≡ min (numbers_within column.now.lo column.now.up) (2 ^ 64 - 1) }
{
    match (&column.lo, &column.up) {
        (Some(low), Some(high)) => numbers_from(low.ceil(), high.floor()),
        _ => 0,
    }
}

/// How many numbers a column multiplies the points by: those of an integer column, and one of any other.
fn factor_of(column: &Col) -> u64
    ensures { result ≡ min (factor column.now) (2 ^ 64 - 1) }
{
    if column.int {
        numbers_within(column)
    } else {
        1
    }
}

/// The product of the numbers of numbers of the integer columns, or the greatest number of 64 bits where it is more.
fn whole_points_of(columns: &[Col]) -> u64
    ensures { result ≡ min (whole_points_of columns.now) (2 ^ 64 - 1) }
{
    let mut points = 1u64;
    for column in columns {
        points = points.saturating_mul(factor_of(column));
    }
    points
}

/// The most results of a search over a number of points.
fn most_results(points: u64) -> Option<u64>
    ensures { MatchOption result (2 ^ 64 ≤ results_for points) (λ most. (most ≡ results_for points) × (most < 2 ^ 64)) }
{
    if points == 0 {
        return Some(1);
    }
    match (points - 1).checked_mul(2) {
        Some(doubled) => doubled.checked_add(1),
        None => None,
    }
}

/// The most results that a search of the model places: one for each whole point within its bounds, and one for each split
/// before it. `None` where that passes 64 bits.
pub fn cap(model: &Model) -> Option<u64>
    ensures { MatchOption result (2 ^ 64 ≤ cap_of model.now) (λ most. (most ≡ cap_of model.now) × (most < 2 ^ 64)) }
{
    most_results(whole_points_of(model.cols()))
}
