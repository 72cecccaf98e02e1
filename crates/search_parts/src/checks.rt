// Whether the parts of a result fit the model and the leaf.
ghost use Rattle.std.specs.Prelude.{◌≡◌, ◌↔◌, ◌<◌, ◌≤ℤ◌, ◌<ℤ◌, ◌+ℤ◌, ◌-◌, ◌^◌, pos, neg_ℤ, IsTrue, MatchOption, length};
ghost use Rattle.frac128.specs.Range.{largest};
ghost use Rattle.lp_model.specs.Program.{least_value, is_integer};
ghost use Rattle.lp_model.specs.Regions.{AreNarrow};
ghost use Rattle.search_parts.specs.Points.{IsKeepable};
ghost use Rattle.search_parts.specs.Checks.{IsFrom, IsUnder, IsSplitAllowed};

use frac128::Frac;
use lp_model::{Bound, ColId, Model, Point, Region};
use model_points::{is_feasible, value};

/// The value of a point in least form, where it is feasible and no step of its test or value lacks room.
pub fn keepable_value(model: &Model, point: &Point) -> Option<Frac>
    ensures { MatchOption result (¬ IsKeepable model.now point.now) (λ v. IsKeepable model.now point.now × (v ≡ least_value model.now 1 point.now)) }
{
    match is_feasible(model, point) {
        Ok(true) => {}
        Ok(false) => return None,
        Err(_) => return None,
    }
    match value(model, 1, point) {
        Ok(value) => Some(model.sense().least_form(&value)),
        Err(_) => None,
    }
}

/// Whether the first is no more than the second.
fn is_at_most(first: i128, second: i128) -> bool
    ensures { IsTrue result ↔ (first ≤ℤ second) }
{
    first <= second
}

/// Whether the first is less than the second.
fn is_below(first: i128, second: i128) -> bool
    ensures { IsTrue result ↔ (first <ℤ second) }
{
    first < second
}

/// Whether there is a lower bound and the number is no less.
fn is_from(low: &Bound, v: i128) -> bool
    ensures from { IsTrue result ↔ IsFrom low.now v }
    ensures room { IsTrue result → neg_ℤ (pos largest) ≤ℤ v }
{
    match low {
        None => false,
        Some(low) => is_at_most(low.ceil(), v),
    }
}

/// Whether there is an upper bound and the number is less.
fn is_under(high: &Bound, v: i128) -> bool
    ensures under { IsTrue result ↔ IsUnder high.now v }
    ensures room { IsTrue result → v <ℤ pos largest }
{
    match high {
        None => false,
        Some(high) => is_below(v, high.ceil()),
    }
}

/// Whether a leaf with this region may be split: the column is there and integer, and has a number up to `v` and one
/// above `v`.
pub fn is_split_allowed(model: &Model, region: &Region, col: ColId, v: i128) -> bool
    requires { AreNarrow region.now }
    ensures allowed { IsTrue result ↔ IsSplitAllowed model.now region.now col.0 v }
    ensures room { IsTrue result → (neg_ℤ (pos largest) ≤ℤ v) × (v <ℤ pos largest) }
{
    let place = col.0 as usize;
    if !model.is_integer(place) {
        return false;
    }
    let low = model.region_low(region.as_slice(), place);
    let high = model.region_high(region.as_slice(), place);
    is_from(&low, v) && is_under(&high, v)
}
