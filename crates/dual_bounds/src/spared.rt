// Leaves that keep their numbers at a model with other numbers: their lists name nothing that differs, or what differs makes no step.
ghost use Rattle.std.specs.Prelude.{IsTrue, ◌≡◌, ◌∷◌, [], IfSome};
ghost use Rattle.frac128.specs.Rational.{ℚ};
ghost use Rattle.lp_model.specs.Regions.{AreNarrow};
ghost use Rattle.spared_leaves.specs.Alike.{IsSameSides};
ghost use Rattle.dual_bounds.specs.private.Spared.{IsSameVariable, NamesSameSides, IsSparedList, HasQuietCost};

use branch_tree::LeafData;
use cover_cuts::CutPool;
use frac128::Frac;
use lp_model::{BoundChange, ColId, Model, Row, Var};
use search_parts::is_same_value;
use spared_leaves::{Change, Posed, Touched, leaves_list};
use tree_edit::Search;

/// Whether two rows have the same sides.
fn have_same_sides(one: &Row, other: &Row) -> bool
    ensures low { IsTrue result → one.now.lo ≡ other.now.lo }
    ensures high { IsTrue result → one.now.hi ≡ other.now.hi }
{
    if is_same_value(&one.lo, &other.lo) {
        return is_same_value(&one.hi, &other.hi);
    }
    false
}

/// Whether both models have a row at a place, with the same sides.
pub(crate) fn is_same_row(one: &Model, other: &Model, place: usize) -> bool
    ensures { IsTrue result → IsSameSides one.now other.now place }
{
    let rows = one.rows();
    let others = other.rows();
    if place < rows.len() {
        if place < others.len() {
            return have_same_sides(&rows[place], &others[place]);
        }
    }
    false
}

/// Whether the variable is the activity of no row, or of one that has the same sides in both models.
fn is_same_variable(one: &Model, other: &Model, of: &Var) -> bool
    ensures { IsTrue result → IsSameVariable one.now other.now of.now }
{
    match of {
        Var::Col(_) => true,
        Var::Row(row) => is_same_row(one, other, row.0 as usize),
        Var::Cut(_) => true,
    }
}

/// Whether each row that a list names has the same sides in both models.
fn names_same_sides(one: &Model, other: &Model, list: &[(Var, Frac)]) -> bool
    ensures { IsTrue result → NamesSameSides one.now other.now list.now }
{
    for entry in list {
        if !is_same_variable(one, other, &entry.0) {
            return false;
        }
    }
    true
}

/// Whether a list names neither a row that has other sides at a model, nor a cut that counts at one of the models alone.
pub(crate) fn is_spared_list(
    search: &Search,
    model: &Model,
    pool: &CutPool,
    list: &[(Var, Frac)],
) -> bool
    ensures { IsTrue result → IsSparedList search.now model.now pool.now list.now }
{
    let own = search.model();
    let before = search.pool();
    let cuts = before.rows();
    let again = pool.rows();
    if names_same_sides(own, model, list) {
        return leaves_list(&Touched::Nothing, cuts, again, list);
    }
    false
}

/// The column whose cost is given, if it is the only one.
fn only_column(costs: &[(ColId, Frac)]) -> Option<ColId>
    ensures { IfSome result (λ col. (v : ℚ) × (costs.now ≡ (col, v) ∷ [])) }
{
    let first = 0_usize;
    if costs.len() == 1 {
        Some(costs[first].0)
    } else {
        None
    }
}

/// Whether one cost alone is given, and its column is seen to make no step in a leaf, neither with it nor without.
pub(crate) fn has_quiet_cost(
    search: &Search,
    model: &Model,
    pool: &CutPool,
    costs: &[(ColId, Frac)],
    region: &[BoundChange],
    kept: &LeafData,
) -> bool
    requires { AreNarrow region.now }
    ensures { IsTrue result → HasQuietCost search.now model.now pool.now costs.now region.now kept.now }
{
    let own = search.model();
    let before = search.pool();
    let cuts = before.rows();
    let again = pool.rows();
    match only_column(costs) {
        None => false,
        Some(col) => {
            let change = Change {
                before: Posed { model: own, cuts },
                after: Posed { model, cuts: again },
            };
            let touched = Touched::OneCost(col);
            let mult = kept.mult.as_slice();
            let farkas = kept.farkas.as_slice();
            change.spares(&touched, region, mult, farkas)
        }
    }
}
