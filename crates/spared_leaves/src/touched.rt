// What an edit touches, and which lists of multipliers name none of it.
ghost use Rattle.std.specs.Prelude.{◌≡◌};
ghost use Rattle.lp_model.specs.Cuts.{is_live};
ghost use Rattle.lp_model.specs.Edits.{EditFits};
ghost use Rattle.spared_leaves.specs.Touched.{touched_by, cost_touched, column_touched, leaves_row, leaves_cut, leaves_variable, leaves_list};
ghost use Rattle.spared_leaves.specs.Laws.{LikeQuestionsLaw, LikeAnswersLaw, LikeRegionsLaw, LikeEditsLaw, LikePoolsLaw, LikeLagTotalsLaw, LikeFarkasTotalsLaw, LikeCostTotalsLaw, MovedSideLaw, LikeShortLaw};

use branch_tree::{col_of, row_of};
use frac128::Frac;
use lp_model::{ColId, CutRow, Edit, Model, RowId, Var};

/// What an edit touches of that which a leaf's number is made of, beside cuts.
#[derive(Clone, Copy, Drop)]
pub enum Touched {
    Nothing,
    /// A row's sides and its coefficients.
    OneRow(RowId),
    /// A row's sides.
    RowSides(RowId),
    /// A column's cost in objective 1.
    OneCost(ColId),
    /// All of a column.
    OneColumn(ColId),
}

/// What an edit touches. `None` for one that moves the places of rows or columns.
pub fn touched_by(model: &Model, edit: &Edit) -> Option<Touched>
    requires { EditFits model.now edit.now }
    ensures { result ≡ touched_by model.now edit.now }
{
    match edit {
        Edit::SetCost { col, .. } => Some(Touched::OneCost(ColId(col_of(model, col)))),
        Edit::SetCost2 { .. } => Some(Touched::Nothing),
        Edit::SetColBounds { col, .. } => Some(Touched::OneColumn(ColId(col_of(model, col)))),
        Edit::SetKind { col, .. } => Some(Touched::OneColumn(ColId(col_of(model, col)))),
        Edit::AddCol { .. } => Some(Touched::OneColumn(ColId(model.cols().len() as u32))),
        Edit::SetRow { row, .. } => Some(Touched::RowSides(RowId(row_of(model, row)))),
        Edit::AddRow { .. } => Some(Touched::OneRow(RowId(model.rows().len() as u32))),
        Edit::ReplaceRow { row, .. } => Some(Touched::OneRow(RowId(row_of(model, row)))),
        Edit::DelCol { .. } => None,
        Edit::DelRow { .. } => None,
    }
}

/// The column whose cost is touched, if one is.
pub(crate) fn cost_touched(touched: &Touched) -> Option<ColId>
    ensures { result ≡ cost_touched touched.now }
{
    match touched {
        Touched::OneCost(col) => Some(*col),
        Touched::OneColumn(col) => Some(*col),
        _ => None,
    }
}

/// The column of which more than the cost is touched, if one is.
pub(crate) fn column_touched(touched: &Touched) -> Option<ColId>
    ensures { result ≡ column_touched touched.now }
{
    match touched {
        Touched::OneColumn(col) => Some(*col),
        _ => None,
    }
}

/// Whether there is a cut at a place and it counts.
fn is_live(cuts: &[CutRow], cut: usize) -> bool
    ensures { result ≡ is_live cuts.now cut }
{
    if cut < cuts.len() {
        cuts[cut].live
    } else {
        false
    }
}

/// Whether a row is not the one that is touched.
fn leaves_row(touched: &Touched, row: u32) -> bool
    ensures { result ≡ leaves_row touched.now row }
{
    match touched {
        Touched::OneRow(id) => id.0 != row,
        Touched::RowSides(id) => id.0 != row,
        _ => true,
    }
}

/// Whether a cut counts before and after an edit, or neither before nor after it.
fn leaves_cut(before: &[CutRow], after: &[CutRow], cut: usize) -> bool
    ensures { result ≡ leaves_cut before.now after.now cut }
{
    if is_live(before, cut) {
        is_live(after, cut)
    } else {
        !is_live(after, cut)
    }
}

/// Whether the variable is the activity of nothing that is touched.
fn leaves_variable(touched: &Touched, before: &[CutRow], after: &[CutRow], of: &Var) -> bool
    ensures { result ≡ leaves_variable touched.now before.now after.now of.now }
{
    match of {
        Var::Col(_) => true,
        Var::Row(row) => leaves_row(touched, row.0),
        Var::Cut(cut) => leaves_cut(before, after, cut.0 as usize),
    }
}

/// Whether a list names neither the row that is touched, nor a cut that counts before or after the edit alone.
pub fn leaves_list(
    touched: &Touched,
    before: &[CutRow],
    after: &[CutRow],
    list: &[(Var, Frac)],
) -> bool
    ensures { result ≡ leaves_list touched.now before.now after.now list.now }
{
    for (of, _) in list {
        if !leaves_variable(touched, before, after, of) {
            return false;
        }
    }
    true
}

/// What is asked alike of two models with their cuts is answered alike. A column is alike too where its term makes no step in either.
pub fn like_questions_law()
    ensures { LikeQuestionsLaw }
{}

/// A list that names nothing that is touched has the same answers in models and cuts that are alike, where a column that is
/// touched makes no step in either.
pub fn like_answers_law()
    ensures { LikeAnswersLaw }
{}

/// A region is empty in both of two models that are alike, or in neither, where a column that is touched leaves that.
pub fn like_regions_law()
    ensures { LikeRegionsLaw }
{}

/// An edit leaves all but what it touches.
pub fn like_edits_law()
    ensures { LikeEditsLaw }
{}

/// Cuts of the same derivations are alike.
pub fn like_pools_law()
    ensures { LikePoolsLaw }
{}

/// What is kept of a leaf's totals stands in models with their cuts that are alike, where a column that is touched makes no step.
pub fn like_lag_totals_law()
    ensures { LikeLagTotalsLaw }
{}

/// The same of the totals with all costs 0.
pub fn like_farkas_totals_law()
    ensures { LikeFarkasTotalsLaw }
{}

/// Where the cost of one column is touched, what is kept before that column stands.
pub fn like_cost_totals_law()
    ensures { LikeCostTotalsLaw }
{}

/// Where the sides of one row are touched, what a list without a cut that turned asks is asked with another side of that row.
pub fn moved_side_law()
    ensures { MovedSideLaw }
{}

/// Terms that are short stay so where they are alike.
pub fn like_short_law()
    ensures { LikeShortLaw }
{}
