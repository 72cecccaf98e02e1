// The calls: bounds of a search's model with other sides, or with other costs.
ghost use Rattle.std.specs.Prelude.{IfOk};
ghost use Rattle.dual_bounds.specs.NewNumbers.{with_new_numbers, AreNewNumbers, ArePresentNumbers};
ghost use Rattle.dual_bounds.specs.TreeBounds.{IsTreeBoundAt, IsPointBound};
ghost use Rattle.dual_bounds.specs.Laws.{IsTrueLowerBound, IsTrueUpperBound, IsExactLower, IsExactUpper};

use crate::answers::{LowerBound, UpperBound};
use crate::new_numbers::{OtherNumbers, model_with_numbers};
use crate::points::point_bound;
use crate::walk::tree_bound;
use std::alloc::{AllocError, Global};
use tree_edit::Search;

/// A lower bound of the search's model with these numbers: for the sides of rows, each of which has one side, or two equal ones,
/// or as costs. Each cut of the search counts exactly where it derives with them. It is in least form. Where no leaf is open, that
/// at the numbers that there are is the optimum.
///
/// # Errors
///
/// Only for want of memory.
pub fn lower_bound_with(
    alloc: Global,
    search: &Search,
    numbers: &OtherNumbers,
) -> Result<LowerBound, AllocError>
    requires { AreNewNumbers search.now.model numbers.now }
    ensures bound { IfOk result (λ bound. IsTreeBoundAt (with_new_numbers search.now.model numbers.now) search.now.cuts search.now.tree.root bound) }
    ensures true_bound { IfOk result (λ bound. IsTrueLowerBound (with_new_numbers search.now.model numbers.now) bound) }
    ensures exact { IfOk result (λ bound. ArePresentNumbers search.now.model numbers.now → IsExactLower search.now bound) }
{
    let changed = model_with_numbers(alloc, search.model(), numbers)?;
    match tree_bound(alloc, &changed, search, numbers) {
        Ok(bound) => {
            drop(changed);
            Ok(bound)
        }
        Err(error) => {
            drop(changed);
            Err(error)
        }
    }
}

/// The least value, in least form, of the kept points that are feasible in the search's model with these numbers, which are as in
/// [`lower_bound_with`].
///
/// # Errors
///
/// Only for want of memory.
pub fn upper_bound_with(
    alloc: Global,
    search: &Search,
    numbers: &OtherNumbers,
) -> Result<UpperBound, AllocError>
    requires { AreNewNumbers search.now.model numbers.now }
    ensures bound { IfOk result (λ bound. IsPointBound (with_new_numbers search.now.model numbers.now) search.now.points bound) }
    ensures true_bound { IfOk result (λ bound. IsTrueUpperBound (with_new_numbers search.now.model numbers.now) bound) }
    ensures exact { IfOk result (λ bound. ArePresentNumbers search.now.model numbers.now → IsExactUpper search.now bound) }
{
    let changed = model_with_numbers(alloc, search.model(), numbers)?;
    let bound = point_bound(&changed, search.points());
    drop(changed);
    Ok(bound)
}
