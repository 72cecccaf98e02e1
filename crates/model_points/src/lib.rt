//! What a model says of a point and of a direction, computed with its steps.
//!
//! At a point `x`, a number for each column,
//!
//! ```text
//! value(w, x)      = constant(w) + sum over columns j of cost(w, j) * x(j)
//! activity(i, x)   =               sum over columns j of coefficient(i, j) * x(j)
//! ```
//!
//! and `x` is feasible where each number is within its column's bounds, and whole where the column is integer, and each
//! row's activity is within its sides. A step of arithmetic that has no room is answered with its place, never rounded.
//!
//! A direction `d` is a ray where it is 0 on integer columns, no bound and no side is ever passed along it, and its cost is
//! below 0 in least form: beside a feasible point the objective then has no end.
//!
//! Public contract: `is_feasible`, `value`, `is_ray` and `whole_objective` mean the definitions of `lp_model/specs/Program`
//! and `specs/Rays` or name the first step that has no room (`specs/Answers`). The laws say what a ray proves of a model, how
//! the points of a model are those of the model without costs, and what numbers within a region's bounds are (`specs/Laws`).
//!
//! Below stand models (`lp_model`) and checked sums (`checked_sum`). Above stand the checker of certificates, the ray phase and
//! the search.
#![tactic(auto)]

mod laws;
mod points;
mod rays;

pub use laws::{in_region_law, ray_judged_law, same_points_law, unbounded_law};
pub use points::{activity, has_whole_objective, is_feasible, value, whole_objective};
pub use rays::{direction_cost, is_ray, without_costs};
