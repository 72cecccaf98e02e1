// The inner models of a front, solved one by one. Between them the solver's model is the base with some costs in objective 1.
ghost use Rattle.std.specs.Prelude.{◌≡◌, ℤ, map, nat_eq, if◌then◌else◌, pos, true, All, IfOk, OnOk};
ghost use Rattle.frac128.specs.Rational.{int, ◌+ℚ◌};
ghost use Rattle.inner_models.specs.Inner.{with_objective, row_terms, g1_name, g2_name, least2_model, left_model, right_model, pull_model, gap_model};
ghost use Rattle.inner_models.specs.Room.{HasInnerRoom};
ghost use Rattle.gap_models.specs.Gaps.{HasTerms, IsGapOf, FitsGap};
ghost use Rattle.front_solver.specs.Stops.{AddsNoStop};
ghost use Rattle.front_solver.specs.Solved.{HasSolved, IsRecosted};
ghost use Rattle.front_parts.specs.private.Caps.{IsCapNamed, IsExtensionOf};

use crate::lists::{objective_costs, objective_terms, zero_costs};
use frac128::Frac;
use front_solver::{
    Cap, Extension, Solved, Solver, set_objective, solve_capped, solve_capped_twice,
    solve_extended, solve_model,
};
use gap_models::{Gap, GapRows, g1_name, g2_name, gap_rows, z_name};
use lp_model::Model;
use std::alloc::{AllocError, Global};

// ---- objectives

/// Puts an objective of the base in the place of objective 1.
fn put_objective<S: Solver>(
    alloc: Global,
    solver: &mut S,
    base: &Model,
    which: u8,
) -> Result<(), AllocError>
    requires { IsRecosted base.now (S.program solver.old) }
    ensures edited { OnOk result (S.program solver.new ≡ with_objective (λ c. if nat_eq which 2 then c.cost2 else c.cost) base.now) }
    ensures steady { OnOk result (AddsNoStop (S.stops solver.new) (S.stops solver.old)) }
{
    let Ok(costs) = objective_costs(alloc, base.cols(), which) else {
        return Err(AllocError);
    };
    set_objective(solver, base, &costs)
}

/// Puts 0 in the place of objective 1.
fn put_zeros<S: Solver>(alloc: Global, solver: &mut S, base: &Model) -> Result<(), AllocError>
    requires { IsRecosted base.now (S.program solver.old) }
    ensures edited { OnOk result (S.program solver.new ≡ with_objective (λ c. int (pos 0)) base.now) }
    ensures steady { OnOk result (AddsNoStop (S.stops solver.new) (S.stops solver.old)) }
{
    let Ok(costs) = zero_costs(alloc, base.cols()) else {
        return Err(AllocError);
    };
    set_objective(solver, base, &costs)
}

// ---- rows

/// The row by the first new name: an objective of the base, at most a number.
fn first_cap(alloc: Global, base: &Model, which: u8, hi: &Frac) -> Result<Cap, AllocError>
    ensures { IfOk result (IsCapNamed (g1_name base.now) hi.now (row_terms (λ c. if nat_eq which 2 then c.cost2 else c.cost) base.now)) }
{
    let Ok(name) = g1_name(alloc, base) else {
        return Err(AllocError);
    };
    let Ok(entries) = objective_terms(alloc, base, which) else {
        drop(name);
        return Err(AllocError);
    };
    Ok(Cap {
        name,
        hi: *hi,
        entries,
    })
}

/// The row by the second new name: objective 2 of the base, at most a number.
fn second_cap(alloc: Global, base: &Model, hi: &Frac) -> Result<Cap, AllocError>
    ensures { IfOk result (IsCapNamed (g2_name base.now) hi.now (row_terms (λ c. c.cost2) base.now)) }
{
    let Ok(name) = g2_name(alloc, base) else {
        return Err(AllocError);
    };
    let Ok(entries) = objective_terms(alloc, base, 2) else {
        drop(name);
        return Err(AllocError);
    };
    Ok(Cap {
        name,
        hi: *hi,
        entries,
    })
}

/// The column and the rows of a gap, whose numbers have room.
fn gap_extension(alloc: Global, base: &Model, gap: &Gap) -> Result<Extension, AllocError>
    requires { All (HasTerms gap.now.a gap.now.b) base.now.cols }
    ensures { IfOk result (IsExtensionOf base.now gap.now) }
{
    let Ok(column) = z_name(alloc, base) else {
        return Err(AllocError);
    };
    let Ok(rows) = gap_rows(alloc, base, gap, &column) else {
        drop(column);
        return Err(AllocError);
    };
    let Ok(first_name) = g1_name(alloc, base) else {
        drop(column);
        drop(rows);
        return Err(AllocError);
    };
    let Ok(second_name) = g2_name(alloc, base) else {
        drop(column);
        drop(rows);
        drop(first_name);
        return Err(AllocError);
    };
    let GapRows { first, second } = rows;
    Ok(Extension {
        column,
        up: gap.width,
        first: Cap {
            name: first_name,
            hi: gap.side1,
            entries: first,
        },
        second: Cap {
            name: second_name,
            hi: gap.side2,
            entries: second,
        },
    })
}

// ---- the inner models

/// The least first value.
pub fn solve_least1<S: Solver>(
    alloc: Global,
    solver: &mut S,
    base: &Model,
    nodes: u64,
) -> Result<Solved, AllocError>
    requires { IsRecosted base.now (S.program solver.old) }
    ensures kept { OnOk result (IsRecosted base.now (S.program solver.new)) }
    ensures steady { OnOk result (AddsNoStop (S.stops solver.new) (S.stops solver.old)) }
    ensures solved { IfOk result (HasSolved (S.stops solver.old) base.now nodes) }
{
    let Ok(()) = put_objective(alloc, solver, base, 1) else {
        return Err(AllocError);
    };
    solve_model(solver, nodes)
}

/// The least second value.
pub fn solve_least2<S: Solver>(
    alloc: Global,
    solver: &mut S,
    base: &Model,
    nodes: u64,
) -> Result<Solved, AllocError>
    requires { IsRecosted base.now (S.program solver.old) }
    ensures kept { OnOk result (IsRecosted base.now (S.program solver.new)) }
    ensures steady { OnOk result (AddsNoStop (S.stops solver.new) (S.stops solver.old)) }
    ensures solved { IfOk result (HasSolved (S.stops solver.old) (least2_model base.now) nodes) }
{
    let Ok(()) = put_objective(alloc, solver, base, 2) else {
        return Err(AllocError);
    };
    solve_model(solver, nodes)
}

/// The least second value where the first one is at most a number, its least value.
pub fn solve_left<S: Solver>(
    alloc: Global,
    solver: &mut S,
    base: &Model,
    least: &Frac,
    nodes: u64,
) -> Result<Solved, AllocError>
    requires old { IsRecosted base.now (S.program solver.old) }
    requires wide { base.now.wide ≡ true }
    requires room { HasInnerRoom base.now }
    ensures kept { OnOk result (IsRecosted base.now (S.program solver.new)) }
    ensures steady { OnOk result (AddsNoStop (S.stops solver.new) (S.stops solver.old)) }
    ensures solved { (i1 : ℤ) → least.now ≡ int i1 → IfOk result (HasSolved (S.stops solver.old) (left_model base.now i1) nodes) }
{
    let Ok(cap) = first_cap(alloc, base, 1, least) else {
        return Err(AllocError);
    };
    let Ok(()) = put_objective(alloc, solver, base, 2) else {
        drop(cap);
        return Err(AllocError);
    };
    solve_capped(solver, cap, nodes)
}

/// The least first value where the second one is at most a number, its least value.
pub fn solve_right<S: Solver>(
    alloc: Global,
    solver: &mut S,
    base: &Model,
    least: &Frac,
    nodes: u64,
) -> Result<Solved, AllocError>
    requires old { IsRecosted base.now (S.program solver.old) }
    requires wide { base.now.wide ≡ true }
    requires room { HasInnerRoom base.now }
    ensures kept { OnOk result (IsRecosted base.now (S.program solver.new)) }
    ensures steady { OnOk result (AddsNoStop (S.stops solver.new) (S.stops solver.old)) }
    ensures solved { (i2 : ℤ) → least.now ≡ int i2 → IfOk result (HasSolved (S.stops solver.old) (right_model base.now i2) nodes) }
{
    let Ok(cap) = first_cap(alloc, base, 2, least) else {
        return Err(AllocError);
    };
    let Ok(()) = put_objective(alloc, solver, base, 1) else {
        drop(cap);
        return Err(AllocError);
    };
    solve_capped(solver, cap, nodes)
}

/// The least sum of both values where each is at most a number. The sums of the costs are given, as `sums` finds them.
pub fn solve_pull<S: Solver>(
    alloc: Global,
    solver: &mut S,
    base: &Model,
    sums: &[Frac],
    most1: &Frac,
    most2: &Frac,
    nodes: u64,
) -> Result<Solved, AllocError>
    requires old { IsRecosted base.now (S.program solver.old) }
    requires wide { base.now.wide ≡ true }
    requires room { HasInnerRoom base.now }
    requires sums { sums.now ≡ map (λ c. c.cost +ℚ c.cost2) base.now.cols }
    ensures kept { OnOk result (IsRecosted base.now (S.program solver.new)) }
    ensures steady { OnOk result (AddsNoStop (S.stops solver.new) (S.stops solver.old)) }
    ensures solved { (r1 r2 : ℤ) → most1.now ≡ int r1 → most2.now ≡ int r2 → IfOk result (HasSolved (S.stops solver.old) (pull_model base.now r1 r2) nodes) }
{
    let Ok(first) = first_cap(alloc, base, 1, most1) else {
        return Err(AllocError);
    };
    let Ok(second) = second_cap(alloc, base, most2) else {
        drop(first);
        return Err(AllocError);
    };
    let Ok(()) = set_objective(solver, base, sums) else {
        drop(first);
        drop(second);
        return Err(AllocError);
    };
    solve_capped_twice(solver, first, second, nodes)
}

/// The least Z of a gap.
pub fn solve_gap<S: Solver>(
    alloc: Global,
    solver: &mut S,
    base: &Model,
    gap: &Gap,
    nodes: u64,
) -> Result<Solved, AllocError>
    requires old { IsRecosted base.now (S.program solver.old) }
    requires wide { base.now.wide ≡ true }
    requires room { HasInnerRoom base.now }
    requires fits { (a b i1 i2 : ℤ) × (IsGapOf a b i1 i2 gap.now × FitsGap base.now a b i1 i2) }
    ensures kept { OnOk result (IsRecosted base.now (S.program solver.new)) }
    ensures steady { OnOk result (AddsNoStop (S.stops solver.new) (S.stops solver.old)) }
    ensures solved { (a b i1 i2 : ℤ) → IsGapOf a b i1 i2 gap.now → IfOk result (HasSolved (S.stops solver.old) (gap_model base.now a b i1 i2) nodes) }
{
    let Ok(more) = gap_extension(alloc, base, gap) else {
        return Err(AllocError);
    };
    let Ok(()) = put_zeros(alloc, solver, base) else {
        drop(more);
        return Err(AllocError);
    };
    solve_extended(alloc, solver, more, nodes)
}
