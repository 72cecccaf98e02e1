// Each law is the contract of a function that does nothing.
ghost use Rattle.table_entries.specs.Laws.{ExchangeLaw, OneTableLaw, StuckLaw, WeakDualityLaw, StrongDualityLaw, RefutedBasisLaw, SeparationLaw, EnteringLaw, StepLaw, NoStateTwiceLaw, NextStateLaw, RayLaw, DirectionsLaw, NoRayLaw};

/// An exchange of a basic and a nonbasic variable leads from the table of a basis to that of the other basis.
pub fn exchange_law()
    ensures { ExchangeLaw }
{}

/// A basis has one table.
pub fn one_table_law()
    ensures { OneTableLaw }
{}

/// Where no basic variable may leave for the next one of a list, the list is no basis.
pub fn stuck_law()
    ensures { StuckLaw }
{}

/// No assignment within the sides passes the number of any multipliers.
pub fn weak_duality_law()
    ensures { WeakDualityLaw }
{}

/// At a lawful state the number of the multipliers is the value of the point, which is least.
pub fn strong_duality_law()
    ensures { StrongDualityLaw }
{}

/// A row that no variable may enter shows that no solution is within the sides.
pub fn farkas_law()
    ensures { RefutedBasisLaw }
{}

/// Perturbed costs separate the variables that have sides.
pub fn separation_law()
    ensures { SeparationLaw }
{}

/// One variable enters by the rule, or none may.
pub fn entering_law()
    ensures { EnteringLaw }
{}

/// A step leads from a lawful state to a lawful one with a greater key.
pub fn step_law()
    ensures { StepLaw }
{}

/// No state comes twice in a row of steps.
pub fn no_state_twice_law()
    ensures { NoStateTwiceLaw }
{}

/// The next state is a function of the state, whatever the order of rows and places.
pub fn next_state_law()
    ensures { NextStateLaw }
{}

/// A solution of the directions whose cost is below 0 is a ray.
pub fn ray_law()
    ensures { RayLaw }
{}

/// An optimum of the directions whose value is not below 0 gives a state that is lawful for the model.
pub fn directions_law()
    ensures { DirectionsLaw }
{}

/// Where there is a lawful state there is no ray.
pub fn no_ray_law()
    ensures { NoRayLaw }
{}
