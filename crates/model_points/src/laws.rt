// Each law is the contract of a function that does nothing.
ghost use Rattle.model_points.specs.Laws.{UnboundedLaw, RayJudgedLaw, SamePointsLaw, InRegionLaw};

/// Where there is a ray and a feasible point, the model is unbounded.
pub fn unbounded_law()
    ensures { UnboundedLaw }
{}

/// The test of a direction is right where it names no step, and has one answer.
pub fn ray_judged_law()
    ensures { RayJudgedLaw }
{}

/// The model without costs has the model's points and regions.
pub fn same_points_law()
    ensures { SamePointsLaw }
{}

/// Numbers within the bounds of a region are within the model's, and meet each change of the path.
pub fn in_region_law()
    ensures { InRegionLaw }
{}
