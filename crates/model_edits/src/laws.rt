// What follows from which faults there are.
ghost use Rattle.model_edits.specs.Faults.{FittingLaw};

/// An edit that fits is refused for want of memory alone.
pub fn fitting_law()
    ensures { FittingLaw }
{}
