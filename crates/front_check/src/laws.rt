// What accepted certificates of fronts prove. The law is the contract of a function that does nothing.
ghost use Rattle.front_check.specs.Laws.{FrontLaw, FrontVerdictLaw, FrontRejectedLaw, OneFrontVerdictLaw};
ghost use Rattle.front_check.specs.Passing.{PassingPartsLaw};

/// For every model and certificate: where the certificate is accepted, its outcomes are the front of the model.
pub fn front_law()
    ensures { FrontLaw }
{}

/// What is judged and found accepted is accepted by the definition, with so many outcomes.
pub fn front_verdict_law()
    ensures { FrontVerdictLaw }
{}

/// What is rejected is not accepted by the definition, but where a number of a gap has no room.
pub fn front_rejected_law()
    ensures { FrontRejectedLaw }
{}

/// A certificate has at most one verdict for a model.
pub fn one_front_verdict_law()
    ensures { OneFrontVerdictLaw }
{}

/// A certificate whose parts pass one by one is judged accepted.
pub fn passing_parts_law()
    ensures { PassingPartsLaw }
{}
