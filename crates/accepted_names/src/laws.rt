// Which names accepted certificates have. Each law is the contract of a function that does nothing.
ghost use Rattle.accepted_names.specs.Laws.{AcceptedNamesLaw, FrontNamesLaw};

/// The names in a certificate that is accepted for a model are words where those of the model are.
pub fn accepted_names_law()
    ensures { AcceptedNamesLaw }
{}

/// The names in the certificate of a front that is accepted for a model are words where those of the model are.
pub fn front_names_law()
    ensures { FrontNamesLaw }
{}
