// Which names certificates have.
ghost use Rattle.tree_cert.specs.Laws.{NamesLaw, WithinNamesLaw, UnboundedNamesLaw};

/// The names in the certificate of a search are words where those of the model are.
pub fn names_law()
    ensures { NamesLaw }
{}

/// The names in the certificate of a search within a gap are words where those of the model are.
pub fn within_names_law()
    ensures { WithinNamesLaw }
{}

/// The names in the certificate of a point and a ray are words where those of the model are.
pub fn unbounded_names_law()
    ensures { UnboundedNamesLaw }
{}
