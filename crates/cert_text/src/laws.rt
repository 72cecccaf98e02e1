// What the text of a certificate means.
ghost use Rattle.cert_text.specs.Laws.{CertificateTextLaw, WholeTreeLaw};

/// Each text states one certificate or has one fault.
pub fn text_law()
    ensures { CertificateTextLaw }
{}

/// Counting the trees that are still due decides whether nodes are one whole tree.
pub fn whole_tree_law()
    ensures { WholeTreeLaw }
{}
