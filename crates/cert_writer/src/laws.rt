// What the text of a certificate says.
ghost use Rattle.cert_writer.specs.Laws.{PrintLaw};

/// What some text states, the text that is printed of it states too.
pub fn print_law()
    ensures { PrintLaw }
{}
