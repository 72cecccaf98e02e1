// What a front's text means.
ghost use Rattle.front_text.specs.Laws.{FrontTextLaw, FrontLinesLaw};

/// Each text states one front or has one fault.
pub fn front_text_law()
    ensures { FrontTextLaw }
{}

/// The lines of a text that states a front say the statements of its certificate one by one.
pub fn front_lines_law()
    ensures { FrontLinesLaw }
{}
