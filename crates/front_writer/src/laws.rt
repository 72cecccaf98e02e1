// What the text of a front's certificate says.
ghost use Rattle.front_writer.specs.Laws.{StatedLinesLaw, FrontPrintLaw};

use front_text::front_lines_law;

/// A text whose lines say the statements of a certificate one by one states it.
pub fn stated_lines_law()
    ensures { StatedLinesLaw }
{}

/// What some text states, the text that is printed of it states too.
pub fn front_print_law()
    ensures { FrontPrintLaw }
{
    front_lines_law();
}
