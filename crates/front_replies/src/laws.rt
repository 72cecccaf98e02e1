// What replies that tell outcomes show.
ghost use Rattle.front_replies.specs.Laws.{FrontShownLaw};

/// A reply that tells outcomes shows these.
pub fn front_shown_law()
    ensures { FrontShownLaw }
{}
