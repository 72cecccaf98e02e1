// Each law is the contract of a function that does nothing.
ghost use Rattle.edit_words.specs.NewBounds.{NewPartsLaw, EditedModelLaw};

/// An edit that words ask for brings names of 1 to 255 bytes from `!` to `~`, and bounds below 10^20 in magnitude, alone.
pub fn new_parts_law()
    ensures { NewPartsLaw }
{}

/// A model that scripts may have stays one under such an edit.
pub fn edited_model_law()
    ensures { EditedModelLaw }
{}
