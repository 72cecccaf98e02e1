// The law is the contract of a function that does nothing.
ghost use Rattle.word_names.specs.ScriptModels.{ScriptNamesLaw};

/// The names of a model that scripts may have are words of a line.
pub fn script_names_law()
    ensures { ScriptNamesLaw }
{}
