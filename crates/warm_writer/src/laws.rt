// What is written is read back.
ghost use Rattle.warm_writer.specs.Laws.{BackLaw};

/// The JSON value of a writable search states that search.
pub fn back_law()
    ensures { BackLaw }
{}
