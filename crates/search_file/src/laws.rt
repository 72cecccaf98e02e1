// What holds of searches that are saved and made again, and of texts of searches, as clauses of calls that do nothing.
ghost use Rattle.search_file.specs.Laws.{SavedLaw, FileLaw, StatedOrderLaw, WritableLaw};

/// A search can be made of its own data, and has the same data again: each leaf is open or closed as it was.
pub fn saved_law()
    ensures { SavedLaw }
{}

/// A search can be made of whatever a text states, and one that is found in its own text has the data that it had.
pub fn file_law()
    ensures { FileLaw }
{}

/// A search that is made of what a text states is in order.
pub fn stated_order_law()
    ensures { StatedOrderLaw }
{}

/// A sound search in order can be written, where its model can.
pub fn writable_law()
    ensures { WritableLaw }
{}
