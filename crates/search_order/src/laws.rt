// The law is the contract of a function that does nothing.
ghost use Rattle.search_order.specs.Laws.{SearchOrderLaw};

/// What a search leaves that began in order is in order, wherever it ends or stops.
pub fn search_order_law()
    ensures { SearchOrderLaw }
{}
