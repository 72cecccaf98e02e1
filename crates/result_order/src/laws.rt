// Each law is the contract of a function that does nothing.
ghost use Rattle.result_order.specs.Laws.{ResultOrderLaw, CutOrderLaw, WorkedOrderLaw};

/// The lists of a result stand in order, by the names of the relaxation and by those of the pool.
pub fn result_order_law()
    ensures { ResultOrderLaw }
{}

/// Each cut that separation finds names what is there, by literals that rise.
pub fn cut_order_law()
    ensures { CutOrderLaw }
{}

/// What the work on a leaf answers stands in order, and so do the cuts that it found.
pub fn worked_order_law()
    ensures { WorkedOrderLaw }
{}
