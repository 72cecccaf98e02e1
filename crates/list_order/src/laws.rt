// What keeps a search in order, as clauses of calls that do nothing.
ghost use Rattle.list_order.specs.Laws.{FreshOrderLaw, PlaceOrderLaw, PoolOrderLaw, EditOrderLaw, TrimOrderLaw};

/// A fresh search is in order, and one with another limit that a search may have stays so.
pub fn fresh_order_law()
    ensures { FreshOrderLaw }
{}

/// A search that takes a result in order stays in order.
pub fn place_order_law()
    ensures { PlaceOrderLaw }
{}

/// A search that adds cuts in order stays in order.
pub fn pool_order_law()
    ensures { PoolOrderLaw }
{}

/// A search that follows an edit of its model stays in order.
pub fn edit_order_law()
    ensures { EditOrderLaw }
{}

/// A search whose tree is cut down stays in order.
pub fn trim_order_law()
    ensures { TrimOrderLaw }
{}
