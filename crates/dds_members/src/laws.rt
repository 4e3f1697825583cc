//! The laws, as contracts of functions that do nothing.

ghost use Rattle.dds_members.specs.Law.{LeavesListOnce};
ghost use Rattle.dds_members.specs.Orders.{OrdersAskOnce};

/// In each world of each run, with stops, splits and joins, wherever leaves stand: no member stands twice in a leaf's list.
pub fn leaves_list_once()
    ensures { LeavesListOnce }
{}

/// In each world of each run, of each brick's open order: it has asked no member twice, and waits for none twice.
pub fn orders_ask_once()
    ensures { OrdersAskOnce }
{}
