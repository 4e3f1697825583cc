//! The laws, as contracts of functions that do nothing.

ghost use Rattle.dds_order_ends.specs.Waiting.{OrdersWait};
ghost use Rattle.dds_order_ends.specs.Leases.{LeasesAreHeld};
ghost use Rattle.dds_order_ends.specs.Quiet.{QuietOrdersAreOver};

/// In each world of each run, with stops, splits and joins: a live brick's open order waits for some bricks of the cluster, none of which
/// is the brick itself or is known there to have stopped.
pub fn orders_wait()
    ensures { OrdersWait }
{}

/// In each world of each run, with stops, splits and joins, each lease that a live brick has given is one that is given back: its holder is
/// a brick of the cluster that isn't known there to have stopped; the brick itself holds it only while its own split of the name is open; and
/// where the holder is another live brick, its open order has the name, or a Release of the name is on its way from it.
pub fn leases_are_held()
    ensures { LeasesAreHeld }
{}

/// In each world of each run in which nothing is on its way, with stops, splits and joins: no live brick has an open order, or has given a
/// lease. It is a premise that copying goes on: between a live brick that copies and the live member that it copies from, a CopyAsk or a
/// CopyPart of the order is on its way.
pub fn quiet_orders_are_over()
    ensures { QuietOrdersAreOver }
{}
