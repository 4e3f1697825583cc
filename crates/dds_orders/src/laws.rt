//! The laws, as contracts of functions that do nothing.

ghost use Rattle.dds_orders.specs.Asked.{OrdersAskAll};
ghost use Rattle.dds_orders.specs.Covered.{PendingIsCovered};
ghost use Rattle.dds_orders.specs.Law.{OrdersAreNumbered};
ghost use Rattle.dds_orders.specs.Leased.{LeasedLeavesStay};
ghost use Rattle.dds_orders.specs.Standing.{LeasesStand};

/// In each world of each run, with stops, splits and joins: a brick sends itself no letter of an order, and each letter of an order
/// that is on its way carries a number that its order's brick gave to an order; the letters of the order that is open say what it does.
pub fn orders_are_numbered()
    ensures { OrdersAreNumbered }
{}

/// In each world of each run, of each brick: no leaf of its own that has a key in common with a lease's name goes beyond the lease, and
/// there is such a leaf; while a split of its own is open, its own lease of the split's name stands.
pub fn leases_stand()
    ensures { LeasesStand }
{}

/// In each world of each run: what is pending at a live brick is of a key that a leaf of the brick covers.
pub fn pending_is_covered()
    ensures { PendingIsCovered }
{}

/// In each world of each run: each live member of the leaf of a live brick's open order is the brick itself, or has granted its lease, or
/// is waited for while the order leases; and the leaf that the order has made lists each of them.
pub fn orders_ask_all()
    ensures { OrdersAskAll }
{}

/// At each step of each run: while a brick's lease to another brick stands, its own leaves in the lease's name stay, unless it takes the
/// holder's letter to install a leaf.
pub fn leased_leaves_stay()
    ensures { LeasedLeavesStay }
{}
