//! The laws, as contracts of functions that do nothing.

ghost use Rattle.dds_order_talk.specs.Members.{OrdersKeepToTheirMembers};

/// In each world of each run, with stops, splits and joins, of each live brick's open order: who granted it was asked, who is waited for
/// was asked and hasn't granted, or is to install the leaf and has granted, the one that is copied from has granted, the brick itself was
/// never asked, and a letter of this order goes to a member that was asked, or comes from one.
pub fn orders_keep_to_their_members()
    ensures { OrdersKeepToTheirMembers }
{}
