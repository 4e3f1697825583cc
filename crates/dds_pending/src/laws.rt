//! The laws, as contracts of functions that do nothing.

ghost use Rattle.dds_pending.specs.Law.{PendingListsTheLive};
ghost use Rattle.dds_pending.specs.Sent.{PreparesListTheLive};

/// In each world of each run, with stops, splits and joins: a transaction that is pending at a live brick lists each live member of
/// the brick's own leaf that covers its key.
pub fn pending_lists_the_live()
    ensures { PendingListsTheLive }
{}

/// In each world of each run: a Prepare on its way lists each live member of the leaves of the stamp that it tells.
pub fn prepares_list_the_live()
    ensures { PreparesListTheLive }
{}
