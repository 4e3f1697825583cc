//! The laws, as contracts of functions that do nothing.

ghost use Rattle.dds_once.specs.Law.{UpdatesStandOnce, RefusedUpdatesStandNever};

/// In each run, with stops, splits and joins: an update, whether it is open, was answered or refused, has at most one entry in the history,
/// behind its Input.
pub fn updates_stand_once()
    ensures { UpdatesStandOnce }
{}

/// In each run, with stops, splits and joins: an update that was answered Again or Full has no entry in the history.
pub fn refused_updates_stand_never()
    ensures { RefusedUpdatesStandNever }
{}
