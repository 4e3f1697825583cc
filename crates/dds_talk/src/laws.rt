//! What holds first, as the contract of a function that does nothing.

ghost use Rattle.dds_talk.specs.Law.{PartsHoldFirst};

/// The parts of two-phase commit hold before the first step of each opening.
pub fn parts_hold_first()
    ensures { PartsHoldFirst }
{}
