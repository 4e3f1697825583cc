//! The laws, as the contracts of functions that do nothing.

ghost use Rattle.dds_help.specs.Law.{QuietIsResolved, StoppedAreHelped};

/// After each run no question that a brick put off can be treated, each resolving waits for a live member as far as its brick knows, and of
/// what is pending at a live brick that knows its library to have stopped: the first member that this brick doesn't know to have stopped
/// resolves it, is asked to, told the outcome, or has stopped.
pub fn stopped_libraries_are_helped()
    ensures { StoppedAreHelped }
{}

/// Where nothing is on its way no live brick resolves anything or puts a question off, and nothing is pending there whose library it knows to
/// have stopped.
pub fn quiet_is_resolved()
    ensures { QuietIsResolved }
{}
