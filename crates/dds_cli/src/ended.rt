//! How a command ends.

ghost use Rattle.std.specs.Prelude.{◌≡◌, []};
ghost use Rattle.dds_ends.specs.End.{status_of};

use dds_cluster::step::Journal;
use dds_ends::end::End;
use std::alloc::Global;

/// How a command ended, with its status and the journal of its steps. The journal is empty where no script was run.
#[derive(Drop)]
pub struct Ended {
    pub status: u8,
    pub end: End,
    pub journal: Journal,
}

impl Ended {
    /// An end before any step.
    pub fn early(alloc: Global, end: End) -> Ended
        ensures status { result.status ≡ status_of end }
        ensures end { result.end ≡ end }
        ensures journal { result.journal ≡ [] }
    {
        Ended::with(end, Journal::new(alloc))
    }

    pub fn with(end: End, journal: Journal) -> Ended
        ensures status { result.status ≡ status_of end }
        ensures end { result.end ≡ end }
        ensures journal { result.journal ≡ journal }
    {
        Ended {
            status: end.status(),
            end,
            journal,
        }
    }
}
