//! How far a script was read.

ghost use Rattle.std.specs.Prelude.{◌≡◌};
ghost use Rattle.dds_script.specs.Grammar.{first_reader};

use crate::line::LineList;
use crate::opening::LeafList;
use crate::place::Place;
use crate::ranges::Ranges;
use std::alloc::Global;

/// What was read of a script. The ranges are those of the cluster line.
#[derive(Drop)]
pub struct Reader {
    pub place: Place,
    pub ranges: Ranges,
    pub leaves: LeafList,
    pub stale: LeafList,
    pub lines: LineList,
}

impl Reader {
    /// Nothing was read. Takes no memory.
    pub fn new(alloc: Global) -> Reader
        ensures { result ≡ first_reader }
    {
        Reader {
            place: Place::BeforeCluster,
            ranges: Ranges {
                bricks: 1,
                libraries: 1,
                callers: 1,
            },
            leaves: LeafList::new(alloc),
            stale: LeafList::new(alloc),
            lines: LineList::new(alloc),
        }
    }
}
