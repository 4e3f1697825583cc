//! The lines of a script.

use dds_base::items::Items;
use dds_base::name::LeafName;
use dds_base::number::{CallerNo, NodeNo};
use dds_base::op::Op;

/// What picks the next of the possible events: the letter that was made first, the one that was made last, or a word
/// of the generator with this seed.
#[derive(Clone, Copy, PartialEq, Eq, Debug)]
pub enum Picker {
    Fifo,
    Newest,
    Seed(u64),
}

/// A line behind the opening. `Nothing` is an empty line or a comment.
#[derive(Debug, Drop)]
pub enum Line {
    Call {
        caller: CallerNo,
        op: Op,
    },
    Stop {
        node: NodeNo,
    },
    Join {
        brick: NodeNo,
        name: LeafName,
        via: NodeNo,
    },
    Split {
        brick: NodeNo,
        name: LeafName,
    },
    Pick(Picker),
    Events(u32),
    Quiet,
    Post {
        node: NodeNo,
    },
    Take {
        node: NodeNo,
        from: NodeNo,
    },
    Show {
        brick: NodeNo,
    },
    Nothing,
}

/// The lines of a script behind its opening, in their order.
pub type LineList = Items<Line>;
