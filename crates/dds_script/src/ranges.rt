//! How many nodes and callers a script may name.

/// The numbers of bricks, libraries and callers of a cluster.
#[derive(Clone, Copy, PartialEq, Eq, Debug)]
pub struct Ranges {
    pub bricks: u8,
    pub libraries: u8,
    pub callers: u8,
}

/// Why a line can't be read: the first of these kinds that it has.
#[derive(Clone, Copy, PartialEq, Eq, Debug)]
pub enum LineFault {
    Form,
    Number,
    Value,
    Memory,
}
