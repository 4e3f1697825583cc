//! The forms of a script's lines.

/// What a line is by its place among the forms, before its numbers and values are read. `Blank` is an empty line or a
/// comment; `Fifo`, `Newest` and `Seed` are the three pickers.
#[derive(Clone, Copy, PartialEq, Eq, Debug)]
pub enum Form {
    Blank,
    Cluster,
    Leaf,
    Old,
    Get,
    Put,
    Remove,
    Swap,
    Stop,
    Join,
    Split,
    Fifo,
    Newest,
    Seed,
    Events,
    Quiet,
    Post,
    Take,
    Show,
}
