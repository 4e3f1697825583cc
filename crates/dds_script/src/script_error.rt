//! Why bytes are no script.

/// What is wrong with a line.
#[derive(Clone, Copy, PartialEq, Eq, Debug)]
pub enum ScriptKind {
    NoEnd,
    Form,
    Place,
    Number,
    Value,
    Cover,
}

/// The first line that is not accepted, counted from 1, and what is wrong with it.
#[derive(Clone, Copy, PartialEq, Eq, Debug)]
pub struct ScriptFault {
    pub line: u32,
    pub kind: ScriptKind,
}

/// Why there is no script.
#[derive(Clone, Copy, PartialEq, Eq, Debug)]
pub enum ScriptError {
    Fault(ScriptFault),
    Memory,
}
