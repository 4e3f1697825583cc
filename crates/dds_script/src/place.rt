//! Where a line of a script stands.

/// Where a line stands: before the cluster line was read, behind it or a leaf, behind a stale leaf, or behind a line
/// that isn't of the opening.
#[derive(Clone, Copy, PartialEq, Eq, Debug)]
pub enum Place {
    BeforeCluster,
    Leaves,
    Old,
    Body,
}
