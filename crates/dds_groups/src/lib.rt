//! Leaves of the partition map: which of two is newer, which comes from which, and which a brick makes or takes.
#![tactic(auto)]

pub mod halves;
pub mod live;
pub mod made;
pub mod order;
pub mod successor;
pub mod take;
