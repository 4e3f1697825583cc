//! Letters between nodes, as data, and the outbox in which a node leaves them.
#![tactic(auto)]

pub mod copied_pairs;
pub mod letter;
pub mod outbox;
pub mod refusal;
