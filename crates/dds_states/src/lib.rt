//! The states of the nodes, and what a turn of one gives.
#![tactic(auto)]

pub mod brick_state;
pub mod library_state;
pub mod nodes;
pub mod turn;
