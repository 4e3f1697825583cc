//! Stages that hand events on: a queue between two of them, and their composition.
#![tactic(auto)]

pub mod pump;
pub mod queue;
pub mod stage;
