//! Tables on a disk: a store of tables by their names.
#![tactic(auto)]

pub mod fault;
pub mod lift;
mod met;
mod places;
pub mod split;
pub mod store;
mod walk;
