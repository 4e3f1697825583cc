//! The one map that all calls stand in: its operations, its histories, and a table that keeps it.
#![tactic(auto)]

pub mod entry;
pub mod history;
pub mod table;
