//! The partition map of a node.
#![tactic(auto)]

pub mod maps;
