//! The nodes of the cluster as plain states: what each call, order and letter does to a brick and to a library.
#![tactic(auto)]

pub mod brick;
pub mod library;
pub mod notice;
