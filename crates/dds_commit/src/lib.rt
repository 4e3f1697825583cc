//! Two-phase commit under stops, splits and joins: all its parts together, in every run.
#![tactic(auto)]

pub mod laws;
