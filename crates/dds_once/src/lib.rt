//! Why an update stands at most once in the history, and a refused one never.
#![tactic(auto)]

pub mod laws;
