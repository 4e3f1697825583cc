//! Members of a leaf that live serve its keys, or are about to.
#![tactic(auto)]

pub mod laws;
