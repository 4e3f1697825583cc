//! Why of a call's attempts the last alone is applied, or pending at a live brick.
#![tactic(auto)]

pub mod laws;
