//! Why two leaves with one stamp differ in their names alone.
#![tactic(auto)]

pub mod laws;
