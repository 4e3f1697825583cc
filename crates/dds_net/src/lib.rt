//! The cluster as nodes by number and channels between them; each step of a run is one move of these.
#![tactic(auto)]

pub mod moves;
