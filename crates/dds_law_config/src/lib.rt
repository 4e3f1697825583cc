//! What is proved of every run of every opening, put together.
#![tactic(auto)]

pub mod laws;
