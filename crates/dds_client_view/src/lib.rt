//! What somebody who only uses the table sees of a run.
#![tactic(auto)]

pub mod laws;
