//! What a library does for one of its calls: one definition for each letter, and a function that equals it.
#![tactic(auto)]

pub mod attempt;
pub mod call;
pub mod call_notice;
pub mod refused;
