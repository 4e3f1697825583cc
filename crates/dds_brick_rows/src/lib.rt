//! What a brick does for the calls of libraries, for leaves that it is told, and to resolve transactions: one definition
//! for each letter, and a function that equals it.
#![tactic(auto)]

pub mod calls;
pub mod refusal;
pub mod resolution;
pub mod take;
