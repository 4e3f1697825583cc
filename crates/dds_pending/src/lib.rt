//! What transactions that are pending list: the live members of the leaves that cover their keys.
#![tactic(auto)]

pub mod laws;
