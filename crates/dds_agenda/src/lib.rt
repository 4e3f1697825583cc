//! The agenda of a cluster: the first letter of each outbox and link that holds one, by the letters' numbers.
#![tactic(auto)]

pub mod agenda;
pub mod entry;
