//! The lock manager of a brick: pending transactions, which lock their keys, write leases, and outcomes.
#![tactic(auto)]

pub mod leases;
pub mod locks;
pub mod outcomes;
pub mod pending;
