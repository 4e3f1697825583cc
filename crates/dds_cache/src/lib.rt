//! A cache of a disk's pages, which writes through.
#![tactic(auto)]

pub mod cache;
mod calls;
mod recent;
