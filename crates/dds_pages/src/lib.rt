//! The pages of a table on a disk: its root, the buckets of its pairs, and the overflow of long values.
#![tactic(auto)]

pub mod bucket;
pub mod fault;
mod fields;
pub mod old;
pub mod overflow;
pub mod pairs;
pub mod root;
pub mod writer;
