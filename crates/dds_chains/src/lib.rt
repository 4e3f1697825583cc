//! Tables of chained pages on a disk: a table's buckets are chains of pages, and long values stand in overflow pages.
#![tactic(auto)]

pub mod change;
pub mod fault;
pub mod pairs;
pub mod part;
pub mod removal;
pub mod space;
pub mod table;
mod value;
