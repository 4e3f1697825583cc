//! Disks of pages: what a disk promises, a disk over memory, one over a file, and one that forgets.
#![tactic(auto)]

pub mod disk;
pub mod file_disk;
pub mod memory_disk;
pub mod page;
pub mod page_map;
pub mod zero_disk;
