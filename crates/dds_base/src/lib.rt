//! The types that every other crate speaks of: numbers with their ranges, leaves of the partition map, operations
//! and their replies, lists, and the byte sources and sinks of the outside.
#![tactic(auto)]

pub mod brick_list;
pub mod items;
pub mod leaf;
pub mod memory;
pub mod memory_sink;
pub mod memory_source;
pub mod name;
pub mod node_set;
pub mod number;
pub mod op;
pub mod pair;
pub mod pending;
pub mod place;
pub mod sink;
pub mod source;
pub mod std_edge;
pub mod update;
pub mod value;
