//! The partition map as a trie over key bits, from the least significant bit.
#![tactic(auto)]

mod leaves;
mod nodes;
mod sorted;
pub mod trie;
