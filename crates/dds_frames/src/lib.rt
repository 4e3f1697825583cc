//! Letters as frames of bytes, and frames as letters.
#![tactic(auto)]

mod copied;
pub mod decode;
pub mod encode;
pub mod fault;
mod fields;
pub mod frame;
mod group;
mod letters;
mod parts;
pub mod reader;
mod refusals;
mod tag;
mod writer;
mod writer_letters;
mod writer_parts;
