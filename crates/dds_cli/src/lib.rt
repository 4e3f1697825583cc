//! The top call: a command's words, a source and a sink.
#![tactic(auto)]

pub mod ended;
#[cfg(test)]
mod journal_tests;
pub mod steps;
#[cfg(test)]
mod tests;
