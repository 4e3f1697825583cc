//! How a command ends: its words, its limits, its status, and what a program says.
#![tactic(auto)]

pub mod command;
pub mod end;
pub mod telling;
