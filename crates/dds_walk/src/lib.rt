//! The walk of a script: the journal that it determines, and its transcript over a journal.
#![tactic(auto)]

pub mod lines;
pub mod moving;
pub mod picking;
pub mod playing;
pub mod reports;
pub mod run;
pub mod same;
pub mod showing;
pub mod touched;
pub mod walk;
