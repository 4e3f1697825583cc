//! The cluster as a value: its worlds, its steps, and what is kept of a run.
#![tactic(auto)]

pub mod asked_list;
pub mod cluster;
pub mod framed;
mod keyed;
pub mod links;
pub mod made_list;
pub mod opening_world;
pub mod points;
pub mod possible;
pub mod queue;
pub mod run;
pub mod step;
pub mod stopping;
pub mod told_list;
pub mod trace;
pub mod turn;
