//! What is claimed of the cluster's runs: their histories, their calls, why calls are refused, and the facts of each
//! world that a run reaches.
#![tactic(auto)]

pub mod runs;
