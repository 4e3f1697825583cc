//! What is so of the calls of every run: the entries of the history are theirs, and why they were answered so.
#![tactic(auto)]

pub mod laws;
