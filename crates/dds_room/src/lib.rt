//! The room that bricks have, and that copying goes on.
#![tactic(auto)]

pub mod laws;
