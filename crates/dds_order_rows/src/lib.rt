//! What a brick does for orders, of other bricks and of its own: one definition for each letter, and a function that
//! equals it.
#![tactic(auto)]

pub mod finishing;
pub mod going_on;
pub mod orders;
pub mod own_letters;
pub mod own_order;
