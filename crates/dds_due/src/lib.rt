//! Why a call whose library lives is answered once nothing is on its way any more.
#![tactic(auto)]

pub mod laws;
