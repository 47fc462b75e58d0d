//! Locks on paths.
#![tactic(auto)]

pub mod ls;
pub mod memls;
