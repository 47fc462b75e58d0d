//! Many HTTP connections over one pair of streams, which take turns: each turn makes one call of the service at most, and answers go out no further than their readers follow.
#![tactic(auto)]

pub mod clients;
pub mod closing;
pub mod frames;
pub mod gate;
pub mod gathered;
mod held;
pub mod laws;
mod logging;
pub mod serving;
mod table;
mod waiting;
