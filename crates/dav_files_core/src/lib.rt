//! Files in memory, as resources on paths.
#![tactic(auto)]

pub mod fs;
pub mod memfs;
