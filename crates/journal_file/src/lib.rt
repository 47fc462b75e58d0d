//! A journal in a file of the system.
#![tactic(auto)]

mod opening;

pub use opening::{open, open_file};
