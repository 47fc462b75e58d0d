//! A server of WebDAV as whoever starts it chooses: over stores in memory, or in a file, and behind what stands in front of it.
#![tactic(auto)]

mod chosen;
mod clock;
mod fronts;
mod host;
mod keeping;
mod lease;
mod limits;
mod log;
mod logins;
mod memory;
mod place;
mod program;
mod stopped;
mod stored;
mod streams;
mod turns;

pub use program::run;
