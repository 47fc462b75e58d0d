//! What is promised of a server behind what stands in front of it: a login, or a service that lets nothing be changed. These are laws over plain data, and do nothing.
#![tactic(auto)]

mod laws;

pub use laws::{logins_keep_promises, read_only_changes_nothing};
