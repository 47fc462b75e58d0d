//! The laws that a request to a WebDAV server is answered in one way, by its method and as a whole.
#![tactic(auto)]

pub mod laws;
