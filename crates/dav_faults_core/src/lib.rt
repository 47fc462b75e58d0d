//! Why a request of a WebDAV server is refused, and by which status.
#![tactic(auto)]

pub mod faults;
