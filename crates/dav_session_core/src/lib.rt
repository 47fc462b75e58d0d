//! Who asks, and what one request of HTTP asks of the stores of `dav_guarded_core`.
#![tactic(auto)]

pub mod session;
