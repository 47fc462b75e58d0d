//! A WebDAV server over the stores of `dav_guarded_core`, as a service of the kit's `http_server`.
//! The modules of the crates below whose items its callers name stand here too.
#![tactic(auto)]

pub mod dav;
pub mod serving;

pub use dav_faults_core::faults;
pub use dav_fields_core::{etags, preconditions, ranges};
pub use dav_methods_core::conditions;
pub use dav_session_core::session;
