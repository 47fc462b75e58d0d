//! What each method of a WebDAV server does in a session, and what it tells. The modules of the
//! crate below whose items its callers name stand here too.
#![tactic(auto)]

pub mod conditions;
pub mod methods;

pub use dav_safe_methods_core::{describing, pages, refusals};
