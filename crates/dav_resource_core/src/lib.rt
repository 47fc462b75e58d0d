//! Requests on files under locks, and a player of scenarios. The modules of the crates below stand here too, so that whoever has
//! this crate needs no other.
#![tactic(auto)]

pub mod davreplay;

pub use dav_files_core::{fs, memfs};
pub use dav_guarded_core::guarded;
pub use dav_headers_core::davheaders;
pub use dav_locks_core::{ls, memls};
pub use dav_path_core::{davpath, errors, tree, util};
