//! Requests on files under locks. The modules of the crates below stand here too, so that a request handler needs this crate alone.
#![tactic(auto)]

pub mod guarded;

pub use dav_files_core::{fs, memfs};
pub use dav_headers_core::davheaders;
pub use dav_locks_core::{ls, memls};
pub use dav_path_core::{davpath, errors, tree, util};
