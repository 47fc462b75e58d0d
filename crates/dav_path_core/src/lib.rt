//! Paths of WebDAV resources, methods, the errors of calls on files, moments, and trees of numbered nodes.
#![tactic(auto)]

pub mod child_index;
pub mod davpath;
pub mod errors;
pub mod tree;
pub mod util;
