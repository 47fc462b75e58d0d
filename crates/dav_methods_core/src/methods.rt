//! The methods, each on a session.
#![tactic(auto, using(dav_safe_methods_core::proofs::Acting::requests))]

mod changes;
pub mod copy;
pub mod delete;
mod ends;
pub mod lock;
pub mod mkcol;
pub mod moving;
mod preconditions;
pub mod proppatch;
pub mod put;
mod reaching;
pub mod refresh;
mod told_paths;
pub mod unlock;

pub use dav_safe_methods_core::{get, options, propfind};
