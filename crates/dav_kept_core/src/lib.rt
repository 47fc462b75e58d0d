//! A WebDAV server whose stores a journal keeps.
#![tactic(auto)]

mod last_notes;
mod laws;
mod recorded;
mod rooms;
mod run_laws;
mod serving;

pub use laws::stores_open_again;
pub use recorded::Recorded;
pub use rooms::Tree;
pub use run_laws::{kept_runs_are_served, lives_go_on};
pub use serving::{serve_store, serve_store_late};
