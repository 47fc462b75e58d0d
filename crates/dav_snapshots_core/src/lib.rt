//! What stands in stores, as a snapshot of bytes, and the stores of a snapshot.
#![tactic(auto)]

mod entries;
mod late;
mod laws;
mod locks;
mod paths;
mod properties;
mod reading;
mod restoring;
mod setting_back;
mod walks;
mod writing;

pub use laws::{noted_stores_have_paths, snapshots_restore};
pub use reading::read;
pub use setting_back::set_back;
pub use writing::write;
