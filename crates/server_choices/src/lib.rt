//! What whoever starts the server chooses by the words behind its name.
#![tactic(auto)]

mod choices;

pub use choices::{Choices, Compacting, LogFormat, Sync, Unread};
