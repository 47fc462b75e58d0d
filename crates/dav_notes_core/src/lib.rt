//! The stores of `dav_guarded_core` with notes of the requests that changed them, and the playing of
//! notes again.
#![tactic(auto)]

mod budget;
pub mod costs;
pub mod drawn;
pub mod error;
pub mod laws;
pub mod noted;
pub mod notes;
pub mod playing;
pub mod senders;
