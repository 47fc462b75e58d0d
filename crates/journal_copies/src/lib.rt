//! Copies of journals: whole rounds are found in bytes, read from a stream and appended; and a gate is shut whose round a copy has not whole.
#![tactic(auto)]

mod adopting;
mod appending;
mod laws;
mod looking;
mod passing;
mod reading;
mod rounds;
mod searching;

pub use adopting::{Break, find_break, shut};
pub use appending::{append_rounds, records_of};
pub use laws::rounds_are_one;
pub use looking::Looking;
pub use passing::next_round;
pub use reading::read_round;
pub use rounds::{records_in, whole_round};
pub use searching::find_round;
