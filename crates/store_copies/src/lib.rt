//! Copies of a file of stores: the file is followed, without a lock, and what comes of it is taken into a copy. And the whole rounds behind a place in a file.
#![tactic(auto)]

mod behind;
mod coming;
mod failures;
mod following;
mod naming;
mod placed;
mod putting;
mod taking;

pub use behind::{Found, Tail, round_behind};
pub use failures::Failure;
pub use following::follow;
pub use taking::take;
