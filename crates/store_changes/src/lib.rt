//! What changes a file of stores while no server runs: what stands in a folder of the system is imported, and a lock is ended that its holder has forgotten. And what is proved of both.
#![tactic(auto)]

mod adding;
mod additions;
mod ending;
mod entries;
mod importing;
mod laws;
mod properties;
mod sources;
mod unlocking;

pub use adding::{Unimported, add, check_free};
pub use ending::{Unended, end_lock};
pub use entries::Entry;
pub use importing::import;
pub use laws::imports_are_kept;
pub use properties::{NAME, NAMESPACE, time_of};
pub use sources::{at, member_of, names_of};
pub use unlocking::unlock;
