//! What stands in a file of stores. It is read, without a lock, for whether it is whole, what there is in it, what requests changed, and what stood in it before it is broken. A copy that ends within a round is adopted.
#![tactic(auto)]

mod adopting;
mod change_lines;
mod later;
mod listing;
mod lock_lines;
mod logging;
mod looking;
mod paths;
mod playing;
mod salvaging;

pub use adopting::{End, adopt, end_of, header_of, is_wanted};
pub use later::{Later, later_in, tell_later};
pub use listing::list;
pub use lock_lines::list_locks;
pub use logging::{Logged, log};
pub use looking::{Broken, Seen, Whole, look};
pub use paths::{Paths, told_member, told_path};
pub use salvaging::{Front, read_front};
