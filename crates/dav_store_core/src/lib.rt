//! Stores that are kept in a journal.
#![tactic(auto)]

mod compacting;
mod error;
mod laws;
mod looking;
mod opened;
mod opening;
mod rounds;

pub use compacting::compact;
pub use error::StoreError;
pub use laws::stores_come_back;
pub use opened::Opened;
pub use opening::{Watch, load};
pub use rounds::add_record;
