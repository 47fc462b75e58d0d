//! The file of stores: made, and compacted, which puts a new one in its place. And how far long work is, told on standard error.
#![tactic(auto)]

mod clock;
mod compacting;
mod error;
mod making;
mod measuring;
mod opening;
mod placing;
mod progress;
mod settling;

pub use clock::now;
pub use compacting::{
    Anew, Compacted, Unwatched, compact_file, compact_opened, header_of, make_store,
};
pub use error::Uncompacted;
pub use making::{Naming, Stood, find_or_make, has_name, is_one_file, make_new};
pub use measuring::{is_due, length_of};
pub use opening::Opening;
pub use placing::{
    HEADER, clear, clear_draft, draft_of, header_at, make_like, sync_folder, version_of,
};
pub use progress::Progress;
pub use settling::{settle_file, settle_opened};
