//! A journal: a file of records that a crash at any moment leaves whole.
#![tactic(auto)]

mod appending;
mod batch;
mod clocked;
mod error;
mod header;
mod journal;
mod laws;
mod making;
mod parsing;
mod reader;
mod round;
mod source;
mod sum;
mod writing;

pub use batch::Batch;
pub use clocked::Clocked;
pub use error::JournalError;
pub use header::Header;
pub use journal::Journal;
pub use laws::{copies_are_whole, journals_are_one, runs_live_on};
pub use parsing::{are_records, number_of, split_record};
pub use reader::Reader;
pub use round::Round;
pub use source::{Source, Stream};
pub use sum::sum_at;
