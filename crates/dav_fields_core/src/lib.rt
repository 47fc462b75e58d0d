//! The header fields of a WebDAV server: what those of a request say, and how those of an answer are written.
#![tactic(auto)]

pub mod bases;
pub mod content_types;
pub mod dates;
pub mod depths;
pub mod destinations;
pub mod etags;
pub mod fields;
pub mod listed_tags;
pub mod lock_timeouts;
pub mod preconditions;
pub mod ranges;
pub mod senders;
pub mod state_tokens;
mod tag_fronts;
pub mod tagged;
pub mod targets;
mod words;
