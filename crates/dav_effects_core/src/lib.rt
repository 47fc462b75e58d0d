//! What one request of HTTP changed, as a record of bytes, exact both ways.
#![tactic(auto)]

mod callers;
mod changes;
mod commands;
pub mod error;
pub mod fields;
pub mod paths;
mod pieces;
pub mod properties;
pub mod putting;
mod reading;

pub use error::RecordError;
pub use pieces::{Pieces, write};
pub use reading::read;
