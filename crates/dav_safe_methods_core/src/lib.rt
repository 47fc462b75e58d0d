//! What the safe methods of a WebDAV server do in a session, and how what stands and a refusal are
//! told.
#![tactic(auto)]

pub mod describing;
pub mod get;
pub mod options;
pub mod pages;
pub mod propfind;
pub mod refusals;
