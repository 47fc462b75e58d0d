//! The headers of WebDAV requests and replies, each read from its values and written as one.
#![tactic(auto)]

pub mod davheaders;
