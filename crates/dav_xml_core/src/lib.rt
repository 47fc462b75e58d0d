//! XML documents, read from bytes and written.
#![tactic(auto)]

pub mod davxml;
