//! The documents of a WebDAV server: what the bodies of its requests ask for, and what the bodies of its answers tell.
#![tactic(auto)]

pub mod bodies;
pub mod documents;
pub mod elements;
pub mod laws;
pub mod live_properties;
pub mod lock_documents;
pub mod lock_infos;
pub mod patch_bodies;
pub mod property_documents;
pub mod property_questions;
pub mod property_updates;
pub mod refusal_documents;
