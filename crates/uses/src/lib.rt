//! Examples for users: a handler of requests, a manager of locks, a reader of headers, a store on `Tree`, folders and files of any
//! file system, and a file system that is only read.
#![tactic(auto)]

pub mod calendars;
pub mod elsewhere;
pub mod handling;
pub mod locking;
pub mod read_only;
pub mod reading_headers;
pub mod sizes;
pub mod writing_parts;
