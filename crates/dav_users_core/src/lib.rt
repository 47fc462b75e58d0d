//! Users and their passwords.
#![tactic(auto)]

mod basic;
mod costs;
mod crypting;
mod error;
mod hashes;
mod hashing;
mod letters;
mod users;

pub use basic::Credentials;
pub use error::{LineFault, UsersError};
pub use hashes::{PasswordHash, Scheme};
pub use users::Users;
