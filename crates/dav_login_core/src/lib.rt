//! Login by a name and a password in front of a service (RFC 7617).
#![tactic(auto)]

mod addresses;
mod admitting;
mod buckets;
mod challenges;
mod checking;
mod digests;
mod friends;
mod guesses;
mod known;
mod labels;
mod laws;
mod login;
mod networks;
mod passing;
mod recording;
mod sending;
mod telling;
mod turning;
mod watching;
mod weighing;

pub use addresses::Addresses;
pub use challenges::LoginError;
pub use laws::{
    calls_lead_behind, few_guesses_are_let_through, messages_tell_names_and_passwords,
    runs_lead_behind, turns_lead_behind,
};
pub use login::{Fields, Login};
pub use watching::Host;
