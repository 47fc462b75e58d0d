//! What stands in front of a service that answers turns: it lets nothing be changed, or tells as whose each call was answered; and the log that has a line for each request (own).
#![tactic(auto)]

mod laws;
mod lines;
mod looking;
mod may_log;
mod named;
mod noting;
mod read_only;
mod recording;
mod turning;

pub use laws::{looks_lead_behind, names_lead_behind};
pub use lines::Format;
pub use may_log::MayLog;
pub use named::Named;
pub use noting::{Log, Notes};
pub use read_only::ReadOnly;
