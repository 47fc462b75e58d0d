//! A server of many connections whose answers are handed out once a journal keeps what they tell of.
#![tactic(auto)]

mod error;
mod late;
mod recording;
mod rounds;
mod serving;
mod told;
mod touching;

pub use error::KeptError;
pub use late::serve_late;
pub use recording::Recording;
pub use serving::serve_kept;
pub use told::Told;
