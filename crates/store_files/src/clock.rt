//! The system's clock.
use dav_guarded_core::fs::Moment;
use std::io;
use std::time::{SystemTime, UNIX_EPOCH};

/// The system's moment, in nanoseconds since 1970 (own). `Err` where the system does not tell it.
pub fn now(rt: &HostRuntime) -> io::Result<Moment> {
    match SystemTime::now(rt)?.duration_since(UNIX_EPOCH) {
        Ok(since) => Ok(Moment(u64::try_from(since.as_nanos()).unwrap_or(u64::MAX))),
        Err(_) => Ok(Moment(0)),
    }
}
