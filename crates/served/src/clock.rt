//! The moment at which a server begins, its clock from then on, and one that does not go back.
ghost use Rattle.std.specs.Prelude.{◌≡◌, None, false};

use dav_guarded_core::fs::Moment;
use dav_handler_core::serving::Clock;
use std::io;
use std::time::Instant;
use store_files::now;

/// The moment at which the server begins: the one that is chosen, or else the system's (own). `Err` where the system does not tell it.
pub(crate) fn first_moment(rt: &HostRuntime, chosen: Option<u64>) -> io::Result<Moment> {
    match chosen {
        Some(nanoseconds) => Ok(Moment(nanoseconds)),
        None => now(rt),
    }
}

/// The system's clock, where it is the one that counts.
#[derive(Drop)]
pub(crate) struct SystemClock<'a> {
    /// What asks the system.
    pub(crate) rt: &'a HostRuntime,
    /// Whether it counts.
    pub(crate) runs: bool,
}

impl Clock for SystemClock<'_> {
    ghost tells = { λ old told new. (new.runs ≡ old.runs) × (old.runs ≡ false → told ≡ None) };

    fn moment(&mut self) -> Option<Moment> {
        if self.runs { now(self.rt).ok() } else { None }
    }
}

/// A clock that does not go back (own).
#[derive(Drop)]
pub(crate) struct Stopwatch<'a> {
    rt: &'a HostRuntime,
    began: Instant,
}

impl<'a> Stopwatch<'a> {
    /// From now on (own). `Err` where the system does not tell how time passes.
    pub(crate) fn new(rt: &'a HostRuntime) -> io::Result<Stopwatch<'a>> {
        Ok(Stopwatch {
            rt,
            began: Instant::now(rt)?,
        })
    }

    /// How many nanoseconds have passed (own); 0 where the system does not tell it.
    pub(crate) fn passed(&self) -> u64 {
        match self.began.elapsed(self.rt) {
            Ok(passed) => u64::try_from(passed.as_nanos()).unwrap_or(u64::MAX),
            Err(_) => 0,
        }
    }
}
