//! What a login knows of the system.
ghost use Rattle.std.specs.Prelude.{◌≡◌};

use crate::clock::Stopwatch;
use dav_login_core::Host;
use dav_users_core::UsersError;
use std::io::{self, Write};

/// The system: its clock, which does not go back, and standard error (own).
#[derive(Drop)]
pub(crate) struct System<'a> {
    rt: &'a HostRuntime,
    stopwatch: Stopwatch<'a>,
}

impl<'a> System<'a> {
    /// From now on (own). `Err` where the system does not tell how time passes.
    pub(crate) fn new(rt: &'a HostRuntime) -> io::Result<System<'a>> {
        Ok(System {
            rt,
            stopwatch: Stopwatch::new(rt)?,
        })
    }
}

impl Host for System<'_> {
    ghost told = { λ old _ new. new ≡ old };

    fn now(&self) -> u64 {
        self.stopwatch.passed()
    }

    fn tell(&mut self, error: &UsersError) {
        let _told = writeln!(
            self.rt.stderr(),
            "the file of users is wrong: {error}; the users stay as they were"
        );
    }
}
