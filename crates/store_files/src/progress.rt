//! A line that tells how far work is, each second on a terminal, where it is written over, and each ten seconds elsewhere.
use crate::clock::now;
use std::io::{IsTerminal, Write};

const SECOND: u64 = 1_000_000_000;

/// Tells how far work is, where it takes a second or more (own). What can't be written is not told.
#[derive(Drop)]
pub struct Progress<'a> {
    rt: &'a HostRuntime,
    // The moment from which on it is told next, in nanoseconds since 1970.
    due: u64,
    is_terminal: bool,
    // Whether a line stands on the terminal that is to be written over.
    stands: bool,
}

impl<'a> Progress<'a> {
    /// Of work that begins now (own). Where the system does not tell the time nothing is told.
    pub fn new(rt: &'a HostRuntime) -> Progress<'a> {
        let due = match now(rt) {
            Ok(moment) => moment.0.saturating_add(SECOND),
            Err(_) => u64::MAX,
        };
        Progress {
            rt,
            due,
            is_terminal: rt.stderr().is_terminal(),
            stands: false,
        }
    }

    /// Whether it is to be told how far the work is (own): a second after it began, and from then on each second on a terminal, and each ten seconds elsewhere.
    pub fn is_due(&mut self) -> bool {
        let Ok(moment) = now(self.rt) else {
            return false;
        };
        if moment.0 < self.due {
            return false;
        }
        let pause = if self.is_terminal {
            SECOND
        } else {
            10 * SECOND
        };
        self.due = moment.0.saturating_add(pause);
        true
    }

    /// Tells it, in place of what stands there on a terminal (own).
    pub fn tell(&mut self, text: &str) {
        if self.is_terminal {
            let _told = write!(self.rt.stderr(), "\r{text}\x1b[K");
            self.stands = true;
        } else {
            let _told = writeln!(self.rt.stderr(), "{text}");
        }
    }

    /// Ends the line on a terminal, so that what is told next stands below it (own).
    pub fn end(&mut self) {
        if self.stands {
            let _told = writeln!(self.rt.stderr(), "");
            self.stands = false;
        }
    }
}
