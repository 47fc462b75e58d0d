//! The log of requests, in a file or on standard error.
ghost use Rattle.std.specs.Prelude.{⊤};

use crate::clock::{Stopwatch, first_moment};
use crate::stopped::Stopped;
use std::fs::OpenOptions;
use std::io::{self, Write};
use std::os::unix::fs::OpenOptionsExt;
use turn_fronts::Log;

// Its owner reads and writes the log, and the group reads it.
const MODE: u32 = 0o640;

/// Takes the lines of the log (own). The file is opened for each line, so that it may be moved away at any moment; what cannot be written is counted, and told on standard error once a line could be
/// written again.
#[derive(Drop)]
pub(crate) struct LogFile<'a> {
    rt: &'a HostRuntime,
    // Standard error without one.
    path: Option<String>,
    // The moment at which the clock stands, where it does.
    clock: Option<u64>,
    stopwatch: Stopwatch<'a>,
    lost: u64,
}

impl<'a> LogFile<'a> {
    /// A log in the file that is named, which is made where it is not there; `-` is standard error (own). `NoLog` where it can't be opened, `Stream` where the system does not tell how time passes.
    pub(crate) fn open(
        rt: &'a HostRuntime,
        name: String,
        clock: Option<u64>,
    ) -> Result<LogFile<'a>, Stopped> {
        let log = LogFile {
            rt,
            path: if name.as_str() == "-" {
                None
            } else {
                Some(name)
            },
            clock,
            stopwatch: Stopwatch::new(rt)?,
            lost: 0,
        };
        match log.write(&[]) {
            Ok(()) => Ok(log),
            Err(error) => Err(Stopped::NoLog(error)),
        }
    }

    fn write(&self, line: &[u8]) -> io::Result<()> {
        match &self.path {
            None => self.rt.stderr().write_all(line),
            Some(path) => {
                let mut file = OpenOptions::new()
                    .append(true)
                    .create(true)
                    .mode(MODE)
                    .open(self.rt, path.as_str())?;
                file.write_all(line)
            }
        }
    }

    fn tell_lost(&mut self) {
        if self.lost > 0 {
            let _told = writeln!(
                self.rt.stderr(),
                "the log lacks {} lines, which could not be written",
                self.lost
            );
            self.lost = 0;
        }
    }
}

// A line can't be looked at once it was written, so nothing is said of what was.
impl Log for LogFile<'_> {
    ghost takes = { λ _ _ _. ⊤ };

    ghost loses = { λ _ _. ⊤ };

    fn moment(&self) -> u64 {
        match first_moment(self.rt, self.clock) {
            Ok(moment) => moment.0,
            Err(_) => 0,
        }
    }

    fn now(&self) -> u64 {
        self.stopwatch.passed()
    }

    fn line(&mut self, line: &[u8]) {
        match self.write(line) {
            Ok(()) => self.tell_lost(),
            Err(_) => self.lost(),
        }
    }

    fn lost(&mut self) {
        self.lost = self.lost.saturating_add(1);
    }
}
