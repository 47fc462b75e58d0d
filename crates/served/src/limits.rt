//! How much the connections may take.
ghost use Rattle.std.specs.Prelude.{[], IfOk};
ghost use Rattle.http_frames.specs.Clients.{Has};

use http_frames::clients::{Bounds, Clients, Windows};
use http_server::Config;
use line_streams::Fault;
use server_choices::Choices;
use std::hash::RandomState;

// A client may send so many bytes before it is granted more.
const INTAKE: u64 = 256 * 1024;

/// How much each connection may take, and all of them together.
#[derive(Drop)]
pub(crate) struct Limits {
    /// Of one connection, what its requests may have.
    pub(crate) config: Config,
    /// How far answers and input go ahead.
    pub(crate) windows: Windows,
    /// How much all may hold.
    pub(crate) bounds: Bounds,
}

impl Limits {
    /// Those that are chosen.
    pub(crate) fn of(choices: &Choices) -> Limits {
        let mut config = Config::default();
        config.max_body_len = choices.max_body;
        Limits {
            config,
            windows: Windows {
                out: choices.window,
                into: INTAKE,
                closed: false,
            },
            bounds: Bounds {
                waiting: choices.waiting,
                unfinished: choices.unfinished.max(choices.max_body as u64),
            },
        }
    }

    /// No client yet, within these limits. `Io` where the system gives no random keys.
    pub(crate) fn clients(self, rt: &HostRuntime) -> Result<Clients, Fault>
        ensures has { IfOk result (λ clients. Has clients []) }
    {
        Ok(Clients::new(
            rt.alloc(),
            RandomState::new(rt)?,
            self.config,
            self.windows,
            self.bounds,
        ))
    }
}
