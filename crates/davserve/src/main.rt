//! Serves many connections on standard input and output, in frames, or one without them: a WebDAV server.
#![tactic(auto)]

use served::run;
use std::process::ExitCode;

fn main(rt: HostRuntime) -> ExitCode {
    run(&rt)
}
