//! Looks into a file of stores: whether it is whole, and what stands in it, which it exports, too. That takes no lock, and writes nothing into the file. Or compacts it, imports into it, adopts it as a copy, or adds to it what comes from one that is followed, which does both.
#![tactic(auto)]

use std::process::ExitCode;
use store_tools::run;

fn main(rt: HostRuntime) -> ExitCode {
    ExitCode::from(run(&rt))
}
