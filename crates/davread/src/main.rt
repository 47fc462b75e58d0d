//! Says what values of headers, paths, methods and documents mean: one line of standard input, one answer a line of standard output.
#![tactic(auto)]

mod equality;
mod headers;
mod lines;
mod methods;
mod paths;
mod refusals;
mod telling;
mod words;
mod xml;

use line_streams::Fault;
use lines::answer_lines;
use std::io::Write;
use std::process::ExitCode;

fn main(rt: HostRuntime) -> ExitCode {
    match answer_lines(rt.alloc(), rt.stdin(), rt.stdout()) {
        Ok(()) => ExitCode::from(0),
        Err(fault) => stopped(rt.stderr(), fault),
    }
}

// Tells why no more lines were read. A failed write changes no status.
fn stopped<E: Write + Drop>(mut faults: E, fault: Fault) -> ExitCode {
    let _written = faults.write_all(fault.text());
    ExitCode::from(3)
}
