//! The file of stores, as it is read.
use std::fs::File;
use std::io::{self, BufReader};

// How many bytes are read and written at once.
pub const BUFFER: usize = 64 * 1024;

/// The file, which is read from its front.
pub fn input(rt: &HostRuntime, path: &str) -> io::Result<BufReader<File>> {
    let file = File::open(rt, path)?;
    Ok(BufReader::with_capacity(rt.alloc(), BUFFER, file)?)
}
