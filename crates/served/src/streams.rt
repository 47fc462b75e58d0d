//! The clients of the server, and the streams of their frames.
use http_frames::clients::Clients;
use http_frames::frames::Frames;
use line_streams::Fault;
use std::io::Write;

// What tells the listener that the server stands.
const READY: &[u8] = b"ready\n";

/// The clients, and the streams of their frames (own).
#[derive(Drop)]
pub(crate) struct Streams<I, O> {
    /// The connections.
    pub(crate) clients: Clients,
    /// What comes in.
    pub(crate) frames: Frames<I>,
    /// What goes out.
    pub(crate) output: O,
}

impl<I, O: Write> Streams<I, O> {
    /// Tells the listener that the server stands, before anything else (own). An error where the output fails, or there is no memory.
    pub(crate) fn tell_ready(&mut self) -> Result<(), Fault> {
        self.output.write_all(READY)?;
        Ok(self.output.flush()?)
    }
}
