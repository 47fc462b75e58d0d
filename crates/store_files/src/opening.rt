//! How far the opening of a store is.
use crate::progress::Progress;
use dav_store_core::Watch;
use std::fs;

const MEGABYTE: u64 = 1_000_000;

/// Tells how much of a file of stores was read (own).
#[derive(Drop)]
pub struct Opening<'a> {
    rt: &'a HostRuntime,
    progress: Progress<'a>,
    length: u64,
}

impl<'a> Opening<'a> {
    /// Of the file at this path, from now on; 0 stands for a length that the system does not tell (own).
    pub fn of(rt: &'a HostRuntime, path: &str) -> Opening<'a> {
        let length = match fs::metadata(rt, path) {
            Ok(found) => found.len(),
            Err(_) => 0,
        };
        Opening {
            rt,
            progress: Progress::new(rt),
            length,
        }
    }

    /// Ends what is told (own).
    pub fn end(&mut self) {
        self.progress.end();
    }
}

impl Watch for Opening<'_> {
    fn has_read(&mut self, place: usize) {
        if !self.progress.is_due() {
            return;
        }
        let read = place as u64 / MEGABYTE;
        let all = self.length / MEGABYTE;
        if let Ok(text) = format!(in self.rt.alloc(); "opening the store: {read} of {all} MB") {
            self.progress.tell(text.as_str());
        }
    }
}
