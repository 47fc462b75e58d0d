//! The locks of stores, a line each.
use crate::change_lines::{kind_of, push_number, push_option};
use crate::paths::{push_name, push_path};
use dav_guarded_core::guarded::Guarded;
use dav_locks_core::ls::DavLock;
use std::alloc::{AllocError, Global};
use std::io::{self, BufWriter, Write};

/// Writes a line for each lock, in their order (own): its token, ` exclusive` or ` shared`, ` deep` or ` shallow`, the moment at which it ends, in nanoseconds since 1970, or `-` where it has none, the principal who has it, or `-` for nobody, and its path. The words are
/// written as those of a change are. Whether there is one.
pub fn list_locks<O: Write + Drop>(
    alloc: Global,
    stores: &Guarded,
    output: &mut BufWriter<O>,
) -> io::Result<bool> {
    let mut is_any = false;
    for lock in stores.locks() {
        let line = lock_line(alloc, lock)?;
        writeln!(output, "{line}")?;
        is_any = true;
    }
    Ok(is_any)
}

fn lock_line(alloc: Global, lock: &DavLock) -> Result<String, AllocError> {
    let mut line = String::new(alloc);
    push_name(&mut line, lock.token.as_str().as_bytes())?;
    line.push_str(kind_of(lock.shared, lock.deep))?;
    let end = match lock.timeout_at {
        Some(moment) => Some(moment.0),
        None => None,
    };
    push_number(&mut line, &end, " -")?;
    line.push(' ')?;
    push_option(&mut line, &lock.principal)?;
    line.push(' ')?;
    push_path(&mut line, &lock.path)?;
    Ok(line)
}
