//! How much of a file is of use.
ghost use Rattle.std.specs.Prelude.{◌≡◌, ◌+◌, ◌*◌, ◌&&◌, nat_le, not};

use dav_snapshots_core::write;
use dav_store_core::Opened;
use std::alloc::{AllocError, Global};

/// What a file has beside its one record once it was compacted: the header with its gate, and what a
/// round has beside its record (own).
const LEAST: u64 = 96;

/// How many bytes the file has once it was compacted that has these stores (own). `AllocError` where
/// there is no memory to write down what they have beside the bytes of files.
pub fn length_of(alloc: Global, opened: &Opened) -> Result<u64, AllocError> {
    let Ok(pieces) = write(alloc, &opened.stores, opened.last) else {
        return Err(AllocError);
    };
    let mut sum = LEAST.saturating_add(pieces.head.len() as u64);
    for body in &pieces.bodies {
        sum = sum.saturating_add(body.len() as u64);
    }
    Ok(sum)
}

/// Whether a file is to be compacted of which so many bytes are used, without the room behind them, and
/// so many would be left: where more than `over` are used, and more than `percent` hundredths of them
/// are of no use (own).
pub fn is_due(used: u64, left: u64, over: u64, percent: u8) -> bool
    ensures due { result ≡ (not (nat_le used over)
        && not (nat_le (used * 100) (left * 100 + used * percent))) }
{
    let kept = u128::from(left) * 100 + u128::from(used) * u128::from(percent);
    used > over && u128::from(used) * 100 > kept
}
