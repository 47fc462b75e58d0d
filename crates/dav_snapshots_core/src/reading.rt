//! Snapshots that are read.
ghost use Rattle.std.specs.Prelude.{◌≡◌, ℕ, Ok, MatchResult, IfErr, IfOk};
ghost use Rattle.dav_guarded_core.specs.Stores.{Stores};
ghost use Rattle.dav_effects_core.specs.Reads.{ReadsField};
ghost use Rattle.dav_effects_core.specs.RecordFaults.{IsFault};
ghost use Rattle.dav_snapshots_core.specs.Private.ReadSnapshots.{ReadsSnapshot};
ghost use Rattle.dav_snapshots_core.specs.SnapshotReading.{snapshot_at, snapshot_head_at};
ghost use Rattle.dav_snapshots_core.specs.WrittenSnapshots.{HasPaths, IsSnapshot};

use crate::restoring::{new_stores, read_entries, read_locks};
use dav_effects_core::RecordError;
use dav_effects_core::error::{ReadError, record_error};
use dav_effects_core::fields::{counted_of, number_of};
use dav_files_core::fs::Moment;
use dav_guarded_core::guarded::Guarded;
use std::alloc::Global;

/// Reads a snapshot: the stores as they stood, with all numbers and times, the locks in their order, and
/// the last moment that was noted of them (own).
///
/// `OutOfMemory` where there is no memory; `Damaged` with the byte at which the first field, folder, file
/// or lock stands that is none, or can't be restored.
pub fn read(alloc: Global, bytes: &[u8]) -> Result<(Guarded, Moment), RecordError>
    // What is read is what reading gives.
    ensures found { IfOk result (λ r. snapshot_at bytes.now ≡ Ok (r.0, r.1.0)) }
    // A snapshot is read as the stores and the moment that it is of, unless memory runs out.
    ensures only { (s : Stores) (now : ℕ) → IsSnapshot s now bytes.now → HasPaths s.map
        → MatchResult result (λ r. (r.0 ≡ s) × (r.1.0 ≡ now)) (λ e. e ≡ RecordError.OutOfMemory) }
    // Which fault it is.
    ensures fault { IfErr result (λ e. IsFault e (snapshot_at bytes.now)) }
{
    read_all(alloc, bytes)
}

#[tactic(auto, unfolding(crate::specs::SnapshotReading::snapshot_at))]
fn read_all(alloc: Global, bytes: &[u8]) -> Result<(Guarded, Moment), RecordError>
    ensures { ReadsSnapshot result (snapshot_at bytes.now) }
{
    let (head, bodies) = match counted_of(bytes) {
        Ok(parts) => parts,
        Err(error) => return Err(record_error(error, bytes.len())),
    };
    let end = bytes.len().saturating_sub(bodies.len());
    let (stores, now, left) = match read_head(alloc, bodies, head) {
        Ok(found) => found,
        Err(error) => return Err(record_error(error, end)),
    };
    if !left.is_empty() {
        let at = bytes.len().saturating_sub(left.len());
        return Err(RecordError::Damaged { at });
    }
    Ok((stores, now))
}

// The stores and the moment of a head, and the bytes of files that are left.
#[tactic(auto, unfolding(crate::specs::SnapshotReading::snapshot_head_at))]
fn read_head<'a>(
    alloc: Global,
    bodies: &'a [u8],
    head: &[u8],
) -> Result<(Guarded, Moment, &'a [u8]), ReadError>
    ensures { ReadsField (λ x. ((x.0, x.1.0), x.2.now)) result (snapshot_head_at bodies.now head.now) }
{
    let (now, rest) = number_of(head)?;
    let (next, rest) = number_of(rest)?;
    let mut stores = new_stores(alloc, now)?;
    let mut before = Vec::new(alloc);
    let (bodies, rest) = read_entries(alloc, &mut stores, &mut before, bodies, rest)?;
    stores.raise_next_number(next);
    before.clear();
    let rest = read_locks(alloc, &mut stores, &mut before, bodies, rest)?;
    if !rest.is_empty() {
        return Err(ReadError::Fault(rest.len()));
    }
    Ok((stores, Moment(now), bodies))
}
