//! Locks, each behind the one before.
ghost use Rattle.std.specs.Prelude.{◌≡◌, ◌++◌, option_map, string_bytes, IfOk, IfSome, OnOk};
ghost use Rattle.dav_effects_core.specs.ByteForms.{FitsInEight, IsUtf8Text, counted_text, flag_text, number_text, optional_text};
ghost use Rattle.dav_effects_core.specs.Reads.{ReadsField};
ghost use Rattle.dav_snapshots_core.specs.SnapshotReading.{stored_lock_at};
ghost use Rattle.dav_snapshots_core.specs.SnapshotText.{lock_text};
ghost use Rattle.dav_snapshots_core.specs.WrittenSnapshots.{IsSnapshotLock};

use dav_effects_core::error::ReadError;
use dav_effects_core::fields::{
    flag_of, following_of, optional_number_of, optional_text_of, text_of,
};
use dav_effects_core::putting::{
    put_following, put_lock_kind, put_optional_number, put_optional_text, put_text,
};
use dav_files_core::fs::Moment;
use dav_locks_core::ls::DavLock;
use dav_path_core::davpath::DavPath;
use std::alloc::{AllocError, Global};

// The moment as a number.
fn number_from(moment: Option<Moment>) -> Option<u64>
    ensures { result ≡ option_map (λ m. m.0) moment }
{
    match moment {
        None => None,
        Some(moment) => Some(moment.0),
    }
}

// The number as a moment.
fn moment_from(number: Option<u64>) -> Option<Moment>
    ensures { option_map (λ m. m.0) result ≡ number }
{
    match number {
        None => None,
        Some(number) => Some(Moment(number)),
    }
}

// Whose the lock is, when it ends, and which it is.
fn put_lock_state(
    out: &mut Vec<u8>,
    principal: &Option<String>,
    owner: &Option<String>,
    timeout_at: Option<u64>,
    timeout: Option<u64>,
    shared: bool,
    deep: bool,
) -> Result<(), AllocError>
    ensures text { OnOk result (out.new.items ≡ out.old.items ++ (optional_text counted_text (option_map string_bytes principal.now)
        ++ (optional_text counted_text (option_map string_bytes owner.now) ++ (optional_text number_text timeout_at
        ++ (optional_text number_text timeout ++ (flag_text shared ++ flag_text deep)))))) }
    ensures principal { OnOk result (IfSome (option_map string_bytes principal.now) IsUtf8Text) }
    ensures owner { OnOk result (IfSome (option_map string_bytes owner.now) IsUtf8Text) }
    ensures timeout_at { OnOk result (IfSome timeout_at FitsInEight) }
    ensures timeout { OnOk result (IfSome timeout FitsInEight) }
{
    put_optional_text(out, principal)?;
    put_optional_text(out, owner)?;
    put_optional_number(out, timeout_at)?;
    put_lock_kind(out, timeout, shared, deep)
}

/// Puts a lock behind the path before.
#[tactic(auto, unfolding(crate::specs::SnapshotText::lock_text))]
pub(crate) fn put_lock(out: &mut Vec<u8>, before: &[u8], lock: &DavLock) -> Result<(), AllocError>
    ensures text { OnOk result (out.new.items ≡ out.old.items ++ lock_text before.now lock.now) }
    ensures fits { OnOk result (IsSnapshotLock lock.now) }
{
    put_text(out, &lock.token)?;
    put_text(out, lock.path.prefix())?;
    put_following(out, before, lock.path.as_bytes())?;
    put_lock_state(
        out,
        &lock.principal,
        &lock.owner,
        number_from(lock.timeout_at),
        lock.timeout,
        lock.shared,
        lock.deep,
    )
}

/// A lock, whose path takes the place of the one before.
#[tactic(auto, unfolding(crate::specs::SnapshotReading::stored_lock_at))]
pub(crate) fn read_lock<'a>(
    alloc: Global,
    before: &mut Vec<u8>,
    bytes: &'a [u8],
) -> Result<(DavLock, &'a [u8]), ReadError>
    ensures reads { ReadsField (λ x. (x.0, x.1.now)) result (stored_lock_at before.old.items bytes.now) }
    ensures before { IfOk result (λ x. before.new.items ≡ x.0.path.bytes) }
{
    let (token, rest) = text_of(alloc, bytes)?;
    let (prefix, rest) = text_of(alloc, rest)?;
    let (text, rest) = following_of(alloc, before, rest)?;
    let (principal, rest) = optional_text_of(alloc, rest)?;
    let (owner, rest) = optional_text_of(alloc, rest)?;
    let (timeout_at, rest) = optional_number_of(rest)?;
    let (timeout, rest) = optional_number_of(rest)?;
    let (shared, rest) = flag_of(rest)?;
    let (deep, rest) = flag_of(rest)?;
    let path = DavPath::from_parts(alloc, &prefix, &text)?;
    *before = text;
    let lock = DavLock {
        token,
        path,
        principal,
        owner,
        timeout_at: moment_from(timeout_at),
        timeout,
        shared,
        deep,
    };
    Ok((lock, rest))
}
