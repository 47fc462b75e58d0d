//! Commands that are read. Each path stands behind the one before, and takes its place; bodies are taken from the front of those that are left.
ghost use Rattle.std.specs.Prelude.{◌≡◌, ◌≤◌, ◌<◌, [], length, IfOk};
ghost use Rattle.dav_path_core.specs.PathText.{folder_bytes};
ghost use Rattle.dav_path_core.specs.Segments.{segments};
ghost use Rattle.dav_guarded_core.specs.Served.{command_of};
ghost use Rattle.dav_guarded_core.specs.Requests as plain;
ghost use Rattle.dav_effects_core.specs.ByteForms.{value_at};
ghost use Rattle.dav_effects_core.specs.RecordReading.{command_at, command_fields_at, lock_at, path_at, patches_at, put_command_at, refresh_at, two_paths_at, unlock_at, write_command_at};
ghost use Rattle.dav_effects_core.specs.RecordText.{body_of, path_behind};
ghost use Rattle.dav_effects_core.specs.Reads.{ReadsField};

use crate::error::ReadError;
use crate::fields::{
    flag_of, following_of, number_of, optional_number_of, optional_size_of, optional_text_of,
    text_of,
};
use crate::paths::path_of;
use crate::properties::patches_of;
use bytes::Bytes;
use dav_guarded_core::guarded::Command;
use dav_path_core::davpath::DavPath;
use std::alloc::Global;

#[tactic(auto, unfolding(crate::specs::RecordReading::put_command_at))]
fn put_of<'a>(
    alloc: Global,
    before: &mut Vec<u8>,
    bodies: &[u8],
    bytes: &'a [u8],
) -> Result<(Command, &'a [u8]), ReadError>
    ensures reads { ReadsField (λ x. (command_of x.0, x.1.now)) result (put_command_at before.old.items bodies.now bytes.now) }
    ensures before { IfOk result (λ x. before.new.items ≡ path_behind before.old.items (command_of x.0)) }
    ensures within { IfOk result (λ x. length (body_of (command_of x.0)) ≤ length bodies.now) }
{
    let (path, rest) = path_of(alloc, before, bytes)?;
    let (len, rest) = number_of(rest)?;
    let len = len as usize;
    if bodies.len() < len {
        return Err(ReadError::Fault(bytes.len()));
    }
    let body = Bytes::copy_from_slice(alloc, &bodies[..len])?;
    Ok((Command::Put { path, bytes: body }, rest))
}

#[tactic(auto, unfolding(crate::specs::RecordReading::write_command_at))]
fn write_of<'a>(
    alloc: Global,
    before: &mut Vec<u8>,
    bodies: &[u8],
    bytes: &'a [u8],
) -> Result<(Command, &'a [u8]), ReadError>
    ensures reads { ReadsField (λ x. (command_of x.0, x.1.now)) result (write_command_at before.old.items bodies.now bytes.now) }
    ensures before { IfOk result (λ x. before.new.items ≡ path_behind before.old.items (command_of x.0)) }
    ensures within { IfOk result (λ x. length (body_of (command_of x.0)) ≤ length bodies.now) }
{
    let (path, rest) = path_of(alloc, before, bytes)?;
    let (at, rest) = optional_size_of(rest)?;
    let (len, rest) = number_of(rest)?;
    let len = len as usize;
    if bodies.len() < len {
        return Err(ReadError::Fault(bytes.len()));
    }
    let body = Bytes::copy_from_slice(alloc, &bodies[..len])?;
    let command = Command::Write {
        path,
        at,
        bytes: body,
    };
    Ok((command, rest))
}

#[tactic(auto, unfolding(crate::specs::RecordReading::two_paths_at))]
fn two_paths_of<'a>(
    alloc: Global,
    before: &mut Vec<u8>,
    bytes: &'a [u8],
) -> Result<(DavPath, DavPath, &'a [u8]), ReadError>
    ensures reads { ReadsField (λ x. ((segments x.0.bytes, segments x.1.bytes), x.2.now)) result (two_paths_at before.old.items bytes.now) }
    ensures before { IfOk result (λ x. before.new.items ≡ folder_bytes (segments x.1.bytes)) }
{
    let (from, rest) = path_of(alloc, before, bytes)?;
    let (to, rest) = path_of(alloc, before, rest)?;
    Ok((from, to, rest))
}

#[tactic(auto, unfolding(crate::specs::RecordReading::patches_at))]
fn patch_props_of<'a>(
    alloc: Global,
    before: &mut Vec<u8>,
    bytes: &'a [u8],
) -> Result<(Command, &'a [u8]), ReadError>
    ensures reads { ReadsField (λ x. (command_of x.0, x.1.now)) result (patches_at before.old.items bytes.now) }
    ensures before { IfOk result (λ x. before.new.items ≡ path_behind before.old.items (command_of x.0)) }
    ensures within { IfOk result (λ x. body_of (command_of x.0) ≡ []) }
{
    let (path, rest) = path_of(alloc, before, bytes)?;
    let (patch, rest) = patches_of(alloc, rest)?;
    Ok((Command::PatchProps { path, patch }, rest))
}

#[tactic(auto, unfolding(crate::specs::RecordReading::lock_at))]
fn lock_of<'a>(
    alloc: Global,
    before: &mut Vec<u8>,
    bytes: &'a [u8],
) -> Result<(Command, &'a [u8]), ReadError>
    ensures reads { ReadsField (λ x. (command_of x.0, x.1.now)) result (lock_at before.old.items bytes.now) }
    ensures before { IfOk result (λ x. before.new.items ≡ path_behind before.old.items (command_of x.0)) }
    ensures within { IfOk result (λ x. body_of (command_of x.0) ≡ []) }
{
    let (prefix, rest) = text_of(alloc, bytes)?;
    let (text, rest) = following_of(alloc, before, rest)?;
    let (owner, rest) = optional_text_of(alloc, rest)?;
    let (timeout, rest) = optional_number_of(rest)?;
    let (shared, rest) = flag_of(rest)?;
    let (deep, rest) = flag_of(rest)?;
    let path = DavPath::from_parts(alloc, &prefix, &text)?;
    *before = text;
    let command = Command::Lock {
        path,
        owner,
        timeout,
        shared,
        deep,
    };
    Ok((command, rest))
}

#[tactic(auto, unfolding(crate::specs::RecordReading::unlock_at))]
fn unlock_of<'a>(
    alloc: Global,
    before: &mut Vec<u8>,
    bytes: &'a [u8],
) -> Result<(Command, &'a [u8]), ReadError>
    ensures reads { ReadsField (λ x. (command_of x.0, x.1.now)) result (unlock_at before.old.items bytes.now) }
    ensures before { IfOk result (λ x. before.new.items ≡ path_behind before.old.items (command_of x.0)) }
    ensures within { IfOk result (λ x. body_of (command_of x.0) ≡ []) }
{
    let (path, rest) = path_of(alloc, before, bytes)?;
    let (token, rest) = text_of(alloc, rest)?;
    Ok((Command::Unlock { path, token }, rest))
}

#[tactic(auto, unfolding(crate::specs::RecordReading::refresh_at))]
fn refresh_of<'a>(
    alloc: Global,
    before: &mut Vec<u8>,
    bytes: &'a [u8],
) -> Result<(Command, &'a [u8]), ReadError>
    ensures reads { ReadsField (λ x. (command_of x.0, x.1.now)) result (refresh_at before.old.items bytes.now) }
    ensures before { IfOk result (λ x. before.new.items ≡ path_behind before.old.items (command_of x.0)) }
    ensures within { IfOk result (λ x. body_of (command_of x.0) ≡ []) }
{
    let (path, rest) = path_of(alloc, before, bytes)?;
    let (token, rest) = text_of(alloc, rest)?;
    let (timeout, rest) = optional_number_of(rest)?;
    let command = Command::Refresh {
        path,
        token,
        timeout,
    };
    Ok((command, rest))
}

fn mkcol_of<'a>(
    alloc: Global,
    before: &mut Vec<u8>,
    bytes: &'a [u8],
) -> Result<(Command, &'a [u8]), ReadError>
    ensures reads { ReadsField (λ x. (command_of x.0, x.1.now)) result
        (value_at (λ p. plain.Command.MkCol p) (path_at before.old.items) bytes.now) }
    ensures before { IfOk result (λ x. before.new.items ≡ path_behind before.old.items (command_of x.0)) }
    ensures within { IfOk result (λ x. body_of (command_of x.0) ≡ []) }
{
    let (path, rest) = path_of(alloc, before, bytes)?;
    Ok((Command::MkCol { path }, rest))
}

fn remove_of<'a>(
    alloc: Global,
    before: &mut Vec<u8>,
    bytes: &'a [u8],
) -> Result<(Command, &'a [u8]), ReadError>
    ensures reads { ReadsField (λ x. (command_of x.0, x.1.now)) result
        (value_at (λ p. plain.Command.Remove p) (path_at before.old.items) bytes.now) }
    ensures before { IfOk result (λ x. before.new.items ≡ path_behind before.old.items (command_of x.0)) }
    ensures within { IfOk result (λ x. body_of (command_of x.0) ≡ []) }
{
    let (path, rest) = path_of(alloc, before, bytes)?;
    Ok((Command::Remove { path }, rest))
}

fn move_of<'a>(
    alloc: Global,
    before: &mut Vec<u8>,
    bytes: &'a [u8],
) -> Result<(Command, &'a [u8]), ReadError>
    ensures reads { ReadsField (λ x. (command_of x.0, x.1.now)) result
        (value_at (λ p. plain.Command.Move p.0 p.1) (two_paths_at before.old.items) bytes.now) }
    ensures before { IfOk result (λ x. before.new.items ≡ path_behind before.old.items (command_of x.0)) }
    ensures within { IfOk result (λ x. body_of (command_of x.0) ≡ []) }
{
    let (from, to, rest) = two_paths_of(alloc, before, bytes)?;
    Ok((Command::Move { from, to }, rest))
}

fn copy_of<'a>(
    alloc: Global,
    before: &mut Vec<u8>,
    bytes: &'a [u8],
) -> Result<(Command, &'a [u8]), ReadError>
    ensures reads { ReadsField (λ x. (command_of x.0, x.1.now)) result
        (value_at (λ p. plain.Command.Copy p.0 p.1) (two_paths_at before.old.items) bytes.now) }
    ensures before { IfOk result (λ x. before.new.items ≡ path_behind before.old.items (command_of x.0)) }
    ensures within { IfOk result (λ x. body_of (command_of x.0) ≡ []) }
{
    let (from, to, rest) = two_paths_of(alloc, before, bytes)?;
    Ok((Command::Copy { from, to }, rest))
}

// The fields of a command behind the byte that says which it is.
fn read_fields<'a>(
    alloc: Global,
    before: &mut Vec<u8>,
    bodies: &[u8],
    tag: u8,
    bytes: &'a [u8],
) -> Result<(Command, &'a [u8]), ReadError>
    requires { tag < 10 }
    ensures reads { ReadsField (λ x. (command_of x.0, x.1.now)) result (command_fields_at before.old.items bodies.now tag bytes.now) }
    ensures before { IfOk result (λ x. before.new.items ≡ path_behind before.old.items (command_of x.0)) }
    ensures within { IfOk result (λ x. length (body_of (command_of x.0)) ≤ length bodies.now) }
{
    match tag {
        0 => return put_of(alloc, before, bodies, bytes),
        1 => return write_of(alloc, before, bodies, bytes),
        2 => return mkcol_of(alloc, before, bytes),
        3 => return remove_of(alloc, before, bytes),
        4 => return move_of(alloc, before, bytes),
        5 => return copy_of(alloc, before, bytes),
        6 => return patch_props_of(alloc, before, bytes),
        7 => return lock_of(alloc, before, bytes),
        8 => return unlock_of(alloc, before, bytes),
        9 => return refresh_of(alloc, before, bytes),
        _ => unreachable!(),
    }
}

/// A command that changes something.
#[tactic(auto, using(crate::proofs::CommandForms::unknown_tag), unfolding(crate::specs::RecordReading::command_at))]
pub(crate) fn read_command<'a>(
    alloc: Global,
    before: &mut Vec<u8>,
    bodies: &[u8],
    bytes: &'a [u8],
) -> Result<(Command, &'a [u8]), ReadError>
    ensures reads { ReadsField (λ x. (command_of x.0, x.1.now)) result (command_at before.old.items bodies.now bytes.now) }
    ensures before { IfOk result (λ x. before.new.items ≡ path_behind before.old.items (command_of x.0)) }
    ensures within { IfOk result (λ x. length (body_of (command_of x.0)) ≤ length bodies.now) }
{
    match bytes {
        [] => return Err(ReadError::Fault(0)),
        [tag, rest @ ..] => {
            let tag = *tag;
            if tag >= 10 {
                return Err(ReadError::Fault(bytes.len()));
            }
            return read_fields(alloc, before, bodies, tag, rest);
        }
    }
}
