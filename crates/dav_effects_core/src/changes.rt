//! Commands that are put. Each path stands behind the one before, and takes its place; of a body only its length is put.
ghost use Rattle.std.specs.Prelude.{◌≡◌, ◌++◌, ◌∷◌, false, IfSome, OnOk, option_map, string_bytes};
ghost use Rattle.dav_path_core.specs.PathText.{folder_bytes};
ghost use Rattle.dav_path_core.specs.Segments.{segments};
ghost use Rattle.dav_guarded_core.specs.Served.{command_of};
ghost use Rattle.dav_notes_core.specs.Changes.{is_look};
ghost use Rattle.dav_effects_core.specs.ByteForms.{FitsInEight, IsUtf8Text, counted_text, flag_text, following_text, number_text, optional_text};
ghost use Rattle.dav_effects_core.specs.RecordText.{command_text, path_behind, path_text};
ghost use Rattle.dav_effects_core.specs.Records.{IsChange, IsPath, IsPathText};

use crate::paths::put_path;
use crate::properties::put_patches;
use crate::putting::{
    put_following, put_lock_kind, put_number, put_optional_number, put_optional_size,
    put_optional_text, put_text,
};
use dav_guarded_core::guarded::Command;
use dav_path_core::davpath::DavPath;
use std::alloc::{AllocError, Global};

// What stands at the front of a command: the byte that says which it is, and its path.
fn put_place(
    alloc: Global,
    out: &mut Vec<u8>,
    before: &mut Vec<u8>,
    tag: u8,
    path: &DavPath,
) -> Result<(), AllocError>
    ensures text { OnOk result (out.new.items ≡ out.old.items ++ tag ∷ path_text before.old.items (segments path.now.bytes)) }
    ensures before { OnOk result (before.new.items ≡ folder_bytes (segments path.now.bytes)) }
    ensures fits { OnOk result (IsPath (segments path.now.bytes)) }
{
    out.push(tag)?;
    put_path(alloc, out, before, path)
}

// Two paths, the second behind the first.
fn put_places(
    alloc: Global,
    out: &mut Vec<u8>,
    before: &mut Vec<u8>,
    tag: u8,
    from: &DavPath,
    to: &DavPath,
) -> Result<(), AllocError>
    ensures text { OnOk result (out.new.items ≡ out.old.items ++ tag ∷ (path_text before.old.items (segments from.now.bytes)
        ++ path_text (folder_bytes (segments from.now.bytes)) (segments to.now.bytes))) }
    ensures before { OnOk result (before.new.items ≡ folder_bytes (segments to.now.bytes)) }
    ensures from { OnOk result (IsPath (segments from.now.bytes)) }
    ensures to { OnOk result (IsPath (segments to.now.bytes)) }
{
    put_place(alloc, out, before, tag, from)?;
    put_path(alloc, out, before, to)
}

// A lock's path, which stays as it is.
fn put_lock_path(out: &mut Vec<u8>, before: &mut Vec<u8>, path: &DavPath) -> Result<(), AllocError>
    ensures text { OnOk result (out.new.items ≡ out.old.items ++ 7 ∷ (counted_text path.now.prefix ++ following_text before.old.items path.now.bytes)) }
    ensures before { OnOk result (before.new.items ≡ path.now.bytes) }
    ensures fits { OnOk result (IsPathText path.now) }
{
    out.push(7)?;
    put_text(out, path.prefix())?;
    put_following(out, before, path.as_bytes())?;
    before.clear();
    before.extend_from_slice(path.as_bytes())
}

// Which locks are asked for, and whose they are said to be.
fn put_wanted(
    out: &mut Vec<u8>,
    owner: &Option<String>,
    timeout: Option<u64>,
    shared: bool,
    deep: bool,
) -> Result<(), AllocError>
    ensures text { OnOk result (out.new.items ≡ out.old.items ++ (optional_text counted_text (option_map string_bytes owner.now)
        ++ (optional_text number_text timeout ++ (flag_text shared ++ flag_text deep)))) }
    ensures owner { OnOk result (IfSome (option_map string_bytes owner.now) IsUtf8Text) }
    ensures timeout { OnOk result (IfSome timeout FitsInEight) }
{
    put_optional_text(out, owner)?;
    put_lock_kind(out, timeout, shared, deep)
}

/// Puts a command that changes something.
#[tactic(auto, unfolding(crate::specs::RecordText::command_text))]
pub(crate) fn put_command(
    alloc: Global,
    out: &mut Vec<u8>,
    before: &mut Vec<u8>,
    command: &Command,
) -> Result<(), AllocError>
    requires { is_look (command_of command.now) ≡ false }
    ensures text { OnOk result (out.new.items ≡ out.old.items ++ command_text before.old.items (command_of command.now)) }
    ensures before { OnOk result (before.new.items ≡ path_behind before.old.items (command_of command.now)) }
    ensures fits { OnOk result (IsChange (command_of command.now)) }
{
    match command {
        Command::Put { path, bytes } => {
            put_place(alloc, out, before, 0, path)?;
            return put_number(out, bytes.len() as u64);
        }
        Command::Write { path, at, bytes } => {
            put_place(alloc, out, before, 1, path)?;
            put_optional_size(out, *at)?;
            return put_number(out, bytes.len() as u64);
        }
        Command::MkCol { path } => return put_place(alloc, out, before, 2, path),
        Command::Remove { path } => return put_place(alloc, out, before, 3, path),
        Command::Move { from, to } => return put_places(alloc, out, before, 4, from, to),
        Command::Copy { from, to } => return put_places(alloc, out, before, 5, from, to),
        Command::PatchProps { path, patch } => {
            put_place(alloc, out, before, 6, path)?;
            return put_patches(out, patch);
        }
        Command::Lock {
            path,
            owner,
            timeout,
            shared,
            deep,
        } => {
            put_lock_path(out, before, path)?;
            return put_wanted(out, owner, *timeout, *shared, *deep);
        }
        Command::Unlock { path, token } => {
            put_place(alloc, out, before, 8, path)?;
            return put_text(out, token);
        }
        Command::Refresh {
            path,
            token,
            timeout,
        } => {
            put_place(alloc, out, before, 9, path)?;
            put_text(out, token)?;
            return put_optional_number(out, *timeout);
        }
        _ => return Ok(()),
    }
}
