//! How answers are written.
ghost use Rattle.std.specs.Prelude.{◌≡◌, ◌≤◌, ◌++◌, length, map, OnOk};
ghost use Rattle.hex.specs.Hex.{encode_lower};
ghost use Rattle.std.specs.List.{flat_map};
ghost use Rattle.std.specs.Io.KnownBytes.{Appends};
ghost use Rattle.dav_files_core.specs.Listing.{listed_entry};
ghost use Rattle.dav_files_core.specs.Meta.{meta_of};
ghost use Rattle.dav_files_core.specs.Properties.{patch_answer, property_of};
ghost use Rattle.dav_resource_core.specs.AnswerTexts.{error_line, ok_line, spaced_word, label_text, hex_text, meta_text, member_text, status_text, property_text, end_text};
ghost use Rattle.dav_resource_core.specs.Labels.{label_in};
ghost use Rattle.dav_resource_core.specs.Private.LineReading.{refusal_line};

use super::OUT_OF_MEMORY;
use super::labels::Labels;
use super::names::file_error;
use dav_files_core::fs::{DavDirEntry, DavProp};
use dav_files_core::memfs::{Kind, MemFsEntry, MemFsMeta};
use dav_guarded_core::guarded::Refusal;
use dav_locks_core::ls::DavLock;
use dav_path_core::davpath::escaped;
use dav_path_core::errors::FsError;
use http::StatusCode;
use line_streams::Fault;
use std::io::Write;

// At most so many bytes are written at once.
const CHUNK: usize = 64;

/// The bytes in lower-case hexadecimal digits, `-` for none.
pub(super) fn write_bytes<O: Write>(bytes: &[u8], output: &mut O) -> Result<(), Fault>
    ensures { OnOk result (Appends (O.contents output.old) (O.contents output.new) (ok_line (spaced_word (hex_text bytes.now)))) }
{
    if bytes.is_empty() {
        return Ok(output.write_all(b"ok -\n")?);
    }
    output.write_all(b"ok ")?;
    for chunk in bytes.chunks(CHUNK) {
        write_chunk(chunk, output)?;
    }
    Ok(output.write_all(b"\n")?)
}

// So many bytes, at most `CHUNK`.
fn write_chunk<O: Write>(chunk: &[u8], output: &mut O) -> Result<(), Fault>
    requires { length chunk.now ≤ 64 }
    ensures { OnOk result (Appends (O.contents output.old) (O.contents output.new) (encode_lower chunk.now)) }
{
    let mut digits = [0; 2 * CHUNK];
    let digits = &mut digits[..2 * chunk.len()];
    if hex::encode_to_slice(chunk, digits).is_err() {
        unreachable!();
    }
    Ok(output.write_all(digits)?)
}

/// The names of members as URL texts, with `/` after a folder's.
pub(super) fn write_entries<O: Write>(entries: &[MemFsEntry], output: &mut O) -> Result<(), Fault>
    ensures { OnOk result (Appends (O.contents output.old) (O.contents output.new) (ok_line (flat_map member_text (map listed_entry entries.now)))) }
{
    output.write_all(b"ok")?;
    for entry in entries {
        write_entry(entry, output)?;
    }
    Ok(output.write_all(b"\n")?)
}

fn write_entry<O: Write>(entry: &MemFsEntry, output: &mut O) -> Result<(), Fault>
    ensures { OnOk result (Appends (O.contents output.old) (O.contents output.new) (member_text (listed_entry entry.now))) }
{
    write!(output, " {}", escaped(entry.name()))?;
    if entry.is_dir() == Ok(true) {
        output.write_all(b"/")?;
    }
    Ok(())
}

/// The kind, the length and the times of a file or a folder.
pub(super) fn write_meta<O: Write>(meta: &MemFsMeta, output: &mut O) -> Result<(), Fault>
    ensures { OnOk result (Appends (O.contents output.old) (O.contents output.new) (ok_line (meta_text (meta_of meta.now)))) }
{
    let kind = match meta.kind {
        Kind::Folder => "folder",
        Kind::File => "file",
    };
    let (modified, created) = (meta.modified.0, meta.created.0);
    Ok(writeln!(output, "ok {kind} {} {modified} {created}", meta.length)?)
}

/// The status of each property that was set or removed.
pub(super) fn write_statuses<O: Write>(
    answers: &[(StatusCode, DavProp)],
    output: &mut O,
) -> Result<(), Fault>
    ensures { OnOk result (Appends (O.contents output.old) (O.contents output.new) (ok_line (flat_map status_text (map patch_answer answers.now)))) }
{
    output.write_all(b"ok")?;
    for answer in answers {
        write_status(answer, output)?;
    }
    Ok(output.write_all(b"\n")?)
}

fn write_status<O: Write>(answer: &(StatusCode, DavProp), output: &mut O) -> Result<(), Fault>
    ensures { OnOk result (Appends (O.contents output.old) (O.contents output.new) (status_text (patch_answer answer.now))) }
{
    Ok(write!(output, " {}", answer.0.as_u16())?)
}

/// The namespaces and the names of properties, `-` for no namespace.
pub(super) fn write_props<O: Write>(props: &[DavProp], output: &mut O) -> Result<(), Fault>
    ensures { OnOk result (Appends (O.contents output.old) (O.contents output.new) (ok_line (flat_map property_text (map property_of props.now)))) }
{
    output.write_all(b"ok")?;
    for prop in props {
        write_prop(prop, output)?;
    }
    Ok(output.write_all(b"\n")?)
}

fn write_prop<O: Write>(prop: &DavProp, output: &mut O) -> Result<(), Fault>
    ensures { OnOk result (Appends (O.contents output.old) (O.contents output.new) (property_text (property_of prop.now))) }
{
    let namespace = match &prop.namespace {
        Some(namespace) => namespace.as_str(),
        None => "-",
    };
    Ok(write!(output, " {namespace} {}", prop.name)?)
}

/// The labels of locks.
pub(super) fn write_locks<O: Write>(
    labels: &Labels,
    locks: &[DavLock],
    output: &mut O,
) -> Result<(), Fault>
    ensures { OnOk result (Appends (O.contents output.old) (O.contents output.new) (ok_line (flat_map (λ token. spaced_word (label_text (label_in labels.now token))) (map (λ lock. lock.token) locks.now)))) }
{
    output.write_all(b"ok")?;
    for lock in locks {
        write_label(labels, lock, output)?;
    }
    Ok(output.write_all(b"\n")?)
}

fn write_label<O: Write>(labels: &Labels, lock: &DavLock, output: &mut O) -> Result<(), Fault>
    ensures { OnOk result (Appends (O.contents output.old) (O.contents output.new) (spaced_word (label_text (label_in labels.now lock.now.token)))) }
{
    Ok(write!(output, " t{}", labels.number_of(&lock.token))?)
}

/// The label of a lock, and the moment at which its timeout ends, `-` for none.
pub(super) fn write_refreshed<O: Write>(
    labels: &Labels,
    lock: &DavLock,
    output: &mut O,
) -> Result<(), Fault>
    ensures { OnOk result (Appends (O.contents output.old) (O.contents output.new)
        (ok_line (spaced_word (label_text (label_in labels.now lock.now.token)) ++ spaced_word (end_text lock.now.timeout_at)))) }
{
    let number = labels.number_of(&lock.token);
    match lock.timeout_at {
        Some(end) => Ok(writeln!(output, "ok t{number} {}", end.0)?),
        None => Ok(writeln!(output, "ok t{number} -")?),
    }
}

/// The name of a refusal, and the label of a lock in the way.
pub(super) fn write_refusal<O: Write>(
    labels: &Labels,
    refusal: &Refusal,
    output: &mut O,
) -> Result<(), Fault>
    ensures { OnOk result (Appends (O.contents output.old) (O.contents output.new) (refusal_line labels.now refusal.now)) }
{
    match refusal {
        Refusal::Fs(error) => write_file_error(*error, output),
        Refusal::Locked(lock) => Ok(writeln!(output, "locked t{}", labels.number_of(&lock.token))?),
        Refusal::NoLock => Ok(output.write_all(b"no lock\n")?),
        Refusal::OutOfMemory => Ok(output.write_all(OUT_OF_MEMORY)?),
    }
}

fn write_file_error<O: Write>(error: FsError, output: &mut O) -> Result<(), Fault>
    ensures { OnOk result (Appends (O.contents output.old) (O.contents output.new) (error_line error)) }
{
    let status = error.status().as_u16();
    Ok(writeln!(output, "error {status} {}", file_error(error))?)
}
