//! Commands on the files.
ghost use Rattle.std.specs.Prelude.{◌≡◌, true, map, MatchResult};
ghost use Rattle.dav_path_core.specs.StoreAnswers.{AnswersAs, TellsOutcome};
ghost use Rattle.dav_path_core.specs.Segments.{segments};
ghost use Rattle.dav_files_core.specs.ContentParts.{read_at, write_at};
ghost use Rattle.dav_files_core.specs.Properties.{patch_update};
ghost use Rattle.dav_files_core.specs.Resources.{IsResourceMap};
ghost use Rattle.dav_guarded_core.specs.ResourceStep.{is_on_map};
ghost use Rattle.dav_guarded_core.specs.Served.{command_of};
ghost use Rattle.dav_guarded_core.specs.Private.RequestServing.{with_nothing, DoesOnMap};

use super::{Command, Reply};
use bytes::Bytes;
use dav_files_core::fs::{DavFile, DavFileSystem, DavProp, Moment, OpenOptions, ReadDirMeta};
use dav_files_core::memfs::MemFs;
use dav_path_core::davpath::DavPath;
use dav_path_core::errors::{FsError, FsResult};
use std::io::SeekFrom;

/// Does a command on the files, at a moment.
pub(super) fn apply_to_files(files: &mut MemFs, command: &Command, now: Moment) -> FsResult<Reply>
    requires on_map { is_on_map (command_of command.now) ≡ true }
    requires shape { IsResourceMap files.old }
    ensures answer { DoesOnMap files.old (command_of command.now) now.0 result files.new }
    ensures shape { IsResourceMap files.new }
{
    match command {
        Command::Put { path, bytes } => return done(files.put(path, bytes.as_slice(), now)),
        Command::Write { path, at, bytes } => {
            return done(write_file(files, path, *at, bytes.as_slice(), now));
        }
        Command::Read { path, at, count } => {
            return Ok(Reply::Bytes(read_file(files, path, *at, *count, now)?));
        }
        Command::List { path } => {
            return Ok(Reply::Entries(files.read_dir(path, ReadDirMeta::Data)?));
        }
        Command::Meta { path } => return Ok(Reply::Meta(files.metadata(path)?)),
        Command::MkCol { path } => return done(files.create_dir(path, now)),
        Command::Remove { path } => return done(files.remove_file(path, now)),
        Command::Move { from, to } => return done(files.rename(from, to, now)),
        Command::Copy { from, to } => return done(files.copy(from, to, now)),
        Command::PatchProps { path, patch } => {
            files.metadata(path)?;
            return Ok(Reply::Patched(files.patch_props(path, copied(patch)?)?));
        }
        Command::GetProps { path, content } => {
            return Ok(Reply::Props(files.get_props(path, *content)?));
        }
        Command::GetProp { path, prop } => return Ok(Reply::Value(files.get_prop(path, prop)?)),
        _ => unreachable!(),
    }
}

// Nothing is to be told.
fn done(answer: FsResult<()>) -> FsResult<Reply>
    ensures { result ≡ with_nothing answer }
{
    answer?;
    Ok(Reply::Done)
}

// The same properties.
fn copied(patch: &Vec<(bool, DavProp)>) -> FsResult<Vec<(bool, DavProp)>>
    ensures { MatchResult result (λ v. map patch_update v.items ≡ map patch_update patch.now.items) (λ e. e ≡ FsError.InsufficientStorage) }
{
    Ok(patch.clone()?)
}

// Some bytes of a file, which is opened for it: `count` at most, from `at` on.
fn read_file(
    files: &mut MemFs,
    path: &DavPath,
    at: usize,
    count: usize,
    now: Moment,
) -> FsResult<Bytes>
    requires { IsResourceMap files.old }
    ensures answer { TellsOutcome (λ b. b) result (read_at files.old (segments path.now.bytes) at count) }
    ensures same { files.new ≡ files.old }
{
    let mut file = files.open(path, OpenOptions::read(), now)?;
    file.seek(files, SeekFrom::Start(at as u64))?;
    file.read_bytes(files, count)
}

// Writes into a file, which is opened for it: from `at` on, or at the end.
fn write_file(
    files: &mut MemFs,
    path: &DavPath,
    at: Option<usize>,
    bytes: &[u8],
    now: Moment,
) -> FsResult<()>
    requires { IsResourceMap files.old }
    ensures answer { AnswersAs (λ x. x) result (write_at files.old (segments path.now.bytes) at bytes.now) files.old files.new }
    ensures shape { IsResourceMap files.new }
{
    let mut options = OpenOptions::write();
    options.append = at.is_none();
    let mut file = files.open(path, options, now)?;
    file.seek(files, SeekFrom::Start(at.unwrap_or(0) as u64))?;
    let mut rest = bytes;
    file.write_buf(files, &mut rest)
}
