//! What methods ask a session for.
ghost use Rattle.std.specs.Prelude.{◌≡◌, Ok, Some, true, IfOk, IfErr, is_some, map, option_map};
ghost use Rattle.dav_path_core.specs.Segments.{segments};
ghost use Rattle.dav_files_core.specs.declared.memfs.Kind.TheVariants.{File, Folder};
ghost use Rattle.dav_files_core.specs.Listing.{listed_entry, read_dir};
ghost use Rattle.dav_files_core.specs.Meta.{meta_at, meta_of};
ghost use Rattle.dav_files_core.specs.Properties.{get_props, property_of};
ghost use Rattle.dav_files_core.specs.Resources.{IsResourceMap};
ghost use Rattle.dav_fields_core.specs.Marking.{IsRead};
ghost use Rattle.dav_session_core.specs.StoreRefusals.{list_fault, put_fault};
ghost use Rattle.dav_session_core.specs.Sessions.{Looks, state};
ghost use Rattle.dav_guarded_core.specs.Served.{refusal_of};
ghost use Rattle.dav_session_core.specs.Questions.{FailsToInspect, LacksKind, covering, found_at};

use super::Session;
use bytes::Bytes;
use dav_faults_core::faults::Fault;
use dav_guarded_core::davpath::DavPath;
use dav_guarded_core::errors::FsError;
use dav_guarded_core::guarded::{Command, Inspection, Refusal, Reply};
use dav_guarded_core::memfs::{MemFsEntry, MemFsMeta};
use rand_core::Rng;
use std::alloc::AllocError;

impl<R: Rng> Session<R> {
    /// What is known of what stands at a path; none where nothing does.
    pub fn meta(&mut self, path: DavPath) -> Option<MemFsMeta>
        ensures found { option_map meta_of result
            ≡ option_map (λ r. meta_at r.node) (found_at R.stream self.old path) }
        ensures looks { Looks R.stream self.old self.new }
        ensures shape { IsResourceMap (state R.stream self.new).map }
    {
        match self.look(Command::Meta { path }) {
            Ok(Reply::Meta(meta)) => Some(meta),
            Ok(_) => None,
            Err(_) => None,
        }
    }

    /// The bytes of a file from a place on, so many at most. `NotFound` where no file stands there.
    pub fn read(&mut self, path: DavPath, at: usize, count: usize) -> Result<Bytes, Fault>
        ensures ok { IfOk result (λ bytes. IsRead (state R.stream self.old).map
            (segments path.bytes) at count bytes) }
        ensures err { IfErr result (λ e. LacksKind File (state R.stream self.old).map
            (segments path.bytes) e) }
        ensures looks { Looks R.stream self.old self.new }
    {
        match self.look(Command::Read { path, at, count }) {
            Ok(Reply::Bytes(bytes)) => Ok(bytes),
            Err(Refusal::Fs(FsError::InsufficientStorage)) => Err(Fault::InsufficientStorage),
            _ => Err(Fault::NotFound),
        }
    }

    /// The members of a folder, sorted by the bytes of their names. `NotFound` where no folder
    /// stands there.
    pub fn list(&mut self, path: DavPath) -> Result<Vec<MemFsEntry>, Fault>
        ensures ok { IfOk result (λ entries. read_dir (state R.stream self.old).map
            (segments path.bytes) ≡ Ok (map listed_entry entries.items)) }
        ensures err { IfErr result (λ e. LacksKind Folder (state R.stream self.old).map
            (segments path.bytes) e) }
        ensures looks { Looks R.stream self.old self.new }
        ensures shape { IsResourceMap (state R.stream self.new).map }
    {
        match self.look(Command::List { path }) {
            Ok(Reply::Entries(entries)) => Ok(entries),
            Ok(_) => Err(Fault::NotFound),
            Err(refusal) => Err(unlisted(&refusal)),
        }
    }

    /// What stands at a path: what is known of it, the properties that clients set (RFC 4918
    /// section 4), and the locks that cover it, but those that have expired. `NotFound` where
    /// nothing stands there. The stores stay, expired locks too.
    pub fn inspect(&self, path: &DavPath) -> Result<Inspection, Fault>
        ensures meta { IfOk result (λ found. Some (meta_of found.meta)
            ≡ option_map (λ r. meta_at r.node) (found_at R.stream self.now path.now)) }
        ensures props { IfOk result (λ found. get_props (state R.stream self.now).map
            (segments path.now.bytes) true ≡ Ok (map property_of found.props.items)) }
        ensures locks { IfOk result (λ found. found.locks.items
            ≡ covering R.stream self.now path.now) }
        ensures err { IfErr result (FailsToInspect (found_at R.stream self.now path.now)) }
    {
        match self.stores.stores().inspect(path, self.now()) {
            Ok(found) => Ok(found),
            Err(FsError::InsufficientStorage) => Err(Fault::InsufficientStorage),
            Err(_) => Err(Fault::NotFound),
        }
    }
}

// Why a folder isn't listed.
fn unlisted(refusal: &Refusal) -> Fault
    ensures { result ≡ list_fault (refusal_of refusal.now) }
{
    match refusal {
        Refusal::Fs(FsError::InsufficientStorage) => Fault::InsufficientStorage,
        _ => Fault::NotFound,
    }
}

/// Why the files or the locks refuse to make something, by what stands there: a folder where
/// anything does.
pub fn refused(known: &Option<MemFsMeta>, refusal: Refusal) -> Fault
    ensures { result ≡ put_fault (is_some known.now) (refusal_of refusal) }
{
    match refusal {
        Refusal::Locked(lock) => Fault::Locked(lock.path),
        Refusal::OutOfMemory | Refusal::Fs(FsError::InsufficientStorage) =>
            Fault::InsufficientStorage,
        Refusal::Fs(_) | Refusal::NoLock => match known {
            Some(_) => Fault::MethodNotAllowed { folder: true },
            None => Fault::Conflict,
        },
    }
}

/// A path once more.
pub fn copy_of(path: &DavPath) -> Result<DavPath, AllocError>
    ensures { IfOk result (λ copy. copy ≡ path.now) }
{
    path.clone()
}
