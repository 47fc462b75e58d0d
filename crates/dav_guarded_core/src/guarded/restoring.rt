//! The stores walked, and restored from what a walk gave.
ghost use Rattle.std.specs.Prelude.{◌≡◌, ◌++◌, ◌∷◌, [], IfErr, OnOk, OnErr};
ghost use Rattle.dav_path_core.specs.StoreAnswers.{AnswersAs};
ghost use Rattle.dav_path_core.specs.Segments.{segments};
ghost use Rattle.dav_files_core.specs.Resources.{IsResourceMap};
ghost use Rattle.dav_files_core.specs.Restoring.{with_later_next, resource_of, restore};
ghost use Rattle.dav_files_core.specs.Walks.{IsMapWalk};
ghost use Rattle.dav_locks_core.specs.Calls.{Shows};
ghost use Rattle.dav_locks_core.specs.Exclusive.{Exclusive};
ghost use Rattle.dav_locks_core.specs.Locks.{lock_conflicts};

use super::Guarded;
use dav_files_core::memfs::{MemFsRestored, MemFsWalk};
use dav_locks_core::ls::{DavLock, LockError};
use dav_locks_core::memls::MemLsLocks;
use dav_path_core::davpath::DavPath;
use dav_path_core::errors::FsResult;

impl Guarded {
    /// The folders and files, each behind the folder that it stands in. It takes no memory (own).
    pub fn walk(&self) -> MemFsWalk<'_>
        ensures walk { IsMapWalk self.now.map result }
        ensures shape { IsResourceMap self.now.map }
    {
        self.fs.walk()
    }

    /// The locks, in the order of granting. It takes no memory (own).
    pub fn locks(&self) -> MemLsLocks<'_>
        ensures locks { result ≡ self.now.locks }
        ensures exclusive { Exclusive self.now.locks }
    {
        self.locks.iter()
    }

    /// The number that the next new folder or file is given (own).
    pub fn next_number(&self) -> u64
        ensures { result ≡ self.now.map.next }
    {
        self.fs.next_number()
    }

    /// Makes a folder or a file anew as it stood; the locks stay. It is refused as `restore` of `MemFs` is (own).
    pub fn restore(&mut self, path: &DavPath, entry: MemFsRestored) -> FsResult<()>
        ensures answer { AnswersAs (λ x. x) result (restore self.old.map (segments path.now.bytes) (resource_of entry))
            self.old.map self.new.map }
        ensures locks { self.new.locks ≡ self.old.locks }
        ensures shape { IsResourceMap self.new.map }
        ensures exclusive { Exclusive self.new.locks }
    {
        self.fs.restore(path, entry)
    }

    /// Adds a lock as it stood, last in the order of granting; the map stays. It is refused as `restore` of `MemLs` is, and
    /// changes nothing then (own).
    pub fn restore_lock(&mut self, lock: DavLock) -> Result<(), LockError>
        ensures free { OnOk result (lock_conflicts self.old.locks (segments lock.path.bytes) lock.shared lock.deep ≡ []) }
        ensures added { OnOk result (self.new.locks ≡ self.old.locks ++ lock ∷ []) }
        ensures shown { IfErr result (λ e. Shows
            (lock_conflicts self.old.locks (segments lock.path.bytes) lock.shared lock.deep) e) }
        ensures unchanged { OnErr result (self.new ≡ self.old) }
        ensures map { self.new.map ≡ self.old.map }
        ensures shape { IsResourceMap self.new.map }
        ensures exclusive { Exclusive self.new.locks }
    {
        self.locks.restore(lock)
    }

    /// Gives no number below that one to a new folder or file any more. Nothing else changes (own).
    pub fn raise_next_number(&mut self, next: u64)
        ensures raised { self.new.map ≡ with_later_next self.old.map next }
        ensures locks { self.new.locks ≡ self.old.locks }
        ensures shape { IsResourceMap self.new.map }
        ensures exclusive { Exclusive self.new.locks }
    {
        self.fs.raise_next_number(next);
    }
}
