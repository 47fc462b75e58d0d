//! Locks that are brought back.
ghost use Rattle.std.specs.Prelude.{◌≡◌, ◌++◌, ◌∷◌, [], List, IfErr, OnOk, OnErr};
ghost use Rattle.dav_path_core.specs.Segments.{segments};
ghost use Rattle.dav_locks_core.specs.Calls.{Shows};
ghost use Rattle.dav_locks_core.specs.Exclusive.{Exclusive};
ghost use Rattle.dav_locks_core.specs.Lock.{Lock};
ghost use Rattle.dav_locks_core.specs.Locks.{lock_conflicts, lock_path};

use super::MemLs;
use super::granting::push_lock;
use super::placing::{give_up_place, open_place};
use crate::ls::{DavLock, LockError};

impl MemLs {
    /// Adds a lock as it is, with its token, timeout and end, also where that has come, as the last in the order of
    /// granting (own).
    ///
    /// A lock that stands in its way is shown. `OutOfMemory` comes after that, also where all grant numbers to 2^64 - 2
    /// are used up.
    pub fn restore(&mut self, lock: DavLock) -> Result<(), LockError>
        ensures free { OnOk result (lock_conflicts self.old (segments lock.path.bytes) lock.shared lock.deep ≡ []) }
        ensures added { OnOk result (self.new ≡ self.old ++ lock ∷ []) }
        ensures shown { IfErr result (λ e. Shows (lock_conflicts self.old (segments lock.path.bytes) lock.shared lock.deep) e) }
        ensures unchanged { OnErr result (self.new ≡ self.old) }
        ensures exclusive { Exclusive self.new }
    {
        self.check_wanted(&lock.path, lock.shared, lock.deep)?;
        let (end, number) = (lock.timeout_at, self.next);
        let node = open_place(
            &mut self.tree,
            &mut self.index,
            &mut self.ends,
            self.alloc,
            &lock.path,
            end,
            number,
        )?;
        match push_lock(&mut self.tree, node, number, lock) {
            Ok(()) => {
                self.next += 1;
                Ok(())
            }
            Err(error) => {
                give_up_place(
                    &mut self.tree,
                    &mut self.index,
                    &mut self.ends,
                    node,
                    end,
                    number,
                );
                Err(error)
            }
        }
    }
}

/// A law for callers: of locks that stood together, restored in their order, none stands in the way of one behind it. So they
/// are refused for want of memory alone, and make an equal list. It does nothing (own).
pub fn walked_locks_are_restored()
    ensures { (front : List Lock) (lock : Lock) (rest : List Lock) → Exclusive (front ++ lock ∷ rest)
        → lock_conflicts front (lock_path lock) lock.shared lock.deep ≡ [] }
{}
