//! A manager of locks: who holds what, without files.
ghost use Rattle.std.specs.Prelude.{◌≡◌, ◌++◌, ◌∷◌, [], true, false, Some, map, Contains, IfOk, OnErr, string_bytes};
ghost use Rattle.dav_resource_core.specs.Segments.{segments};
ghost use Rattle.dav_resource_core.specs.Lock.{Lock};
ghost use Rattle.dav_resource_core.specs.Locks.{check_conflicts, without_below};
ghost use Rattle.dav_resource_core.specs.Exclusive.{Exclusive};
ghost use Rattle.dav_resource_core.specs.Stale.{without_stale};

use dav_resource_core::davpath::DavPath;
use dav_resource_core::fs::Moment;
use dav_resource_core::ls::{DavLock, DavLockSystem, LockError};
use dav_resource_core::memls::MemLs;
use rand_core::Rng;
use std::alloc::AllocError;

/// Locks a path for its holder alone, and answers the token. A lock in the way is shown, and nothing is changed. Locks that have
/// expired go first.
pub fn take<R: Rng>(
    locks: &mut MemLs,
    path: &DavPath,
    holder: &str,
    seconds: u64,
    now: Moment,
    rng: &mut R,
) -> Result<String, LockError>
    ensures exclusive { Exclusive locks.new }
    ensures taken { IfOk result (λ token. (lock : Lock) × (locks.new ≡ without_stale now.0 locks.old ++ lock ∷ [])
        × (lock.token ≡ string_bytes token)) }
    ensures refused { OnErr result (locks.new ≡ without_stale now.0 locks.old) }
{
    let lock = locks.lock(
        path,
        Some(holder),
        None,
        Some(seconds),
        false,
        false,
        now,
        rng,
    )?;
    Ok(lock.token)
}

/// Whether a holder who submits those tokens may change a path. Locks that have expired aren't in the way, and go.
pub fn may_change(
    locks: &mut MemLs,
    path: &DavPath,
    holder: &str,
    tokens: &[String],
    now: Moment,
) -> Result<bool, AllocError>
    ensures may { IfOk result (λ may. may ≡ true → check_conflicts (without_stale now.0 locks.old) (segments path.now.bytes) false
        (record { principal = Some holder.now; ignore = false; tokens = map string_bytes tokens.now }) ≡ []) }
    ensures may_not { IfOk result (λ may. may ≡ false → (lock : Lock) × Contains
        (check_conflicts (without_stale now.0 locks.old) (segments path.now.bytes) false
        (record { principal = Some holder.now; ignore = false; tokens = map string_bytes tokens.now })) lock) }
{
    match locks.check(path, Some(holder), false, false, tokens, now) {
        Ok(()) => Ok(true),
        Err(LockError::Conflict(_lock)) => Ok(false),
        Err(LockError::OutOfMemory) => Err(AllocError),
    }
}

/// Takes a path over, with all below it, for its holder alone, on any keeper of locks: the locks there go, and a deep
/// exclusive lock is asked for. Where a lock from above is in the way, or memory is short, they are gone all the same.
pub fn take_over<L: DavLockSystem, R: Rng>(
    locks: &mut L,
    path: &DavPath,
    holder: &str,
    now: Moment,
    rng: &mut R,
) -> Result<DavLock, LockError>
    ensures taken { IfOk result (λ lock. L.locks locks.new
        ≡ without_below (segments path.now.bytes) (without_stale now.0 (L.locks locks.old)) ++ lock ∷ []) }
    ensures deep { IfOk result (λ lock. (lock.path ≡ path.now) × (lock.deep ≡ true) × (lock.shared ≡ false)) }
    ensures refused { OnErr result (L.locks locks.new ≡ without_below (segments path.now.bytes) (without_stale now.0 (L.locks locks.old))) }
    ensures exclusive { Exclusive (L.locks locks.new) }
{
    locks.delete(path, now);
    locks.lock(path, Some(holder), None, None, false, true, now, rng)
}

#[cfg(test)]
mod tests {
    use super::*;
    use rand_core::SeedableRng;
    use rand_pcg::Pcg64;
    use std::alloc::Global;
    use std::process::Abort;
    use std::test::Fail;

    fn asks(rt: &impl Abort, alloc: Global, locks: &mut MemLs) -> Result<(), Fail> {
        let mut rng = Pcg64::seed_from_u64(1);
        let path = DavPath::new(alloc, "/a")?;
        let Ok(token) = take(locks, &path, "ann", 60, Moment(5), &mut rng) else {
            return Err("refused")?;
        };
        assert!(rt; take(locks, &path, "bob", 60, Moment(6), &mut rng).is_err());
        assert!(rt; !may_change(locks, &path, "ann", &[], Moment(7))?);
        let tokens = vec![in alloc; token]?;
        assert!(rt; may_change(locks, &path, "ann", &tokens, Moment(7))?);
        assert!(rt; !may_change(locks, &path, "bob", &tokens, Moment(7))?);
        Ok(())
    }

    #[test]
    fn takes_and_asks(rt: HostRuntime) -> Result<(), Fail> {
        let mut locks = MemLs::new(rt.alloc())?;
        asks(&rt, rt.alloc(), &mut locks)
    }

    // Whether a path is taken over, and how many locks cover it then.
    fn covering(
        locks: &mut MemLs,
        path: &DavPath,
        now: Moment,
        rng: &mut Pcg64,
    ) -> Result<(bool, usize), AllocError> {
        let is_taken = take_over(locks, path, "bob", now, rng).is_ok();
        Ok((is_taken, locks.discover(path, now)?.len()))
    }

    fn takes_both(rt: &impl Abort, alloc: Global, locks: &mut MemLs) -> Result<(), Fail> {
        let mut rng = Pcg64::seed_from_u64(1);
        let above = DavPath::new(alloc, "/a")?;
        let path = DavPath::new(alloc, "/a/b")?;
        for place in [&above, &path] {
            assert!(rt; take(locks, place, "ann", 60, Moment(5), &mut rng).is_ok());
        }
        assert!(rt; covering(locks, &path, Moment(6), &mut rng)? == (true, 1));
        assert!(rt; covering(locks, &above, Moment(7), &mut rng)? == (true, 1));
        assert_eq!(rt; locks.discover(&path, Moment(8))?.len(), 1);
        Ok(())
    }

    #[test]
    fn takes_over(rt: HostRuntime) -> Result<(), Fail> {
        let mut locks = MemLs::new(rt.alloc())?;
        takes_both(&rt, rt.alloc(), &mut locks)
    }
}
