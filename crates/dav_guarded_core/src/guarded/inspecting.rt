//! What is known of a path, all at once.
ghost use Rattle.std.specs.Prelude.{◌≡◌, Ok, true, map, IfErr, IfOk};
ghost use Rattle.dav_path_core.specs.StoreAnswers.{Refused};
ghost use Rattle.dav_path_core.specs.Segments.{segments};
ghost use Rattle.dav_files_core.specs.Describing.{metadata};
ghost use Rattle.dav_files_core.specs.Meta.{meta_of};
ghost use Rattle.dav_files_core.specs.Properties.{get_props, property_of};
ghost use Rattle.dav_locks_core.specs.Locks.{discovered_locks};
ghost use Rattle.dav_locks_core.specs.Stale.{without_stale};

use super::Guarded;
use dav_files_core::fs::{DavFileSystem, DavProp, Moment};
use dav_files_core::memfs::MemFsMeta;
use dav_locks_core::ls::DavLock;
use dav_path_core::davpath::DavPath;
use dav_path_core::errors::FsResult;

/// What is known of a folder or a file.
#[derive(Debug, Drop)]
pub struct Inspection {
    /// Its kind, its length and its times.
    pub meta: MemFsMeta,
    /// Its properties with their xml, sorted by the bytes of their namespaces, then of their names.
    pub props: Vec<DavProp>,
    /// The locks that cover its path, from the root down, then in the order of granting.
    pub locks: Vec<DavLock>,
}

impl Guarded {
    /// What the requests `Meta`, `GetProps` and `Discover` tell of a path at a moment, of one look; the stores stay, expired locks too
    /// (own). It is refused as `metadata` of `MemFs` is, or where it is out of memory.
    pub fn inspect(&self, path: &DavPath, now: Moment) -> FsResult<Inspection>
        ensures meta { IfOk result (λ found. metadata self.now.map (segments path.now.bytes) ≡ Ok (meta_of found.meta)) }
        ensures props { IfOk result (λ found. get_props self.now.map (segments path.now.bytes) true
            ≡ Ok (map property_of found.props.items)) }
        ensures locks { IfOk result (λ found. found.locks.items
            ≡ discovered_locks (without_stale now.0 self.now.locks) (segments path.now.bytes)) }
        ensures err { IfErr result (Refused (metadata self.now.map (segments path.now.bytes))) }
    {
        Ok(Inspection {
            meta: self.fs.metadata(path)?,
            props: self.fs.get_props(path, true)?,
            locks: self.locks.live_covering(path, now)?,
        })
    }
}
