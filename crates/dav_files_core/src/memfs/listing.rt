//! Listings of folders in memory.
ghost use Rattle.std.specs.Prelude.{◌≡◌, ◌↔◌, IsTrue, Some, Ok, false, map, IfOk, MatchResult};
ghost use Rattle.std.specs.FinMap.{entries};
ghost use Rattle.dav_path_core.specs.StoreAnswers.{TellsOutcome};
ghost use Rattle.dav_path_core.specs.Fronts.{Path};
ghost use Rattle.dav_path_core.specs.Segments.{segments};
ghost use Rattle.dav_files_core.specs.Finding.{members};
ghost use Rattle.dav_files_core.specs.Listing.{listed_entry, read_dir};
ghost use Rattle.dav_files_core.specs.Meta.{meta_of};
ghost use Rattle.dav_files_core.specs.Resources.{Resource, at_path};
ghost use Rattle.dav_files_core.specs.Private.Entries.{HasNumber};
ghost use Rattle.dav_files_core.specs.Private.Listed.{numbered_member, AllNumbers, Described};

use super::{Kind, MemFs, MemFsMeta};
use crate::fs::DavDirEntry;
use bytes::Bytes;
use dav_path_core::davpath::DavPath;
use dav_path_core::errors::{FsError, FsResult};

/// A member of a folder: its name, and what is known of it.
#[derive(Debug, Clone, Drop)]
pub struct MemFsEntry {
    name: Bytes,
    meta: MemFsMeta,
}

/// It takes no memory.
impl DavDirEntry for MemFsEntry {
    type Meta = MemFsMeta;

    ghost listed = { listed_entry };

    ghost metadata_answers = { λ e told. told ≡ Ok (meta_of e.meta) };

    fn name(&self) -> &[u8]
        ensures { result.now ≡ self.now.name }
    {
        self.name.as_slice()
    }

    fn metadata(&self) -> FsResult<MemFsMeta>
        ensures { result ≡ Ok self.now.meta }
    {
        Ok(self.meta)
    }

    fn is_dir(&self) -> FsResult<bool>
        ensures { MatchResult result (λ b. IsTrue b ↔ (self.now.meta.kind ≡ Kind.Folder)) (λ _. ⊥) }
    {
        Ok(matches!(self.meta.kind, Kind::Folder))
    }

    fn is_file(&self) -> FsResult<bool>
        ensures { MatchResult result (λ b. IsTrue b ↔ (self.now.meta.kind ≡ Kind.File)) (λ _. ⊥) }
    {
        Ok(matches!(self.meta.kind, Kind::File))
    }

    fn is_symlink(&self) -> FsResult<bool>
        ensures { result ≡ Ok false }
    {
        Ok(false)
    }
}

impl MemFs {
    // The names and numbers of what stands in a folder, sorted by the bytes of the names.
    pub(super) fn members_of(&self, id: u64) -> FsResult<Vec<(Bytes, u64)>>
        requires { HasNumber self.now id }
        ensures { MatchResult result
            (λ v. (p : Path) (r : Resource) → at_path self.now p ≡ Some r → r.number ≡ id → v.items ≡ map numbered_member (entries (members self.now p)))
            (λ e. e ≡ FsError.InsufficientStorage) }
    {
        let mut pairs: Vec<(Bytes, u64)> = self.tree.get_children(id)?.collect(self.alloc)?;
        pairs.sort()?;
        Ok(pairs)
    }

    // What is known of some entries, under their names.
    pub(super) fn described(&self, members: Vec<(Bytes, u64)>) -> FsResult<Vec<MemFsEntry>>
        requires { AllNumbers self.now members.items }
        ensures { MatchResult result (λ v. Described self.now members.items v.items) (λ e. e ≡ FsError.InsufficientStorage) }
    {
        let mut entries = Vec::new(self.alloc);
        for (name, id) in members {
            let meta = self.node_at(id).meta();
            entries.push(MemFsEntry { name, meta })?;
        }
        Ok(entries)
    }
}
