//! Files in memory. What a clause sees of a `MemFs` is its resource map: a finite map from paths to folders and files, with the next number
//! (`ResourceMap`). Its calls are those of `DavFileSystem`, in the module `files`, and `put`.
//! Read `put` first, and then `open` in `files`.
ghost use Rattle.std.specs.Prelude.{◌≡◌, ◌∷◌, ◌++◌, [], Some, IfOk, MatchResult};
ghost use Rattle.dav_path_core.specs.Segments.{segments};
ghost use Rattle.dav_path_core.specs.StoreAnswers.{AnswersAs};
ghost use Rattle.dav_files_core.specs.Outcomes.{start};
ghost use Rattle.dav_files_core.specs.Describing.{metadata};
ghost use Rattle.dav_files_core.specs.ResourcePutting.{put};
ghost use Rattle.dav_files_core.specs.Meta.{meta_of};
ghost use Rattle.dav_files_core.specs.Resources.{Resource, IsResourceMap, at_path};
ghost use Rattle.dav_files_core.specs.Private.Entries.{HasNumber};
ghost use Rattle.dav_files_core.specs.Private.TreeCalls.{entry_number, LeadsToTarget};
ghost use Rattle.dav_path_core.specs.Fronts.{Path};

mod contents;
mod entries;
mod files;
mod listing;
mod meta;
mod nodes;
mod numbered;
mod opening;
mod properties;
mod restoring;
mod walking;

use crate::fs::Moment;
use bytes::Bytes;
use contents::Content;
use dav_path_core::child_index::ChildIndex;
use dav_path_core::davpath::DavPath;
use dav_path_core::errors::{FsError, FsResult};
use dav_path_core::tree::{ROOT_ID, Tree};
pub use listing::MemFsEntry;
use nodes::{Node, member_of, node_of};
pub use opening::MemFsFile;
pub use properties::MemFsProps;
pub use restoring::{MemFsRestored, walked_files_are_restored};
use std::alloc::Global;
use std::marker::Model;
pub use walking::{MemFsStored, MemFsWalk};

/// What stands at a path (RFC 4918 section 5).
#[derive(Clone, Copy, PartialEq, Eq, Debug)]
pub enum Kind {
    /// A collection: it has members.
    Folder,
    /// It has bytes.
    File,
}

/// What is known of a folder or a file.
#[derive(Clone, Copy, PartialEq, Eq, Debug)]
pub struct MemFsMeta {
    /// A folder or a file.
    pub kind: Kind,
    /// How many bytes a file has; 0 for a folder.
    pub length: u64,
    /// When its bytes last changed, or it was made.
    pub modified: Moment,
    /// When it was made.
    pub created: Moment,
}

/// Where a path leads.
#[derive(Clone, Copy)]
enum Target<'a> {
    /// To the entry with this number.
    Entry(u64),
    /// To no entry yet, but to the folder with this number; the name is the path's last segment.
    Missing { folder: u64, name: &'a [u8] },
}

/// Files in memory: a map from paths to folders and files.
#[derive(Debug, Drop)]
pub struct MemFs {
    alloc: Global,
    tree: Tree<Bytes, Node>,
    // The names in its wide folders, beside the tree.
    index: ChildIndex,
}

impl Model for MemFs {
    ghost use Rattle.dav_files_core.specs.Resources.{ResourceMap};
    ghost use Rattle.dav_files_core.specs.ResourceCodes.{coded_resources};
    ghost use Rattle.dav_files_core.specs.Private.FileRepresents.{resource_map, IsStore};

    ghost Value = { ResourceMap };

    ghost coded = { coded_resources };

    ghost view = { λ a. resource_map a.tree.keyed };

    ghost invariant = { λ a. IsStore a.tree.keyed a.index };
}

impl MemFs {
    /// A root folder alone, with both times `now`. `InsufficientStorage` where it is out of memory.
    pub fn new(alloc: Global, now: Moment) -> FsResult<MemFs>
        ensures answer { MatchResult result (λ m. m ≡ start now.0) (λ e. e ≡ FsError.InsufficientStorage) }
        ensures shape { IfOk result IsResourceMap }
    {
        let tree = Tree::new(alloc, Node::new_folder(alloc, now))?;
        Ok(MemFs {
            alloc,
            tree,
            index: ChildIndex::new(alloc),
        })
    }

    // The number of what is at a path.
    fn number_of(&self, path: &DavPath) -> FsResult<u64>
        ensures found { result ≡ entry_number self.now (segments path.now.bytes) }
        ensures number { IfOk result (HasNumber self.now) }
        ensures shape { IsResourceMap self.now }
    {
        match self.target_of(path)? {
            Target::Entry(id) => Ok(id),
            Target::Missing { .. } => Err(FsError::NotFound),
        }
    }

    // Where a path leads.
    fn target_of<'a>(&self, path: &'a DavPath) -> FsResult<Target<'a>>
        ensures found { LeadsToTarget self.now (segments path.now.bytes) result }
        ensures shape { IsResourceMap self.now }
    {
        let _ = &self.tree;
        let mut target = Target::Entry(ROOT_ID);
        for name in path.segments() {
            match target {
                Target::Entry(id) => target = self.target_below(id, name)?,
                Target::Missing { .. } => return Err(FsError::NotFound),
            }
        }
        Ok(target)
    }

    // Where a name leads from the entry with a number.
    fn target_below<'a>(&self, id: u64, name: &'a [u8]) -> FsResult<Target<'a>>
        ensures { (path : Path) (r : Resource) → at_path self.now path ≡ Some r → r.number ≡ id
            → LeadsToTarget self.now (path ++ name.now ∷ []) result }
    {
        if node_of(&self.tree, id)?.is_file() {
            return Err(FsError::Forbidden);
        }
        match member_of(&self.tree, &self.index, id, name) {
            Ok(member) => Ok(Target::Entry(member)),
            Err(_) => Ok(Target::Missing { folder: id, name }),
        }
    }

    /// Makes the bytes of a file those given, whole or not at all, and its modified time `now`. A missing file is made,
    /// with both times `now` (RFC 4918 section 9.7).
    ///
    /// For a missing file its folder is found: `NotFound` where the longest front of the folder's path that is there is a
    /// folder, `Forbidden` where it is a file. `Forbidden` for a folder at the path. Where nothing of that refuses,
    /// `InsufficientStorage` where it is out of memory or numbers.
    pub fn put(&mut self, path: &DavPath, bytes: &[u8], now: Moment) -> FsResult<()>
        ensures answer { AnswersAs (λ _. tt) result (put self.old (segments path.now.bytes) bytes.now now.0) self.old self.new }
        ensures shape { IsResourceMap self.new }
    {
        match self.target_of(path)? {
            Target::Entry(id) => {
                if !self.node_at(id).is_file() {
                    return Err(FsError::Forbidden);
                }
                let content = Content::copy_of(self.alloc, bytes)?;
                self.write(id, content, now);
                Ok(())
            }
            Target::Missing { folder, name } => {
                let content = Content::copy_of(self.alloc, bytes)?;
                let node = Node::new_file(self.alloc, content, now);
                self.add_entry(folder, name, node)?;
                Ok(())
            }
        }
    }

    /// What is known of what is at a path. It takes no memory (RFC 4918 section 15).
    ///
    /// `NotFound` where the longest front of the path that is there is a folder, `Forbidden` where it is a file.
    pub fn metadata(&self, path: &DavPath) -> FsResult<MemFsMeta>
        ensures answer { MatchResult result
            (λ meta. metadata self.now (segments path.now.bytes) ≡ Ok (meta_of meta))
            (λ e. metadata self.now (segments path.now.bytes) ≡ Err e) }
        ensures shape { IsResourceMap self.now }
    {
        let id = self.number_of(path)?;
        Ok(self.node_at(id).meta())
    }
}

#[cfg(test)]
mod tests {
    use super::*;
    use crate::fs::{DavFile, DavFileSystem, DavProp, OpenOptions};
    use std::io::SeekFrom;
    use std::process::Abort;
    use std::test::Fail;

    fn property(alloc: Global) -> FsResult<DavProp> {
        Ok(DavProp {
            name: String::from_str(alloc, "n")?,
            prefix: None,
            namespace: None,
            xml: None,
        })
    }

    // A file is written while its folder is renamed.
    fn write_while_renamed(alloc: Global, files: &mut MemFs, new: &DavPath) -> Result<(), Fail> {
        let old = DavPath::new(alloc, "/d")?;
        files.create_dir(&old, Moment(2))?;
        let path = DavPath::new(alloc, "/d/f")?;
        files.put(&path, b"abc", Moment(5))?;
        let mut file = files.open(&path, OpenOptions::write(), Moment(6))?;
        files.rename(&old, new, Moment(7))?;
        file.seek(files, SeekFrom::Start(5))?;
        file.write_bytes(files, Bytes::from_static(b"z"))?;
        Ok(())
    }

    // A folder with a property is copied onto a file.
    fn copy_onto_a_file(alloc: Global, files: &mut MemFs, folder: &DavPath) -> Result<(), Fail> {
        files.patch_props(folder, vec![in alloc; (true, property(alloc)?)]?)?;
        let copy = DavPath::new(alloc, "/q")?;
        files.put(&copy, b"x", Moment(8))?;
        files.copy(folder, &copy, Moment(9))?;
        Ok(())
    }

    // The number of the node with a name of one byte.
    fn number_below(files: &MemFs, folder: u64, name: u8) -> FsResult<u64> {
        files
            .tree
            .find_child(folder, |known| known.as_slice() == [name].as_slice())
    }

    fn stands_in_the_tree(rt: &impl Abort, alloc: Global, files: &MemFs) -> Result<(), Fail> {
        let folder = number_below(files, ROOT_ID, b'e')?;
        let id = number_below(files, folder, b'f')?;
        let node = node_of(&files.tree, id)?;
        assert!(rt; files.tree.parent_of(id)? == Some(folder));
        assert!(rt; node.content.as_slice() == b"abc\0\0z".as_slice());
        let copy = node_of(&files.tree, number_below(files, ROOT_ID, b'q')?)?;
        assert!(rt; !copy.is_file());
        assert!(rt; copy.props.list(alloc, true)?.len() == 1);
        Ok(())
    }

    fn are_kept_in_a_tree(rt: &impl Abort, alloc: Global, files: &mut MemFs) -> Result<(), Fail> {
        let folder = DavPath::new(alloc, "/e")?;
        write_while_renamed(alloc, files, &folder)?;
        copy_onto_a_file(alloc, files, &folder)?;
        stands_in_the_tree(rt, alloc, files)
    }

    #[test]
    fn keeps_its_files_in_a_tree(rt: HostRuntime) -> Result<(), Fail> {
        let mut files = MemFs::new(rt.alloc(), Moment(1))?;
        are_kept_in_a_tree(&rt, rt.alloc(), &mut files)
    }

    // A part that was read of a file with a copy is shared until the file is written and the copy is gone.
    fn is_shared(
        rt: &impl Abort,
        files: &mut MemFs,
        file: &mut MemFsFile,
        copy: &DavPath,
        shared: &Bytes,
    ) -> Result<(), Fail> {
        assert!(rt; !shared.is_unique());
        file.seek(files, SeekFrom::Start(1))?;
        file.write_bytes(files, Bytes::from_static(b"xyz"))?;
        assert!(rt; !shared.is_unique());
        files.remove_file(copy, Moment(5))?;
        assert!(rt; shared.is_unique());
        assert!(rt; shared.as_slice() == b"abc".as_slice());
        Ok(())
    }

    fn shares_bytes(
        rt: &impl Abort,
        files: &mut MemFs,
        path: &DavPath,
        copy: &DavPath,
    ) -> Result<(), Fail> {
        files.put(path, b"abc", Moment(2))?;
        files.copy(path, copy, Moment(3))?;
        let mut file = files.open(path, OpenOptions::write(), Moment(4))?;
        let shared = file.read_bytes(files, 9)?;
        is_shared(rt, files, &mut file, copy, &shared)
    }

    fn is_written(rt: &impl Abort, files: &MemFs) -> Result<(), Fail> {
        let id = number_below(files, ROOT_ID, b'f')?;
        assert!(rt; node_of(&files.tree, id)?.content.as_slice() == b"axyz".as_slice());
        Ok(())
    }

    // Nobody but who reads a part of a file, or its copy, owns any of its bytes.
    #[test]
    fn copies_and_parts_share_bytes(rt: HostRuntime) -> Result<(), Fail> {
        let mut files = MemFs::new(rt.alloc(), Moment(1))?;
        let path = DavPath::new(rt.alloc(), "/f")?;
        let copy = DavPath::new(rt.alloc(), "/g")?;
        shares_bytes(&rt, &mut files, &path, &copy)?;
        is_written(&rt, &files)
    }
}
