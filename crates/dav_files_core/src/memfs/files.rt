//! The calls of a file system on files in memory.
ghost use Rattle.std.specs.Prelude.{◌≡◌, Some, Ok, Err, IsSome, true, map, refl};
ghost use Rattle.dav_path_core.specs.Segments.{segments};
ghost use Rattle.dav_path_core.specs.StoreAnswers.{AnswersAs, AnswersWithRoom, TellsOutcome};
ghost use Rattle.dav_files_core.specs.Describing.{metadata};
ghost use Rattle.dav_files_core.specs.ResourceCopying.{copy};
ghost use Rattle.dav_files_core.specs.Exactly.{AnswersExactly, TellsExactly};
ghost use Rattle.dav_files_core.specs.Folders.{create_dir, remove};
ghost use Rattle.dav_files_core.specs.Listing.{listed_entry as member_of, read_dir};
ghost use Rattle.dav_files_core.specs.Meta.{meta_of};
ghost use Rattle.dav_files_core.specs.Opening.{opening};
ghost use Rattle.dav_files_core.specs.Private.Entries.{FindsFolder};
ghost use Rattle.dav_files_core.specs.Properties.{patch_answer, patch_update, get_prop, get_props, patch_props, property_of};
ghost use Rattle.dav_files_core.specs.Renaming.{rename};
ghost use Rattle.dav_files_core.specs.Resources.{IsResourceMap, at_path};

use super::contents::Content;
use super::listing::MemFsEntry;
use super::nodes::Node;
use super::opening::MemFsFile;
use super::{MemFs, MemFsMeta, Target};
use crate::fs::{DavFileSystem, DavProp, Moment, OpenOptions, ReadDirMeta};
use dav_path_core::davpath::DavPath;
use dav_path_core::errors::{FsError, FsResult};
use dav_path_core::tree::ROOT_ID;
use http::StatusCode;

impl MemFs {
    // Removes an entry without members.
    fn remove(&mut self, path: &DavPath, now: Moment) -> FsResult<()>
        ensures answer { AnswersExactly (λ _. tt) result (remove self.old (segments path.now.bytes) now.0) self.old self.new }
        ensures shape { IsResourceMap self.new }
    {
        let id = self.number_of(path)?;
        let Some(folder) = self.folder_of(id) else {
            return Err(FsError::Forbidden);
        };
        self.take_out(id)?;
        self.touch(folder, now);
        Ok(())
    }

    // The number of the folder in which a path stands, whether or not something is there; the root stands in none.
    fn folder_at(&self, path: &DavPath) -> FsResult<Option<u64>>
        ensures { FindsFolder self.now (segments path.now.bytes) result }
    {
        match self.target_of(path)? {
            Target::Missing { folder, .. } => Ok(Some(folder)),
            Target::Entry(id) => Ok(self.folder_of(id)),
        }
    }
}

impl DavFileSystem for MemFs {
    type File = MemFsFile;

    type Meta = MemFsMeta;

    type Entry = MemFsEntry;

    ghost contents = { λ m. m };

    ghost metadata_answers = { λ m path told. told ≡ metadata m path };

    ghost one_view = { λ m. refl };

    ghost offers_create_dir = { true };

    ghost offers_remove_dir = { true };

    ghost offers_remove_file = { true };

    ghost offers_rename = { true };

    ghost offers_copy = { true };

    ghost offers_props = { true };

    /// It takes no memory where something stands at the path.
    fn open(&mut self, path: &DavPath, options: OpenOptions, now: Moment) -> FsResult<MemFsFile>
        ensures answer { AnswersAs (λ f. f) result (opening self.old (segments path.now.bytes) options now.0) self.old self.new }
        ensures known { IsSome (at_path self.old (segments path.now.bytes))
            → AnswersExactly (λ f. f) result (opening self.old (segments path.now.bytes) options now.0) self.old self.new }
        ensures shape { IsResourceMap self.new }
    {
        match self.target_of(path)? {
            Target::Entry(number) => {
                if options.create_new {
                    return Err(FsError::Exists);
                }
                if !self.node_at(number).is_file() {
                    return Err(FsError::Forbidden);
                }
                if options.truncate {
                    self.write(number, Content::new(), now);
                }
                return Ok(MemFsFile {
                    number,
                    position: 0,
                    append: options.append,
                });
            }
            Target::Missing { folder, name } => {
                if !options.create {
                    return Err(FsError::NotFound);
                }
                let node = Node::new_file(self.alloc, Content::new(), now);
                let number = self.add_entry(folder, name, node)?;
                return Ok(MemFsFile {
                    number,
                    position: 0,
                    append: options.append,
                });
            }
        }
    }

    /// As finding refuses; `Forbidden` for a file; `InsufficientStorage` where it is out of memory.
    fn read_dir(&self, path: &DavPath, meta: ReadDirMeta) -> FsResult<Vec<MemFsEntry>>
        ensures answer { TellsOutcome (λ v. map member_of v.items) result (read_dir self.now (segments path.now.bytes)) }
        ensures shape { IsResourceMap self.now }
    {
        let id = self.number_of(path)?;
        if self.node_at(id).is_file() {
            return Err(FsError::Forbidden);
        }
        let members = self.members_of(id)?;
        self.described(members)
    }

    /// It takes no memory.
    fn metadata(&self, path: &DavPath) -> FsResult<MemFsMeta>
        ensures answer { TellsExactly meta_of result (metadata self.now (segments path.now.bytes)) }
        ensures shape { IsResourceMap self.now }
    {
        self.metadata(path)
    }

    /// As `metadata`: there are no links.
    fn symlink_metadata(&self, path: &DavPath) -> FsResult<MemFsMeta>
        ensures answer { TellsExactly meta_of result (metadata self.now (segments path.now.bytes)) }
        ensures shape { IsResourceMap self.now }
    {
        self.metadata(path)
    }

    /// For its folder as finding refuses, and `Forbidden` for a file there; `Exists` where something stands at the path;
    /// `InsufficientStorage` where it is out of memory or numbers.
    fn create_dir(&mut self, path: &DavPath, now: Moment) -> FsResult<()>
        ensures answer { AnswersAs (λ _. tt) result (create_dir self.old (segments path.now.bytes) now.0) self.old self.new }
        ensures shape { IsResourceMap self.new }
    {
        match self.target_of(path)? {
            Target::Entry(_) => return Err(FsError::Exists),
            Target::Missing { folder, name } => {
                let node = Node::new_folder(self.alloc, now);
                self.add_entry(folder, name, node)?;
                self.touch(folder, now);
                return Ok(());
            }
        }
    }

    /// It takes no memory. A file is removed, too.
    fn remove_dir(&mut self, path: &DavPath, now: Moment) -> FsResult<()>
        ensures answer { AnswersExactly (λ _. tt) result (remove self.old (segments path.now.bytes) now.0) self.old self.new }
        ensures shape { IsResourceMap self.new }
    {
        self.remove(path, now)
    }

    /// It takes no memory. A folder without members is removed, too.
    fn remove_file(&mut self, path: &DavPath, now: Moment) -> FsResult<()>
        ensures answer { AnswersExactly (λ _. tt) result (remove self.old (segments path.now.bytes) now.0) self.old self.new }
        ensures shape { IsResourceMap self.new }
    {
        self.remove(path, now)
    }

    /// In this order: the source, then the target's folder, as finding refuses, and `Forbidden` for a file there; `Exists` for `/`,
    /// unless `/` itself is moved, and for a target with members; `Forbidden` where `/` itself is moved, and for a target below the source.
    /// `InsufficientStorage` where it is out of memory.
    fn rename(&mut self, from: &DavPath, to: &DavPath, now: Moment) -> FsResult<()>
        ensures answer { AnswersWithRoom (λ _. tt) result (rename self.old (segments from.now.bytes) (segments to.now.bytes) now.0) self.old self.new }
        ensures shape { IsResourceMap self.new }
    {
        let source = self.number_of(from)?;
        let Some(folder) = self.folder_at(to)? else {
            return Err(if source == ROOT_ID {
                FsError::Forbidden
            } else {
                FsError::Exists
            });
        };
        let above = self.folder_of(source);
        self.relocate(source, folder, to.file_name_bytes())?;
        let Some(above) = above else { unreachable!() };
        self.touch(above, now);
        self.touch(folder, now);
        Ok(())
    }

    /// The source as finding refuses; `Forbidden` for a folder as the target; for a missing target its folder as finding refuses, and
    /// `Forbidden` for a file there; `InsufficientStorage` where it is out of memory or numbers.
    fn copy(&mut self, from: &DavPath, to: &DavPath, now: Moment) -> FsResult<()>
        ensures answer { AnswersAs (λ _. tt) result (copy self.old (segments from.now.bytes) (segments to.now.bytes) now.0) self.old self.new }
        ensures shape { IsResourceMap self.new }
    {
        let source = self.number_of(from)?;
        let target = self.target_of(to)?;
        match target {
            Target::Entry(id) => {
                if !self.node_at(id).is_file() {
                    return Err(FsError::Forbidden);
                }
                let node = self.node_at(source).made_at(self.alloc, now)?;
                self.replace(id, node);
                return Ok(());
            }
            Target::Missing { folder, name } => {
                let node = self.node_at(source).made_at(self.alloc, now)?;
                self.add_entry(folder, name, node)?;
                return Ok(());
            }
        }
    }

    /// Not offered.
    fn set_accessed(&mut self, path: &DavPath, tm: Moment) -> FsResult<()>
        ensures answer { result ≡ Err FsError.NotImplemented }
        ensures same { self.new ≡ self.old }
    {
        Err(FsError::NotImplemented)
    }

    /// Not offered.
    fn set_modified(&mut self, path: &DavPath, tm: Moment) -> FsResult<()>
        ensures answer { result ≡ Err FsError.NotImplemented }
        ensures same { self.new ≡ self.old }
    {
        Err(FsError::NotImplemented)
    }

    /// Properties may be kept at every path.
    fn have_props(&self, path: &DavPath) -> bool
        ensures { result ≡ true }
    {
        true
    }

    /// The path as finding refuses; `InsufficientStorage` where it is out of memory.
    fn patch_props(
        &mut self,
        path: &DavPath,
        patch: Vec<(bool, DavProp)>,
    ) -> FsResult<Vec<(StatusCode, DavProp)>>
        ensures answer { AnswersAs (λ v. map patch_answer v.items) result (patch_props self.old (segments path.now.bytes) (map patch_update patch.items)) self.old self.new }
        ensures shape { IsResourceMap self.new }
    {
        let id = self.number_of(path)?;
        self.patch(id, patch)
    }

    /// The path as finding refuses; `InsufficientStorage` where it is out of memory.
    fn get_props(&self, path: &DavPath, do_content: bool) -> FsResult<Vec<DavProp>>
        ensures { TellsOutcome (λ v. map property_of v.items) result (get_props self.now (segments path.now.bytes) do_content) }
    {
        let id = self.number_of(path)?;
        self.node_at(id).props.list(self.alloc, do_content)
    }

    /// The path as finding refuses, then `NotFound` without such a property, or without its xml; `InsufficientStorage` where it is
    /// out of memory.
    fn get_prop(&self, path: &DavPath, prop: &DavProp) -> FsResult<Vec<u8>>
        ensures { TellsOutcome (λ v. v.items) result (get_prop self.now (segments path.now.bytes) (property_of prop.now)) }
    {
        let id = self.number_of(path)?;
        self.node_at(id).props.xml_of(self.alloc, prop)
    }

    /// Not offered.
    fn get_quota(&self) -> FsResult<(u64, Option<u64>)>
        ensures { result ≡ Err FsError.NotImplemented }
    {
        Err(FsError::NotImplemented)
    }
}
