//! What calls on files share, and the traits of a file system.
ghost use Rattle.std.specs.Prelude.{◌≡◌, ◌↔◌, ◌==◌, ℕ, List, map, None, IsTrue, false, true, Ok, Err, IfOk, IfErr, OnErr, MatchResult};
ghost use Rattle.dav_path_core.specs.Segments.{segments};
ghost use Rattle.dav_files_core.specs.Describing.{metadata};
ghost use Rattle.dav_files_core.specs.ResourceCopying.{copy};
ghost use Rattle.dav_files_core.specs.Folders.{create_dir, remove};
ghost use Rattle.dav_files_core.specs.Listing.{read_dir};
ghost use Rattle.dav_files_core.specs.Mapped.{AnswersOneOf};
ghost use Rattle.dav_files_core.specs.Opening.{opening};
ghost use Rattle.dav_files_core.specs.Properties.{patch_answer, patch_update, get_prop, get_props, patch_props, property_of};
ghost use Rattle.dav_files_core.specs.Refusing.{RefusesAs, RefusesAsOffered};
ghost use Rattle.dav_files_core.specs.Renaming.{rename};
ghost use Rattle.dav_files_core.specs.Resources.{IsResourceMap};
ghost use Rattle.dav_files_core.specs.declared.memfs.Kind.{Kind};

use dav_path_core::davpath::DavPath;
use http::StatusCode;

mod below;
mod open_files;
mod properties;
mod shape;

pub use below::commands_see_below;
pub use dav_path_core::errors::{FsError, FsResult};
pub use dav_path_core::util::Moment;
pub use open_files::{DavFile, numbers_are_given_once, open_files_follow};
pub use properties::DavProp;
pub use shape::commands_keep_shape;

/// What a listing is to find out of each member.
#[derive(Clone, Copy, PartialEq, Eq, Debug)]
pub enum ReadDirMeta {
    /// What is known of what a link leads to.
    Data,
    /// What is known of a link itself.
    DataSymlink,
    /// Nothing.
    None,
}

/// How a file is opened.
#[derive(Debug, Clone, Default, PartialEq, Eq, Drop)]
pub struct OpenOptions {
    /// To be read.
    pub read: bool,
    /// To be written.
    pub write: bool,
    /// Writes go to the end.
    pub append: bool,
    /// The file is emptied first.
    pub truncate: bool,
    /// A missing file is made.
    pub create: bool,
    /// The file has to be missing.
    pub create_new: bool,
    /// How many bytes will be written, if it is known.
    pub size: Option<u64>,
    /// What the bytes are to be checked against.
    pub checksum: Option<String>,
}

impl OpenOptions {
    /// Nothing set.
    pub fn new() -> OpenOptions
        ensures { result ≡ record { read = false; write = false; append = false; truncate = false; create = false; create_new = false; size = None; checksum = None } }
    {
        OpenOptions {
            read: false,
            write: false,
            append: false,
            truncate: false,
            create: false,
            create_new: false,
            size: None,
            checksum: None,
        }
    }

    /// To be read, and nothing else set.
    pub fn read() -> OpenOptions
        ensures { result ≡ record { read = true; write = false; append = false; truncate = false; create = false; create_new = false; size = None; checksum = None } }
    {
        let mut options = OpenOptions::new();
        options.read = true;
        options
    }

    /// To be written, and nothing else set.
    pub fn write() -> OpenOptions
        ensures { result ≡ record { read = false; write = true; append = false; truncate = false; create = false; create_new = false; size = None; checksum = None } }
    {
        let mut options = OpenOptions::new();
        options.write = true;
        options
    }
}

/// A store of files and folders on paths. Of every implementation, seen as a map from paths to resources: a call that is
/// done answers, and leaves the map, as the definition of its command says; a refusal leaves the map as it was. What it holds is a
/// resource map, as `open`, `read_dir` and `metadata` tell; that each command keeps it so is the law `commands_keep_shape`.
///
/// All calls but `open`, `read_dir` and `metadata` have a default. It is `NotImplemented`, but `symlink_metadata` is `metadata`, and
/// `have_props` is false. An implementation that offers such a call says so by a ghost member, `offers_copy` for `copy` and so on; where it
/// does not, the clause `offered` says that the call answers its default.
pub trait DavFileSystem {
    /// An open file.
    type File: DavFile<Self> + Drop;
    /// What is known of a file or a folder.
    type Meta: DavMetaData + Drop;
    /// A member of a folder.
    type Entry: DavDirEntry + Drop;

    ghost use Rattle.std.specs.Prelude.{Bool, false, Result};
    ghost use Rattle.dav_path_core.specs.declared.errors.FsError.{FsError};
    ghost use Rattle.dav_path_core.specs.Fronts.{Path};
    ghost use Rattle.dav_files_core.specs.Meta.{Meta};
    ghost use Rattle.dav_files_core.specs.Resources.{ResourceMap};

    /// What it holds.
    ghost contents: { Self → ResourceMap };

    /// Which answers `metadata` may give for a path.
    ghost metadata_answers: { Self → Path → Result Meta FsError → Type 0 };

    /// Whether it makes folders.
    ghost offers_create_dir: { Bool } = { false };

    /// Whether it removes folders.
    ghost offers_remove_dir: { Bool } = { false };

    /// Whether it removes files.
    ghost offers_remove_file: { Bool } = { false };

    /// Whether it puts what is at a path at another path.
    ghost offers_rename: { Bool } = { false };

    /// Whether it copies.
    ghost offers_copy: { Bool } = { false };

    /// Whether it sets when something was last read.
    ghost offers_accessed: { Bool } = { false };

    /// Whether it sets when something was last changed.
    ghost offers_modified: { Bool } = { false };

    /// Whether it keeps properties.
    ghost offers_props: { Bool } = { false };

    /// Whether it tells how many bytes are used.
    ghost offers_quota: { Bool } = { false };

    /// Opens a file; a missing one is made in its folder, if it is asked for.
    fn open(&mut self, path: &DavPath, options: OpenOptions, now: Moment) -> FsResult<Self::File>
        ensures ok { IfOk result (λ f. opening (contents self.old) (segments path.now.bytes) options now.0 ≡ Ok (Self.File.opened f, contents self.new)) }
        ensures err { OnErr result (contents self.new ≡ contents self.old) }
        ensures refused { IfErr result (λ e. RefusesAs (opening (contents self.old) (segments path.now.bytes) options now.0) e) }
        ensures shape { IsResourceMap (contents self.new) };

    /// The members of a folder, each once, sorted by the bytes of their names.
    fn read_dir(&self, path: &DavPath, meta: ReadDirMeta) -> FsResult<Vec<Self::Entry>>
        ensures ok { IfOk result (λ v. read_dir (contents self.now) (segments path.now.bytes) ≡ Ok (map Self.Entry.listed v.items)) }
        ensures refused { IfErr result (λ e. RefusesAs (read_dir (contents self.now) (segments path.now.bytes)) e) }
        ensures shape { IsResourceMap (contents self.now) };

    /// What is known of what is at a path.
    fn metadata(&self, path: &DavPath) -> FsResult<Self::Meta>
        ensures answer { AnswersOneOf (metadata_answers self.now (segments path.now.bytes))
            (λ meta known. Self.Meta.told known ≡ meta) result }
        ensures ok { IfOk result (λ meta. metadata (contents self.now) (segments path.now.bytes) ≡ Ok (Self.Meta.told meta)) }
        ensures refused { IfErr result (λ e. RefusesAs (metadata (contents self.now) (segments path.now.bytes)) e) }
        ensures shape { IsResourceMap (contents self.now) };

    /// The same of a link itself: one of the answers of `metadata`. Unless it is told otherwise, there are no links.
    fn symlink_metadata(&self, path: &DavPath) -> FsResult<Self::Meta>
        ensures answer { AnswersOneOf (metadata_answers self.now (segments path.now.bytes))
            (λ meta known. Self.Meta.told known ≡ meta) result }
        ensures ok { IfOk result (λ meta. metadata (contents self.now) (segments path.now.bytes) ≡ Ok (Self.Meta.told meta)) }
        ensures refused { IfErr result (λ e. RefusesAs (metadata (contents self.now) (segments path.now.bytes)) e) }
        ensures shape { IsResourceMap (contents self.now) }
    {
        self.metadata(path)
    }

    /// Makes a folder (RFC 4918 section 9.3).
    fn create_dir(&mut self, path: &DavPath, now: Moment) -> FsResult<()>
        ensures ok { IfOk result (λ x. create_dir (contents self.old) (segments path.now.bytes) now.0 ≡ Ok (x, contents self.new)) }
        ensures err { OnErr result (contents self.new ≡ contents self.old) }
        ensures offered { offers_create_dir ≡ false → result ≡ Err FsError.NotImplemented }
        ensures refused { IfErr result (λ e. RefusesAsOffered (create_dir (contents self.old) (segments path.now.bytes) now.0) e) }
    {
        Err(FsError::NotImplemented)
    }

    /// Removes a folder without members (RFC 4918 section 9.6).
    fn remove_dir(&mut self, path: &DavPath, now: Moment) -> FsResult<()>
        ensures ok { IfOk result (λ x. remove (contents self.old) (segments path.now.bytes) now.0 ≡ Ok (x, contents self.new)) }
        ensures err { OnErr result (contents self.new ≡ contents self.old) }
        ensures offered { offers_remove_dir ≡ false → result ≡ Err FsError.NotImplemented }
        ensures refused { IfErr result (λ e. RefusesAsOffered (remove (contents self.old) (segments path.now.bytes) now.0) e) }
    {
        Err(FsError::NotImplemented)
    }

    /// Removes a file (RFC 4918 section 9.6).
    fn remove_file(&mut self, path: &DavPath, now: Moment) -> FsResult<()>
        ensures ok { IfOk result (λ x. remove (contents self.old) (segments path.now.bytes) now.0 ≡ Ok (x, contents self.new)) }
        ensures err { OnErr result (contents self.new ≡ contents self.old) }
        ensures offered { offers_remove_file ≡ false → result ≡ Err FsError.NotImplemented }
        ensures refused { IfErr result (λ e. RefusesAsOffered (remove (contents self.old) (segments path.now.bytes) now.0) e) }
    {
        Err(FsError::NotImplemented)
    }

    /// Puts what is at a path, with all below it, at another path (RFC 4918 section 9.9).
    fn rename(&mut self, from: &DavPath, to: &DavPath, now: Moment) -> FsResult<()>
        ensures ok { IfOk result (λ x. rename (contents self.old) (segments from.now.bytes) (segments to.now.bytes) now.0 ≡ Ok (x, contents self.new)) }
        ensures err { OnErr result (contents self.new ≡ contents self.old) }
        ensures offered { offers_rename ≡ false → result ≡ Err FsError.NotImplemented }
        ensures refused { IfErr result (λ e. RefusesAsOffered (rename (contents self.old) (segments from.now.bytes) (segments to.now.bytes) now.0) e) }
    {
        Err(FsError::NotImplemented)
    }

    /// Copies what is at a path, without members (RFC 4918 section 9.8).
    fn copy(&mut self, from: &DavPath, to: &DavPath, now: Moment) -> FsResult<()>
        ensures ok { IfOk result (λ x. copy (contents self.old) (segments from.now.bytes) (segments to.now.bytes) now.0 ≡ Ok (x, contents self.new)) }
        ensures err { OnErr result (contents self.new ≡ contents self.old) }
        ensures offered { offers_copy ≡ false → result ≡ Err FsError.NotImplemented }
        ensures refused { IfErr result (λ e. RefusesAsOffered (copy (contents self.old) (segments from.now.bytes) (segments to.now.bytes) now.0) e) }
    {
        Err(FsError::NotImplemented)
    }

    /// Sets when it was last read.
    fn set_accessed(&mut self, path: &DavPath, tm: Moment) -> FsResult<()>
        ensures err { OnErr result (contents self.new ≡ contents self.old) }
        ensures offered { offers_accessed ≡ false → result ≡ Err FsError.NotImplemented }
    {
        Err(FsError::NotImplemented)
    }

    /// Sets when its bytes were last changed.
    fn set_modified(&mut self, path: &DavPath, tm: Moment) -> FsResult<()>
        ensures err { OnErr result (contents self.new ≡ contents self.old) }
        ensures offered { offers_modified ≡ false → result ≡ Err FsError.NotImplemented }
    {
        Err(FsError::NotImplemented)
    }

    /// Whether properties are kept at a path.
    fn have_props(&self, path: &DavPath) -> bool
        ensures offered { offers_props ≡ false → result ≡ false }
    {
        false
    }

    /// Sets the properties that come with `true`, and removes the others, one after another, all or none (RFC 4918 section 9.2).
    fn patch_props(
        &mut self,
        path: &DavPath,
        patch: Vec<(bool, DavProp)>,
    ) -> FsResult<Vec<(StatusCode, DavProp)>>
        ensures ok { IfOk result (λ v. patch_props (contents self.old) (segments path.now.bytes) (map patch_update patch.items) ≡ Ok (map patch_answer v.items, contents self.new)) }
        ensures err { OnErr result (contents self.new ≡ contents self.old) }
        ensures offered { offers_props ≡ false → result ≡ Err FsError.NotImplemented }
        ensures refused { IfErr result (λ e. RefusesAsOffered (patch_props (contents self.old) (segments path.now.bytes) (map patch_update patch.items)) e) }
    {
        Err(FsError::NotImplemented)
    }

    /// The properties at a path, each once, sorted by the bytes of their namespaces, then of their names; with their xml where
    /// `do_content` is set.
    fn get_props(&self, path: &DavPath, do_content: bool) -> FsResult<Vec<DavProp>>
        ensures ok { IfOk result (λ v. get_props (contents self.now) (segments path.now.bytes) do_content ≡ Ok (map property_of v.items)) }
        ensures offered { offers_props ≡ false → result ≡ Err FsError.NotImplemented }
        ensures refused { IfErr result (λ e. RefusesAsOffered (get_props (contents self.now) (segments path.now.bytes) do_content) e) }
    {
        Err(FsError::NotImplemented)
    }

    /// The xml of one property, which is looked up by its namespace and its name.
    fn get_prop(&self, path: &DavPath, prop: &DavProp) -> FsResult<Vec<u8>>
        ensures ok { IfOk result (λ v. get_prop (contents self.now) (segments path.now.bytes) (property_of prop.now) ≡ Ok v.items) }
        ensures offered { offers_props ≡ false → result ≡ Err FsError.NotImplemented }
        ensures refused { IfErr result (λ e. RefusesAsOffered (get_prop (contents self.now) (segments path.now.bytes) (property_of prop.now)) e) }
    {
        Err(FsError::NotImplemented)
    }

    /// How many bytes are used, and how many there may be.
    fn get_quota(&self) -> FsResult<(u64, Option<u64>)>
        ensures offered { offers_quota ≡ false → result ≡ Err FsError.NotImplemented }
    {
        Err(FsError::NotImplemented)
    }

    /// An open file sees of the file system what the file system is seen as.
    ghost one_view: { (s : Self) → Self.File.contents s ≡ contents s };
}

/// A member of a folder. What the calls answer is told of one name and one `Meta`. The tests answer one of the answers of `metadata`: the same
/// refusal, or what is said of the same value.
pub trait DavDirEntry {
    /// What is known of it.
    type Meta: DavMetaData + Drop;

    ghost use Rattle.std.specs.Prelude.{Result};
    ghost use Rattle.dav_path_core.specs.declared.errors.FsError.{FsError};
    ghost use Rattle.dav_path_core.specs.Fronts.{Segment};
    ghost use Rattle.dav_files_core.specs.Meta.{Meta};

    /// Its name, and what is told of it.
    ghost listed: { Self → Segment × Meta };

    /// Which answers `metadata` may give.
    ghost metadata_answers: { Self → Result Meta FsError → Type 0 };

    /// Its name, the last segment of its path.
    fn name(&self) -> &[u8]
        ensures { result.now ≡ (listed self.now).0 };

    /// What is known of it.
    fn metadata(&self) -> FsResult<Self::Meta>
        ensures told { IfOk result (λ meta. Self.Meta.told meta ≡ (listed self.now).1) }
        ensures answer { AnswersOneOf (metadata_answers self.now) (λ meta known. Self.Meta.told known ≡ meta) result };

    /// Whether it is a folder.
    fn is_dir(&self) -> FsResult<bool>
        ensures told { IfOk result (λ b. IsTrue b ↔ ((listed self.now).1.kind ≡ Kind.Folder)) }
        ensures answer { AnswersOneOf (metadata_answers self.now) (λ meta b. IsTrue b ↔ (meta.kind ≡ Kind.Folder)) result }
    {
        Ok(self.metadata()?.is_dir())
    }

    /// Whether it is a file.
    fn is_file(&self) -> FsResult<bool>
        ensures told { Self.Meta.offers_links ≡ false
            → IfOk result (λ b. IsTrue b ↔ ((listed self.now).1.kind ≡ Kind.File)) }
        ensures answer { AnswersOneOf (metadata_answers self.now)
            (λ meta b. Self.Meta.offers_links ≡ false → (IsTrue b ↔ (meta.kind ≡ Kind.File))) result }
    {
        Ok(self.metadata()?.is_file())
    }

    /// Whether it is a link.
    fn is_symlink(&self) -> FsResult<bool>
        ensures told { Self.Meta.offers_links ≡ false → IfOk result (λ b. b ≡ false) }
        ensures answer { AnswersOneOf (metadata_answers self.now)
            (λ meta b. Self.Meta.offers_links ≡ false → b ≡ false) result }
    {
        Ok(self.metadata()?.is_symlink())
    }
}

/// What is known of a file or a folder (RFC 4918 section 15): the calls tell of one `Meta`. What has no other default is `NotImplemented` by
/// default.
pub trait DavMetaData {
    ghost use Rattle.std.specs.Prelude.{Bool, false};
    ghost use Rattle.dav_files_core.specs.Meta.{Meta};

    /// What it tells.
    ghost told: { Self → Meta };

    /// Whether it knows when something was made.
    ghost offers_created: { Bool } = { false };

    /// Whether it knows when something was last read.
    ghost offers_accessed: { Bool } = { false };

    /// Whether it knows when what is known of something last changed.
    ghost offers_status_changed: { Bool } = { false };

    /// Whether it tells programs from other files.
    ghost offers_executable: { Bool } = { false };

    /// Whether there are links.
    ghost offers_links: { Bool } = { false };

    /// How many bytes it has.
    fn len(&self) -> u64
        ensures { result ≡ (told self.now).length };

    /// When its bytes last changed.
    fn modified(&self) -> FsResult<Moment>
        ensures { IfOk result (λ moment. moment.0 ≡ (told self.now).modified) };

    /// Whether it is a folder.
    fn is_dir(&self) -> bool
        ensures { IsTrue result ↔ ((told self.now).kind ≡ Kind.Folder) };

    /// When it was made.
    fn created(&self) -> FsResult<Moment>
        ensures ok { IfOk result (λ moment. moment.0 ≡ (told self.now).created) }
        ensures offered { offers_created ≡ false → result ≡ Err FsError.NotImplemented }
    {
        Err(FsError::NotImplemented)
    }

    /// When it was last read.
    fn accessed(&self) -> FsResult<Moment>
        ensures offered { offers_accessed ≡ false → result ≡ Err FsError.NotImplemented }
    {
        Err(FsError::NotImplemented)
    }

    /// When what is known of it last changed.
    fn status_changed(&self) -> FsResult<Moment>
        ensures offered { offers_status_changed ≡ false → result ≡ Err FsError.NotImplemented }
    {
        Err(FsError::NotImplemented)
    }

    /// Whether it is a program.
    fn executable(&self) -> FsResult<bool>
        ensures offered { offers_executable ≡ false → result ≡ Err FsError.NotImplemented }
    {
        Err(FsError::NotImplemented)
    }

    /// Whether it is a file: no folder.
    fn is_file(&self) -> bool
        ensures { offers_links ≡ false → (IsTrue result ↔ ((told self.now).kind ≡ Kind.File)) }
    {
        !self.is_dir()
    }

    /// Whether it is a link.
    fn is_symlink(&self) -> bool
        ensures { offers_links ≡ false → result ≡ false }
    {
        false
    }

    /// Whether it has no bytes.
    fn is_empty(&self) -> bool
        ensures { result ≡ ((told self.now).length == 0) }
    {
        self.len() == 0
    }
}
