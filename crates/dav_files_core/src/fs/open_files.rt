//! The trait of an open file.
ghost use Rattle.std.specs.Prelude.{◌≡◌, ℕ, Bool, List, [], Option, Ok, IfOk, IfErr, OnOk, OnErr};
ghost use Rattle.dav_path_core.specs.Fronts.{Path};
ghost use Rattle.dav_files_core.specs.declared.fs.OpenOptions.{OpenOptions};
ghost use Rattle.dav_files_core.specs.ContentParts.{write_at};
ghost use Rattle.dav_files_core.specs.ResourcePutting.{put};
ghost use Rattle.dav_files_core.specs.ResourceCopying.{copy};
ghost use Rattle.dav_files_core.specs.Folders.{create_dir, remove};
ghost use Rattle.dav_files_core.specs.Following.{NeverAgain, OthersStay, TakesAlong, TakesPlace};
ghost use Rattle.dav_files_core.specs.OpenFiles.{open_metadata, read_bytes, seek, write_bytes};
ghost use Rattle.dav_files_core.specs.Opening.{OpenFile, opening};
ghost use Rattle.dav_files_core.specs.Properties.{patch_props};
ghost use Rattle.dav_files_core.specs.Refusing.{RefusesAs};
ghost use Rattle.dav_files_core.specs.Renaming.{rename};
ghost use Rattle.dav_files_core.specs.Resources.{Property, ResourceMap, IsResourceMap};

use super::DavMetaData;
use bytes::{Buf, Bytes};
use dav_path_core::errors::FsResult;
use std::io::SeekFrom;

/// An open file of a file system `S`, which is handed to each call. Of every implementation, seen as the number of an entry and a
/// position in its bytes: a call that is done answers, and leaves the file and what the file system holds, as the definition
/// of the call says; a refusal leaves the position, what the file system holds, and the buffer as they were.
pub trait DavFile<S> {
    /// What is known of a file or a folder.
    type Meta: DavMetaData + Drop;

    ghost use Rattle.std.specs.Prelude.{Bool, false};

    /// What the file system holds.
    ghost contents: { S → ResourceMap };

    /// Which entry it is, and where it stands.
    ghost opened: { Self → OpenFile };

    /// Whether bytes may be had elsewhere.
    ghost offers_redirects: { Bool } = { false };

    /// What is known of the entry.
    fn metadata(&mut self, fs: &S) -> FsResult<Self::Meta>
        ensures ok { IfOk result (λ meta. open_metadata (contents fs.now) (opened self.old) ≡ Ok (Self.Meta.told meta)) }
        ensures same { opened self.new ≡ opened self.old }
        ensures refused { IfErr result (λ e. RefusesAs (open_metadata (contents fs.now) (opened self.old)) e) };

    /// The bytes from the position on, `count` at most; it then stands behind them.
    fn read_bytes(&mut self, fs: &S, count: usize) -> FsResult<Bytes>
        ensures ok { IfOk result (λ b. read_bytes (contents fs.now) (opened self.old) count ≡ Ok (b, opened self.new)) }
        ensures err { OnErr result (opened self.new ≡ opened self.old) }
        ensures refused { IfErr result (λ e. RefusesAs (read_bytes (contents fs.now) (opened self.old) count) e) };

    /// Writes bytes at the position, or at the end where it appends; it then stands behind them. A gap is filled with zeros.
    fn write_bytes(&mut self, fs: &mut S, bytes: Bytes) -> FsResult<()>
        ensures ok { IfOk result (λ x. write_bytes (contents fs.old) (opened self.old) bytes ≡ Ok (x, (opened self.new, contents fs.new))) }
        ensures err { OnErr result (opened self.new ≡ opened self.old) }
        ensures kept { OnErr result (contents fs.new ≡ contents fs.old) }
        ensures refused { IfErr result (λ e. RefusesAs (write_bytes (contents fs.old) (opened self.old) bytes) e) };

    /// Writes all that a buffer still gives, and leaves it spent; refused, it leaves the buffer unread.
    fn write_buf<B: Buf>(&mut self, fs: &mut S, buf: &mut B) -> FsResult<()>
        ensures ok { IfOk result (λ x. write_bytes (contents fs.old) (opened self.old) (B.unread buf.old) ≡ Ok (x, (opened self.new, contents fs.new))) }
        ensures spent { OnOk result (B.unread buf.new ≡ []) }
        ensures err { OnErr result (opened self.new ≡ opened self.old) }
        ensures kept { OnErr result (contents fs.new ≡ contents fs.old) }
        ensures unread { OnErr result (B.unread buf.new ≡ B.unread buf.old) }
        ensures refused { IfErr result (λ e. RefusesAs (write_bytes (contents fs.old) (opened self.old) (B.unread buf.old)) e) };

    /// Moves the position, and answers the new one.
    fn seek(&mut self, fs: &S, to: SeekFrom) -> FsResult<u64>
        ensures ok { IfOk result (λ at. seek (contents fs.now) (opened self.old) to ≡ Ok (at, opened self.new)) }
        ensures err { OnErr result (opened self.new ≡ opened self.old) }
        ensures refused { IfErr result (λ e. RefusesAs (seek (contents fs.now) (opened self.old) to) e) };

    /// Makes written data durable, where the store outlives the program.
    fn flush(&mut self, fs: &mut S) -> FsResult<()>
        ensures same { opened self.new ≡ opened self.old }
        ensures kept { contents fs.new ≡ contents fs.old };

    /// Where the bytes are to be got instead, as a URL. Unless it is told otherwise, nowhere.
    fn redirect_url(&mut self, fs: &S) -> FsResult<Option<String>>
        ensures same { opened self.new ≡ opened self.old }
        ensures offered { offers_redirects ≡ false → result ≡ Ok None }
    {
        Ok(None)
    }
}

/// The law of what is open, where a rename is done: what has a number at or below the source stands at the same place at or below the
/// target; what stood at the target is gone, unless it was the source; and what is elsewhere stays where it is, and as it is, but
/// that the folders of source and target have another modified time.
pub fn open_files_follow()
    ensures along { (m m' : ResourceMap) (from to : Path) (now : ℕ) → IsResourceMap m → rename m from to now ≡ Ok (tt, m') → TakesAlong m from to m' }
    ensures replaced { (m m' : ResourceMap) (from to : Path) (now : ℕ) → IsResourceMap m → rename m from to now ≡ Ok (tt, m') → TakesPlace m from to m' }
    ensures others { (m m' : ResourceMap) (from to : Path) (now : ℕ) → IsResourceMap m → rename m from to now ≡ Ok (tt, m') → OthersStay m from to now m' }
{}

/// The law of numbers: a number whose entry is gone isn't given again, by any command; so what is open is not another entry, wherever
/// that stands.
pub fn numbers_are_given_once()
    ensures put { (m m' : ResourceMap) (p : Path) (bytes : List ℕ) (now : ℕ) → IsResourceMap m → put m p bytes now ≡ Ok (tt, m') → NeverAgain m m' }
    ensures write_at { (m m' : ResourceMap) (p : Path) (at : Option ℕ) (bytes : List ℕ) → IsResourceMap m → write_at m p at bytes ≡ Ok (tt, m') → NeverAgain m m' }
    ensures create_dir { (m m' : ResourceMap) (p : Path) (now : ℕ) → IsResourceMap m → create_dir m p now ≡ Ok (tt, m') → NeverAgain m m' }
    ensures remove { (m m' : ResourceMap) (p : Path) (now : ℕ) → IsResourceMap m → remove m p now ≡ Ok (tt, m') → NeverAgain m m' }
    ensures rename { (m m' : ResourceMap) (from to : Path) (now : ℕ) → IsResourceMap m → rename m from to now ≡ Ok (tt, m') → NeverAgain m m' }
    ensures copy { (m m' : ResourceMap) (from to : Path) (now : ℕ) → IsResourceMap m → copy m from to now ≡ Ok (tt, m') → NeverAgain m m' }
    ensures opening { (m m' : ResourceMap) (p : Path) (options : OpenOptions) (now : ℕ) (f : OpenFile) → IsResourceMap m → opening m p options now ≡ Ok (f, m') → NeverAgain m m' }
    ensures patch_props { (m m' : ResourceMap) (p : Path) (patch : List (Bool × Property)) (answers : List (ℕ × Property)) → IsResourceMap m → patch_props m p patch ≡ Ok (answers, m') → NeverAgain m m' }
    ensures write_bytes { (m m' : ResourceMap) (f f' : OpenFile) (bytes : List ℕ) → IsResourceMap m → write_bytes m f bytes ≡ Ok (tt, (f', m')) → NeverAgain m m' }
{}
