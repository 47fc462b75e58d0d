//! Clones of headers, where there is memory: that each is equal to its source say the clauses `is_clone`. And clones of entries and of options of files, which are equal.
use dav_files_core::fs::{DavDirEntry, DavFileSystem, Moment, OpenOptions, ReadDirMeta};
use dav_files_core::memfs::{MemFs, MemFsEntry};
use dav_headers_core::davheaders::*;
use dav_path_core::davpath::DavPath;
use std::alloc::{AllocError, Global};
use std::test::Fail;

fn can_be_cloned<T: Clone + Drop>(value: &T) -> bool {
    value.clone().is_ok()
}

fn text(alloc: Global) -> Result<String, AllocError> {
    String::from_str(alloc, "a:b")
}

fn tag(alloc: Global) -> Result<ETag, HeaderError> {
    ETag::new(alloc, true, "a")
}

fn texts(alloc: Global) -> Result<[bool; 5], Fail> {
    Ok([
        can_be_cloned(&ContentType(text(alloc)?)),
        can_be_cloned(&ContentLocation(text(alloc)?)),
        can_be_cloned(&LockToken(text(alloc)?)),
        can_be_cloned(&XLitmus(text(alloc)?)),
        can_be_cloned(&Destination(text(alloc)?)),
    ])
}

fn lists(alloc: Global) -> Result<[bool; 5], Fail> {
    let seconds = vec![in alloc; DavTimeout::Infinite, DavTimeout::Seconds(7)]?;
    let tags = ETagList::Tags(vec![in alloc; tag(alloc)?]?);
    Ok([
        can_be_cloned(&Timeout(seconds)),
        can_be_cloned(&ContentLanguage::from_str(alloc, "en,de-DE")?),
        can_be_cloned(&IfMatch(tags)),
        can_be_cloned(&IfNoneMatch(ETagList::Star)),
        can_be_cloned(&IfRange::ETag(tag(alloc)?)),
    ])
}

fn condition(item: IfItem) -> IfCondition {
    IfCondition { not: true, item }
}

fn list(alloc: Global) -> Result<IfList, Fail> {
    let first = condition(IfItem::StateToken(text(alloc)?));
    let second = condition(IfItem::ETag(tag(alloc)?));
    Ok(IfList {
        resource_tag: None,
        conditions: vec![in alloc; first, second]?,
    })
}

// The clone of a value has clones of all its parts.
#[test]
fn values_can_be_cloned(rt: HostRuntime) -> Result<(), Fail> {
    let alloc = rt.alloc();
    assert!(rt; texts(alloc)? == [true; 5]);
    assert!(rt; lists(alloc)? == [true; 5]);
    assert!(rt; can_be_cloned(&If(vec![in alloc; list(alloc)?]?)));
    Ok(())
}

// The entries of a folder with one file.
fn entries(alloc: Global) -> Result<Vec<MemFsEntry>, Fail> {
    let mut files = MemFs::new(alloc, Moment(1))?;
    files.put(&DavPath::new(alloc, "/a b")?, b"abc", Moment(2))?;
    Ok(files.read_dir(&DavPath::new(alloc, "/")?, ReadDirMeta::Data)?)
}

// Whether the clone of an entry has its name and says the same of it.
fn is_alike(entry: &MemFsEntry) -> Result<bool, Fail> {
    let copy = entry.clone()?;
    Ok(copy.name() == b"a b".as_slice() && copy.metadata()? == entry.metadata()?)
}

#[test]
fn entries_are_cloned(rt: HostRuntime) -> Result<(), Fail> {
    let entries = entries(rt.alloc())?;
    assert!(rt; entries.len() == 1);
    for entry in &entries {
        assert!(rt; is_alike(entry)?);
    }
    Ok(())
}

#[test]
fn options_are_cloned(rt: HostRuntime) -> Result<(), Fail> {
    let mut options = OpenOptions::default();
    assert!(rt; options == OpenOptions::new());
    options.append = true;
    options.size = Some(7);
    options.checksum = Some(String::from_str(rt.alloc(), "SHA-1:7")?);
    let copy = options.clone()?;
    assert!(rt; copy == options);
    assert!(rt; copy.append && copy.size == Some(7) && copy.checksum.is_some());
    Ok(())
}
