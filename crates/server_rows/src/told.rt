//! All that stands in stores, as text: a line for the next number, for each entry, for each of its properties, and for each lock.
use dav_files_core::fs::DavProp;
use dav_files_core::memfs::MemFsStored;
use dav_locks_core::ls::DavLock;
use dav_resource_core::guarded::Guarded;
use std::alloc::Global;
use std::test::Fail;

pub(crate) fn told(alloc: Global, stores: &Guarded) -> Result<String, Fail> {
    let next = stores.next_number();
    let mut text = format!(in alloc; "next {next}\n")?;
    for stored in stores.walk() {
        tell_entry(alloc, &mut text, &stored)?;
    }
    for lock in stores.locks() {
        tell_lock(alloc, &mut text, lock)?;
    }
    Ok(text)
}

fn tell_entry(alloc: Global, text: &mut String, stored: &MemFsStored<'_>) -> Result<(), Fail> {
    let number = stored.number();
    let folder = stored.folder();
    let meta = stored.meta();
    let name = String::from_utf8_lossy(alloc, stored.name())?;
    let bytes = String::from_utf8_lossy(alloc, stored.bytes())?;
    let line = format!(in alloc; "{number} {folder:?} {name:?} {bytes:?} {meta:?}\n")?;
    text.push_str(line.as_str())?;
    for prop in stored.props() {
        tell_prop(alloc, text, prop)?;
    }
    Ok(())
}

fn tell_prop(alloc: Global, text: &mut String, prop: &DavProp) -> Result<(), Fail> {
    let line = format!(in alloc; "{prop:?}\n")?;
    text.push_str(line.as_str())?;
    Ok(())
}

fn tell_lock(alloc: Global, text: &mut String, lock: &DavLock) -> Result<(), Fail> {
    let line = format!(in alloc; "{lock:?}\n")?;
    text.push_str(line.as_str())?;
    Ok(())
}
