//! Properties: many in one patch, one after another, told with their xml; and one that is made of texts.
use dav_files_core::fs::{DavFileSystem, DavProp, Moment};
use dav_files_core::memfs::MemFs;
use dav_path_core::davpath::DavPath;
use dav_path_core::errors::FsResult;
use http::StatusCode;
use std::alloc::{AllocError, Global};
use std::test::Fail;

const MANY: u64 = 50;

// A property whose name and xml are a number of two digits.
fn property(alloc: Global, number: u64) -> Result<DavProp, AllocError> {
    let name = format!(in alloc; "{number:02}")?;
    let xml = name.as_bytes().to_vec(alloc)?;
    Ok(DavProp {
        name,
        prefix: None,
        namespace: None,
        xml: Some(xml),
    })
}

// Properties are set from the last to the first, and then the first is removed: no namespace is the empty one.
fn patch(alloc: Global) -> Result<Vec<(bool, DavProp)>, AllocError> {
    let mut patch = Vec::new(alloc);
    for number in (0..MANY).rev() {
        patch.push((true, property(alloc, number)?))?;
    }
    let mut first = property(alloc, 0)?;
    first.namespace = Some(String::new(alloc));
    patch.push((false, first))?;
    Ok(patch)
}

fn patched(
    files: &mut MemFs,
    path: &DavPath,
    patch: Vec<(bool, DavProp)>,
) -> FsResult<Vec<(StatusCode, DavProp)>> {
    files.patch_props(path, patch)
}

fn listed(files: &MemFs, path: &DavPath) -> FsResult<Vec<DavProp>> {
    files.get_props(path, true)
}

// Whether as many answers say that all was done.
fn are_done(answers: &[(StatusCode, DavProp)]) -> bool {
    for (status, prop) in answers {
        if *status != StatusCode::OK || prop.xml.is_some() {
            return false;
        }
    }
    answers.len() as u64 == MANY + 1
}

// Whether those from the second to the last stand there.
fn stand(alloc: Global, props: &[DavProp]) -> Result<bool, Fail> {
    let mut number = 0u64;
    for prop in props {
        number = number.saturating_add(1);
        let wanted = property(alloc, number)?;
        if prop.name != wanted.name || prop.xml != wanted.xml {
            return Ok(false);
        }
    }
    Ok(number == MANY - 1)
}

#[test]
fn patches_many_properties(rt: HostRuntime) -> Result<(), Fail> {
    let alloc = rt.alloc();
    let mut files = MemFs::new(alloc, Moment(1))?;
    let root = DavPath::new(alloc, "/")?;
    let answers = patched(&mut files, &root, patch(alloc)?)?;
    assert!(rt; are_done(&answers));
    assert!(rt; stand(alloc, &listed(&files, &root)?)?);
    Ok(())
}

#[test]
fn makes_properties_of_texts(rt: HostRuntime) -> Result<(), Fail> {
    let prop = DavProp::new(rt.alloc(), "name", "D", "DAV:", "v")?;
    let xml = prop.xml.ok_or("no xml")?;
    assert!(rt; xml.as_slice() == b"<D:name xmlns:D=\"DAV:\">v</D:name>".as_slice());
    Ok(())
}
