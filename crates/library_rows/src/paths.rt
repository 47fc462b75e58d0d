//! Paths that are carried from one folder to another.
use crate::words::{first_word, row_of};
use dav_path_core::davpath::DavPath;
use std::alloc::Global;
use std::test::Fail;

/// A path, its prefix, two folders, and the bytes behind the prefix of the path that stands to the second folder as the
/// path to the first.
const REBASED: &str = "\
/a/b / /a /c = /c/b
/a/b/ / /a /c = /c/b/
/a/b/c / /a/ /c/ = /c/b/c
/a / /a /c = /c
/a/ / /a /c = /c/
/a / /a/ /c/ = /c
/a/b / /a / = /b
/a / /a / = /
/a/ / /a / = /
/ / / /c = /c/
/b / / /c/d = /c/d/b
/a/b / /a /a/b = /a/b/b
/a/b/c / /a/b /a = /a/c
/a/%2541 / /a /c%2542 = /c%42/%41
/ab / /a /c = none
/c / /a /c = none
/ / /a /c = none
/p/a/b /p /a /c = /c/b
/p/a/b/ /p/ /a /x/y/ = /x/y/b/
/p/a/b /p /p/a /c = none";

fn path_of(alloc: Global, text: &str) -> Result<DavPath, Fail> {
    Ok(DavPath::new(alloc, text)?)
}

fn prefixed(alloc: Global, text: &str, prefix: &str) -> Result<DavPath, Fail> {
    let mut path = path_of(alloc, text)?;
    path.set_prefix(prefix)?;
    Ok(path)
}

// Whether a path is carried along to a path of these bytes with the same prefix, or nowhere.
fn is_rebased(path: &DavPath, from: &DavPath, to: &DavPath, wanted: &str) -> Result<bool, Fail> {
    match path.rebased(from.behind_prefix(), to.behind_prefix())? {
        Some(moved) => {
            Ok(moved.as_bytes() == wanted.as_bytes() && moved.prefix() == path.prefix())
        }
        None => Ok(wanted == "none"),
    }
}

fn is_carried(alloc: Global, asked: &str, wanted: &str) -> Result<bool, Fail> {
    let (text, rest) = first_word(asked);
    let (prefix, rest) = first_word(rest);
    let (from, to) = first_word(rest);
    let path = prefixed(alloc, text, prefix)?;
    let (from, to) = (path_of(alloc, from)?, path_of(alloc, to)?);
    is_rebased(&path, &from, &to, wanted)
}

#[test]
fn carries_paths_along(rt: HostRuntime) -> Result<(), Fail> {
    for row in REBASED.split('\n') {
        let (asked, wanted) = row_of(row)?;
        assert!(rt; is_carried(rt.alloc(), asked, wanted)?, "{row}");
    }
    Ok(())
}
