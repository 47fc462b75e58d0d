//! The page of a folder: a list of links to its members.
ghost use Rattle.std.specs.Prelude.{◌≡◌, ◌++◌, IfOk, OnOk, flat_map, map, string_bytes};
ghost use Rattle.dav_path_core.specs.PathText.{full};
ghost use Rattle.dav_path_core.specs.Url.{url};
ghost use Rattle.dav_files_core.specs.Listing.{listed_entry};
ghost use Rattle.dav_safe_methods_core.specs.FolderPages as spec;

use dav_guarded_core::davpath::{DavPath, escaped};
use dav_guarded_core::fs::DavDirEntry;
use dav_guarded_core::memfs::MemFsEntry;
use std::alloc::{AllocError, Global};

/// An HTML page with a link to each member of a folder, in order. Names are escaped in links and in
/// texts.
pub fn page_of(alloc: Global, path: &DavPath, entries: &[MemFsEntry]) -> Result<Vec<u8>, AllocError>
    ensures { IfOk result (λ page. page.items
        ≡ spec.page path.now (map listed_entry entries.now)) }
{
    let title = shown(alloc, path.with_prefix().as_bytes())?;
    let folder = url_text(alloc, path.with_prefix().as_bytes())?;
    let mut page = Vec::new(alloc);
    page.extend_from_slice(START)?;
    page.extend_from_slice(&title)?;
    page.extend_from_slice(MIDDLE)?;
    page.extend_from_slice(&title)?;
    page.extend_from_slice(LIST)?;
    push_links(
        alloc,
        &mut page,
        folder.as_bytes(),
        slash_behind(path),
        entries,
    )?;
    page.extend_from_slice(END)?;
    Ok(page)
}

const START: &[u8] = b"<!DOCTYPE html>\n<html><head><meta charset=\"utf-8\"><title>";

const MIDDLE: &[u8] = b"</title></head><body><h1>";

const LIST: &[u8] = b"</h1><ul>\n";

const END: &[u8] = b"</ul></body></html>\n";

// What stands between a folder's path and a name.
fn slash_behind(path: &DavPath) -> &'static [u8]
    ensures { result.now ≡ spec.slash_between path.now }
{
    if path.is_collection() { b"" } else { b"/" }
}

// The lines of the list.
fn push_links(
    alloc: Global,
    page: &mut Vec<u8>,
    folder: &[u8],
    slash: &[u8],
    entries: &[MemFsEntry],
) -> Result<(), AllocError>
    ensures { OnOk result (page.new.items ≡ page.old.items
        ++ flat_map (spec.link folder.now slash.now) (map listed_entry entries.now)) }
{
    for entry in entries {
        push_link(alloc, page, folder, slash, entry)?;
    }
    Ok(())
}

// One of them. A folder's link ends in a slash.
fn push_link(
    alloc: Global,
    page: &mut Vec<u8>,
    folder: &[u8],
    slash: &[u8],
    entry: &MemFsEntry,
) -> Result<(), AllocError>
    ensures { OnOk result (page.new.items ≡ page.old.items
        ++ spec.link folder.now slash.now (listed_entry entry.now)) }
{
    let name = url_text(alloc, entry.name())?;
    let text = shown(alloc, entry.name())?;
    let end = end_of(entry);
    page.extend_from_slice(b"<li><a href=\"")?;
    page.extend_from_slice(folder)?;
    page.extend_from_slice(slash)?;
    page.extend_from_slice(name.as_bytes())?;
    page.extend_from_slice(end)?;
    page.extend_from_slice(b"\">")?;
    page.extend_from_slice(&text)?;
    page.extend_from_slice(end)?;
    page.extend_from_slice(b"</a></li>\n")?;
    Ok(())
}

fn end_of(entry: &MemFsEntry) -> &'static [u8]
    ensures { result.now ≡ spec.name_end entry.now.meta.kind }
{
    if entry.is_dir().unwrap_or(false) {
        b"/"
    } else {
        b""
    }
}

// Bytes as a URL writes them.
fn url_text(alloc: Global, bytes: &[u8]) -> Result<String, AllocError>
    ensures { IfOk result (λ text. string_bytes text ≡ url bytes.now) }
{
    let mut text = String::new(alloc);
    escaped(bytes).append_to(&mut text)?;
    Ok(text)
}

// Bytes as a text of HTML; bytes that are no UTF-8 as a URL writes them.
fn shown(alloc: Global, bytes: &[u8]) -> Result<Vec<u8>, AllocError>
    ensures { IfOk result (λ text. text.items ≡ spec.page_text bytes.now) }
{
    match str::from_utf8(bytes) {
        Ok(_) => escaped_text(alloc, bytes),
        Err(_) => Ok(url_text(alloc, bytes)?.into_bytes()),
    }
}

fn escaped_text(alloc: Global, bytes: &[u8]) -> Result<Vec<u8>, AllocError>
    ensures { IfOk result (λ text. text.items ≡ flat_map spec.html_character bytes.now) }
{
    let mut text = Vec::new(alloc);
    push_escaped(&mut text, bytes)?;
    Ok(text)
}

// A text of HTML, in which no character means more than itself.
fn push_escaped(out: &mut Vec<u8>, text: &[u8]) -> Result<(), AllocError>
    ensures { OnOk result (out.new.items ≡ out.old.items ++ flat_map spec.html_character text.now) }
{
    for b in text {
        push_byte(out, *b)?;
    }
    Ok(())
}

fn push_byte(out: &mut Vec<u8>, b: u8) -> Result<(), AllocError>
    ensures { OnOk result (out.new.items ≡ out.old.items ++ spec.html_character b) }
{
    match b {
        b'&' => out.extend_from_slice(b"&amp;"),
        b'<' => out.extend_from_slice(b"&lt;"),
        b'>' => out.extend_from_slice(b"&gt;"),
        b'"' => out.extend_from_slice(b"&quot;"),
        _ => Ok(out.push(b)?),
    }
}
