//! How a URL path is read: cut before the query, split, decoded and resolved.
ghost use Rattle.std.specs.Prelude.{◌≡◌, ◌⊎◌, ◌↔◌, ◌∷◌, ◌++◌, ℕ, List, Contains, IsTrue, IfOk, IfErr, OnOk};
ghost use Rattle.std.specs.Cow.{cow_slice_items};
ghost use Rattle.percent_encoding.specs.Percent.{percent_decode as decoded_bytes_of};
ghost use Rattle.dav_path_core.specs.PathReading.{is_idle, is_up, CanBeSegment, IsForeign, IsTarget, raw, path_of, decoded_pieces};
ghost use Rattle.dav_path_core.specs.Fault.{FirstFault};
ghost use Rattle.dav_path_core.specs.Private.Keeping.{behind_slashes, Spells, TakesPiece, RefusesPiece, ComesDown};

use super::ParseError;
use percent_encoding::percent_decode;
use std::alloc::{AllocError, Global};
use std::borrow::CowSlice;

/// The path before the query, if the text is printable, has no fragment before it and begins with a slash.
pub(super) fn raw_path(text: &[u8]) -> Result<&[u8], ParseError>
    ensures ok { IfOk result (λ r. IsTarget text.now × (r.now ≡ raw text.now)) }
    ensures err { IfErr result (λ e. (e ≡ ParseError.InvalidPath) × ¬ IsTarget text.now) }
{
    if !text.iter().all(|b| (b' '..=b'~').contains(b)) {
        return Err(ParseError::InvalidPath);
    }
    let raw = before_query(text);
    if raw.contains(&b'#') || !raw.starts_with(b"/") {
        return Err(ParseError::InvalidPath);
    }
    Ok(raw)
}

// What stands before the first `?`.
fn before_query(text: &[u8]) -> &[u8]
    ensures { result.now ≡ raw text.now }
{
    let end = text.iter().position(|b| *b == b'?').unwrap_or(text.len());
    &text[..end]
}

// A piece with its escapes decoded (RFC 3986 section 2.1); a `%` without two hexadecimal digits stays. A piece
// without escapes is lent as it stands.
fn decoded<'a>(alloc: Global, piece: &'a [u8]) -> Result<CowSlice<'a, u8, Global>, AllocError>
    ensures { IfOk result (λ v. cow_slice_items v ≡ decoded_bytes_of piece.now) }
{
    percent_decode(piece).into_cow(alloc)
}

// Empty or `.`.
fn is_idle_piece(piece: &[u8]) -> bool
    ensures { result ≡ is_idle piece.now }
{
    piece.is_empty() || piece == b".".as_slice()
}

// `..`.
fn is_up_piece(piece: &[u8]) -> bool
    ensures { result ≡ is_up piece.now }
{
    piece == b"..".as_slice()
}

// Holds byte 0 or `/`.
fn is_foreign_piece(piece: &[u8]) -> bool
    ensures { IsTrue result ↔ IsForeign piece.now }
{
    piece.contains(&0) || piece.contains(&b'/')
}

/// Whether a segment can have this name: not empty, not `.` nor `..`, without byte 0 and `/`.
pub(super) fn can_be_segment(name: &[u8]) -> bool
    ensures { IsTrue result ↔ CanBeSegment name.now }
{
    !is_idle_piece(name) && !is_up_piece(name) && !is_foreign_piece(name)
}

// Takes the last piece away, with the slash before it.
fn drop_last(path: &mut Vec<u8>) -> Result<(), ParseError>
    ensures ok { OnOk result ((last : List ℕ)
        × (path.old.items ≡ path.new.items ++ 47 ∷ last) × (¬ Contains last 47)) }
    ensures err { IfErr result (λ e. (e ≡ ParseError.ForbiddenPath) × (¬ Contains path.old.items 47)) }
{
    while let Some(byte) = path.pop() {
        if byte == b'/' {
            return Ok(());
        }
    }
    Err(ParseError::ForbiddenPath)
}

// Takes one piece more: drops it, drops the last one kept, or keeps it.
fn take_piece(path: &mut Vec<u8>, piece: &[u8]) -> Result<(), ParseError>
    ensures ok { OnOk result ((kept : List (List ℕ)) → Spells kept path.old.items
        → (new : List (List ℕ)) × TakesPiece kept piece.now new × Spells new path.new.items) }
    ensures clean { OnOk result (¬ IsForeign piece.now) }
    ensures err { IfErr result (λ e. (e ≡ ParseError.OutOfMemory)
        ⊎ ((kept : List (List ℕ)) → Spells kept path.old.items → RefusesPiece kept piece.now e)) }
{
    if is_foreign_piece(piece) {
        return Err(ParseError::InvalidPath);
    }
    if is_idle_piece(piece) {
        return Ok(());
    }
    if is_up_piece(piece) {
        return drop_last(path);
    }
    path.push(b'/')?;
    path.extend_from_slice(piece)?;
    Ok(())
}

/// The path of the pieces that are kept, decoded, each behind a slash: in the end ordinary ones alone.
pub(super) fn kept_pieces(alloc: Global, raw: &[u8]) -> Result<Vec<u8>, ParseError>
    ensures ok { IfOk result (λ path. (kept : List (List ℕ))
        × ComesDown (decoded_pieces raw.now) kept × (path.items ≡ behind_slashes kept)) }
    ensures err { IfErr result (λ e. (e ≡ ParseError.OutOfMemory) ⊎ FirstFault (decoded_pieces raw.now) e) }
{
    let mut path = Vec::new(alloc);
    for piece in raw.split(|b| *b == b'/') {
        take_piece(&mut path, &decoded(alloc, piece)?)?;
    }
    Ok(path)
}

/// Puts a slash at the end of the path of the kept pieces where `slash` is set or none is kept.
pub(super) fn end_in_slash(path: &mut Vec<u8>, slash: bool) -> Result<(), AllocError>
    ensures { OnOk result ((kept : List (List ℕ)) → path.old.items ≡ behind_slashes kept
        → path.new.items ≡ path_of kept slash) }
{
    if slash || path.is_empty() {
        path.push(b'/')?;
    }
    Ok(())
}
