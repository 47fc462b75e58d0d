//! Paths: read, with prefixes set, and shown in all their forms.
use crate::equality::compared;
use crate::refusals::Refusal;
use crate::words::{Word, bytes_of, escaped, kept_bytes_of, text_of};
use dav_path_core::davpath::{DavPath, ParseError, Segments};
use http_uri::{Uri, UriError};
use std::alloc::{AllocError, Global};
use std::fmt::Display;

/// What a URL path says once the prefixes are set, one after another.
pub fn path(alloc: Global, word: &[u8], prefixes: &[&[u8]]) -> Result<String, Refusal> {
    shown(alloc, read(alloc, word)?, prefixes)
}

/// What a request target says once the prefixes are set, one after another.
pub fn target(alloc: Global, word: &[u8], prefixes: &[&[u8]]) -> Result<String, Refusal> {
    let uri = match Uri::from_bytes(alloc, &kept_bytes_of(alloc, word)?) {
        Ok(uri) => uri,
        Err(UriError::Invalid(_)) => return Err(Refusal::Target),
        Err(UriError::OutOfMemory) => return Err(Refusal::OutOfMemory(AllocError)),
    };
    shown(alloc, DavPath::from_uri(alloc, &uri)?, prefixes)
}

/// Whether two URL paths are equal once the first has these prefixes set, one after another.
pub fn same(
    alloc: Global,
    word: &[u8],
    other: &[u8],
    prefixes: &[&[u8]],
) -> Result<String, Refusal> {
    let mut path = read(alloc, word)?;
    let other = read(alloc, other)?;
    set_all(alloc, &mut path, prefixes)?;
    compared(alloc, path == other)
}

fn set_all(alloc: Global, path: &mut DavPath, prefixes: &[&[u8]]) -> Result<(), Refusal> {
    for prefix in prefixes {
        path.set_prefix(&text_of(bytes_of(alloc, prefix)?)?)?;
    }
    Ok(())
}

fn read(alloc: Global, word: &[u8]) -> Result<DavPath, Refusal> {
    let text = text_of(kept_bytes_of(alloc, word)?)?;
    Ok(DavPath::new(alloc, &text)?)
}

fn shown(alloc: Global, mut path: DavPath, prefixes: &[&[u8]]) -> Result<String, Refusal> {
    let mut pieces = Pieces(String::new(alloc));
    add_set(alloc, &mut pieces, &mut path, prefixes)?;
    add_path(alloc, &mut pieces, &path)?;
    Ok(pieces.0)
}

fn add_set(
    alloc: Global,
    pieces: &mut Pieces,
    path: &mut DavPath,
    prefixes: &[&[u8]],
) -> Result<(), Refusal> {
    for prefix in prefixes {
        match path.set_prefix(&text_of(bytes_of(alloc, prefix)?)?) {
            Ok(()) => pieces.add("set", "ok")?,
            Err(ParseError::OutOfMemory) => return Err(Refusal::OutOfMemory(AllocError)),
            Err(error) => pieces.add("set", error)?,
        }
    }
    Ok(())
}

fn add_path(alloc: Global, pieces: &mut Pieces, path: &DavPath) -> Result<(), Refusal> {
    add_bytes(alloc, pieces, path)?;
    add_texts(alloc, pieces, path)?;
    add_parents(pieces, path)?;
    add_whole(alloc, pieces, path)
}

fn add_bytes(alloc: Global, pieces: &mut Pieces, path: &DavPath) -> Result<(), AllocError> {
    pieces.add("bytes", Word(path.as_bytes()))?;
    pieces.add("prefix", Word(path.prefix().as_bytes()))?;
    pieces.add_segments(alloc, path.segments())?;
    pieces.add("collection", path.is_collection())?;
    pieces.add("file_name_bytes", Word(path.file_name_bytes()))?;
    pieces.add_text("file_name", path.file_name())
}

fn add_texts(alloc: Global, pieces: &mut Pieces, path: &DavPath) -> Result<(), Refusal> {
    pieces.add("url", path.as_url_string(alloc)?)?;
    let pathbuf = path.as_pathbuf(alloc)?;
    pieces.add_text("pathbuf", pathbuf.as_deref())?;
    pieces.add_text("rel_ospath", path.as_rel_ospath())?;
    let display = path.to_string(alloc)?;
    pieces.add("display", Word(display.as_bytes()))?;
    pieces.add("debug", format_args!("{path:?}"))?;
    Ok(())
}

fn add_parents(pieces: &mut Pieces, path: &DavPath) -> Result<(), Refusal> {
    let parent = path.parent()?;
    pieces.add("parent", Word(parent.as_bytes()))?;
    pieces.add("parent_prefix", Word(parent.prefix().as_bytes()))?;
    pieces.add("parent_whole", Word(parent.with_prefix().as_bytes()))?;
    Ok(())
}

fn add_whole(alloc: Global, pieces: &mut Pieces, path: &DavPath) -> Result<(), Refusal> {
    let whole = path.with_prefix();
    pieces.add("whole", Word(whole.as_bytes()))?;
    pieces.add("whole_url", whole.as_url_string(alloc)?)?;
    let pathbuf = whole.as_pathbuf(alloc)?;
    pieces.add_text("whole_pathbuf", pathbuf.as_deref())?;
    pieces.add("whole_parent", Word(whole.parent().as_bytes()))?;
    Ok(())
}

/// Pieces `KEY=VALUE` with a space between.
#[derive(Drop)]
struct Pieces(String);

impl Pieces {
    fn add<D: Display + Drop>(&mut self, key: &str, value: D) -> Result<(), AllocError> {
        self.separate()?;
        write!(self.0, "{key}={value}")
    }

    // `no_KEY` where there is no text.
    fn add_text(&mut self, key: &str, text: Option<&str>) -> Result<(), AllocError> {
        match text {
            Some(text) => self.add(key, Word(text.as_bytes())),
            None => self.add_none(key),
        }
    }

    // The segments with a slash between, `no_segments` where there are none.
    fn add_segments(&mut self, alloc: Global, segments: Segments<'_>) -> Result<(), AllocError> {
        let mut text = String::new(alloc);
        for segment in segments {
            if !text.is_empty() {
                text.push_str("/")?;
            }
            write!(text, "{}", escaped(segment))?;
        }
        if text.is_empty() {
            self.add_none("segments")
        } else {
            self.add("segments", text)
        }
    }

    fn add_none(&mut self, key: &str) -> Result<(), AllocError> {
        self.separate()?;
        write!(self.0, "no_{key}")
    }

    fn separate(&mut self) -> Result<(), AllocError> {
        if self.0.is_empty() {
            return Ok(());
        }
        self.0.push_str(" ")
    }
}
