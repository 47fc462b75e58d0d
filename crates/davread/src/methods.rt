//! Methods by their words, and sets of them.
use crate::refusals::Refusal;
use crate::words::{bytes_of, text_of};
use dav_path_core::util::{DavMethod, DavMethodSet, InvalidMethod};
use http::Method;
use http::method::MethodError;
use std::alloc::{AllocError, Global};

/// The methods, in the order of their bits.
const METHODS: [(DavMethod, &str); 16] = [
    (DavMethod::Head, "HEAD"),
    (DavMethod::Get, "GET"),
    (DavMethod::Put, "PUT"),
    (DavMethod::Patch, "PATCH"),
    (DavMethod::Options, "OPTIONS"),
    (DavMethod::PropFind, "PROPFIND"),
    (DavMethod::PropPatch, "PROPPATCH"),
    (DavMethod::MkCol, "MKCOL"),
    (DavMethod::Copy, "COPY"),
    (DavMethod::Move, "MOVE"),
    (DavMethod::Delete, "DELETE"),
    (DavMethod::Lock, "LOCK"),
    (DavMethod::Unlock, "UNLOCK"),
    (DavMethod::Report, "REPORT"),
    (DavMethod::MkCalendar, "MKCALENDAR"),
    (DavMethod::MkAddressbook, "MKADDRESSBOOK"),
];

/// The method of a word, with its bit.
pub fn method(alloc: Global, word: &[u8]) -> Result<String, Refusal> {
    let method = match Method::from_bytes(alloc, &bytes_of(alloc, word)?) {
        Ok(method) => method,
        Err(MethodError::Invalid) => return Err(Refusal::Method(InvalidMethod)),
        Err(MethodError::OutOfMemory) => return Err(Refusal::OutOfMemory(AllocError)),
    };
    let method = DavMethod::try_from(&method)?;
    Ok(format!(in alloc; "{method:?} 0x{:x}", method as u32)?)
}

/// The words of the methods in the set of these words, or `none`.
pub fn methods(alloc: Global, words: &[&[u8]]) -> Result<String, Refusal> {
    let set = set_of(alloc, words)?;
    let mut found = Vec::new(alloc);
    for (method, word) in METHODS {
        if set.contains(method) {
            found.push(word)?;
        }
    }
    if found.is_empty() {
        return Ok(String::from_str(alloc, "none")?);
    }
    Ok(found.join(alloc, " ")?)
}

fn set_of(alloc: Global, words: &[&[u8]]) -> Result<DavMethodSet, Refusal> {
    let mut texts = Vec::new(alloc);
    for word in words {
        texts.push(text_of(bytes_of(alloc, word)?)?)?;
    }
    let mut names = Vec::new(alloc);
    for text in &texts {
        names.push(text.as_str())?;
    }
    Ok(DavMethodSet::from_vec(&names)?)
}
