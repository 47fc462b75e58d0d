//! The names that errors display as.
use dav_headers_core::davheaders::HeaderError;
use dav_locks_core::ls::{LockError, NoLock, RefreshError};
use dav_path_core::davpath::ParseError;
use dav_path_core::errors::{DavError, FsError};
use dav_path_core::util::InvalidMethod;
use http::StatusCode;
use std::alloc::Global;
use std::fmt::Display;
use std::io::ErrorKind;
use std::process::Abort;
use std::test::Fail;

const FS_NAMES: [(FsError, &str); 10] = [
    (FsError::NotImplemented, "NotImplemented"),
    (FsError::GeneralFailure, "GeneralFailure"),
    (FsError::Exists, "Exists"),
    (FsError::NotFound, "NotFound"),
    (FsError::Forbidden, "Forbidden"),
    (FsError::InsufficientStorage, "InsufficientStorage"),
    (FsError::LoopDetected, "LoopDetected"),
    (FsError::PathTooLong, "PathTooLong"),
    (FsError::TooLarge, "TooLarge"),
    (FsError::IsRemote, "IsRemote"),
];

const DAV_NAMES: [(DavError, &str); 14] = [
    (DavError::XmlReadError, "XmlReadError"),
    (DavError::XmlParseError, "XmlParseError"),
    (DavError::InvalidPath, "InvalidPath"),
    (DavError::IllegalPath, "IllegalPath"),
    (DavError::ForbiddenPath, "ForbiddenPath"),
    (DavError::UnknownDavMethod, "UnknownDavMethod"),
    (DavError::ChanError, "ChanError"),
    (DavError::Utf8Error, "Utf8Error"),
    (DavError::Status(StatusCode::NOT_FOUND), "Status(404)"),
    (
        DavError::StatusClose(StatusCode::CONFLICT),
        "StatusClose(409)",
    ),
    (DavError::FsError(FsError::NotFound), "FsError(NotFound)"),
    (DavError::IoError(ErrorKind::AlreadyExists), "I/O error"),
    (DavError::XmlReaderError, "XML parse error"),
    (DavError::XmlWriterError, "XML generate error"),
];

const PATH_NAMES: [(ParseError, &str); 4] = [
    (ParseError::InvalidPath, "InvalidPath"),
    (ParseError::PrefixMismatch, "PrefixMismatch"),
    (ParseError::ForbiddenPath, "ForbiddenPath"),
    (ParseError::OutOfMemory, "OutOfMemory"),
];

const HEADER_NAMES: [(HeaderError, &str); 2] = [
    (HeaderError::Invalid, "Invalid"),
    (HeaderError::OutOfMemory, "OutOfMemory"),
];

const REFRESH_NAMES: [(RefreshError, &str); 2] = [
    (RefreshError::NoLock, "NoLock"),
    (RefreshError::OutOfMemory, "OutOfMemory"),
];

fn displays<E: Display>(rt: &impl Abort, alloc: Global, rows: &[(E, &str)]) -> Result<(), Fail> {
    for (error, name) in rows {
        let text = format!(in alloc; "{error}")?;
        assert!(rt; text.as_str() == *name, "{name}");
    }
    Ok(())
}

#[test]
fn displays_every_case(rt: HostRuntime) -> Result<(), Fail> {
    let alloc = rt.alloc();
    displays(&rt, alloc, &FS_NAMES)?;
    displays(&rt, alloc, &DAV_NAMES)?;
    displays(&rt, alloc, &PATH_NAMES)?;
    displays(&rt, alloc, &HEADER_NAMES)?;
    displays(&rt, alloc, &REFRESH_NAMES)?;
    displays(&rt, alloc, &[(InvalidMethod, "InvalidMethod")])?;
    displays(&rt, alloc, &[(NoLock, "NoLock")])?;
    displays(&rt, alloc, &[(LockError::OutOfMemory, "OutOfMemory")])
}
