//! The errors of calls on files, and those of requests.
ghost use Rattle.std.specs.Prelude.{◌≡◌};
ghost use Rattle.dav_path_core.specs.Errors.{fs_status, fs_kind};
ghost use Rattle.dav_path_core.specs.OsErrors.{error_of_os};
ghost use Rattle.dav_path_core.specs.DavErrors.{dav_status, dav_kind, closes_connection};

use crate::davpath::ParseError;
use http::StatusCode;
use std::alloc::{AllocError, AllocFailed, Allocator};
use std::io::ErrorKind;
use std::str::Utf8Error;
use std::string::FromUtf8Error;
use thiserror::Error;

/// Why a call on files is refused. It displays as the case's name (own).
#[derive(Debug, Drop, Error, Clone, Copy, PartialEq, Eq)]
pub enum FsError {
    /// The call isn't offered.
    #[error("NotImplemented")]
    NotImplemented,
    /// Something failed that has no case of its own.
    #[error("GeneralFailure")]
    GeneralFailure,
    /// Something stands there already.
    #[error("Exists")]
    Exists,
    /// Nothing stands there.
    #[error("NotFound")]
    NotFound,
    /// What stands there doesn't allow it.
    #[error("Forbidden")]
    Forbidden,
    /// There is no room, also where it is out of memory.
    #[error("InsufficientStorage")]
    InsufficientStorage,
    /// Links lead in a circle.
    #[error("LoopDetected")]
    LoopDetected,
    /// The path is too long.
    #[error("PathTooLong")]
    PathTooLong,
    /// The bytes are too many.
    #[error("TooLarge")]
    TooLarge,
    /// It stands on another device.
    #[error("IsRemote")]
    IsRemote,
}

/// What a call on files answers.
pub type FsResult<T> = Result<T, FsError>;

impl FsError {
    /// The error that stands for one of the operating system: by its Linux number, for any other number by its kind.
    /// `NotImplemented` without a number.
    pub fn from_os(number: Option<i32>, kind: ErrorKind) -> FsError
        ensures { result ≡ error_of_os number kind }
    {
        let Some(number) = number else {
            return FsError::NotImplemented;
        };
        match number {
            28 | 31 | 122 => FsError::InsufficientStorage,
            27 => FsError::TooLarge,
            1 | 13 | 20 | 21 | 30 => FsError::Forbidden,
            17 | 39 => FsError::Exists,
            40 => FsError::LoopDetected,
            36 => FsError::PathTooLong,
            2 => FsError::NotFound,
            38 => FsError::NotImplemented,
            18 => FsError::IsRemote,
            _ => match kind {
                ErrorKind::NotFound => FsError::NotFound,
                ErrorKind::PermissionDenied => FsError::Forbidden,
                _ => FsError::GeneralFailure,
            },
        }
    }

    /// The kind of an error of reading and writing that stands for it.
    pub fn io_kind(self) -> ErrorKind
        ensures { result ≡ fs_kind self }
    {
        match self {
            FsError::Exists => ErrorKind::AlreadyExists,
            FsError::NotFound => ErrorKind::NotFound,
            FsError::Forbidden => ErrorKind::PermissionDenied,
            FsError::NotImplemented
            | FsError::GeneralFailure
            | FsError::InsufficientStorage
            | FsError::LoopDetected
            | FsError::PathTooLong
            | FsError::TooLarge
            | FsError::IsRemote => ErrorKind::Other,
        }
    }

    /// The status of a reply with this error (RFC 4918 section 11, RFC 9110 section 15).
    pub fn status(self) -> StatusCode
        ensures { result ≡ fs_status self }
    {
        match self {
            FsError::NotImplemented => StatusCode::NOT_IMPLEMENTED,
            FsError::GeneralFailure => StatusCode::INTERNAL_SERVER_ERROR,
            FsError::Exists => StatusCode::METHOD_NOT_ALLOWED,
            FsError::NotFound => StatusCode::NOT_FOUND,
            FsError::Forbidden => StatusCode::FORBIDDEN,
            FsError::InsufficientStorage => StatusCode::INSUFFICIENT_STORAGE,
            FsError::LoopDetected => StatusCode::LOOP_DETECTED,
            FsError::PathTooLong => StatusCode::URI_TOO_LONG,
            FsError::TooLarge => StatusCode::PAYLOAD_TOO_LARGE,
            FsError::IsRemote => StatusCode::BAD_GATEWAY,
        }
    }
}

impl From<AllocError> for FsError {
    ghost use Rattle.dav_path_core.specs.declared.errors.FsError.TheVariants.{InsufficientStorage};

    ghost from_gives = { λ _ e. e ≡ InsufficientStorage };

    fn from(_: AllocError) -> Self {
        FsError::InsufficientStorage
    }
}

impl<T: Drop> From<AllocFailed<T>> for FsError {
    ghost use Rattle.dav_path_core.specs.declared.errors.FsError.TheVariants.{InsufficientStorage};

    ghost from_gives = { λ _ e. e ≡ InsufficientStorage };

    fn from(_: AllocFailed<T>) -> Self {
        FsError::InsufficientStorage
    }
}

/// Why a request is refused. It displays as the case's name, with its value if it has one; `IoError` as `I/O error`,
/// `XmlReaderError` as `XML parse error` and `XmlWriterError` as `XML generate error`.
#[derive(Debug, Drop, Error)]
pub enum DavError {
    /// The XML of a request can't be read.
    #[error("XmlReadError")]
    XmlReadError,
    /// The XML of a request has another meaning.
    #[error("XmlParseError")]
    XmlParseError,
    /// A text is no path.
    #[error("InvalidPath")]
    InvalidPath,
    /// A path doesn't lie below the prefix.
    #[error("IllegalPath")]
    IllegalPath,
    /// A path leads out of the root.
    #[error("ForbiddenPath")]
    ForbiddenPath,
    /// The method has no meaning here.
    #[error("UnknownDavMethod")]
    UnknownDavMethod,
    /// A channel is closed.
    #[error("ChanError")]
    ChanError,
    /// Bytes are no UTF-8.
    #[error("Utf8Error")]
    Utf8Error,
    /// Any status, after which the connection can stay.
    #[error("Status({})", .0.as_u16())]
    Status(StatusCode),
    /// Any status, after which the connection is closed.
    #[error("StatusClose({})", .0.as_u16())]
    StatusClose(StatusCode),
    /// A call on files is refused.
    #[error("FsError({0})")]
    FsError(FsError),
    /// Reading or writing failed, with this kind.
    #[error("I/O error")]
    IoError(ErrorKind),
    /// A reader of XML failed.
    #[error("XML parse error")]
    XmlReaderError,
    /// A writer of XML failed.
    #[error("XML generate error")]
    XmlWriterError,
}

impl DavError {
    /// The status of a reply with this error (RFC 4918 section 11, RFC 9110 section 15).
    pub fn statuscode(&self) -> StatusCode
        ensures { result ≡ dav_status self.now }
    {
        match self {
            DavError::XmlReadError
            | DavError::XmlParseError
            | DavError::InvalidPath
            | DavError::XmlReaderError => StatusCode::BAD_REQUEST,
            DavError::IllegalPath => StatusCode::BAD_GATEWAY,
            DavError::ForbiddenPath => StatusCode::FORBIDDEN,
            DavError::UnknownDavMethod => StatusCode::NOT_IMPLEMENTED,
            DavError::ChanError | DavError::XmlWriterError => StatusCode::INTERNAL_SERVER_ERROR,
            DavError::Utf8Error => StatusCode::UNSUPPORTED_MEDIA_TYPE,
            DavError::Status(code) | DavError::StatusClose(code) => *code,
            DavError::FsError(error) => error.status(),
            DavError::IoError(kind) => match kind {
                ErrorKind::NotFound => StatusCode::NOT_FOUND,
                ErrorKind::PermissionDenied => StatusCode::FORBIDDEN,
                ErrorKind::AlreadyExists => StatusCode::CONFLICT,
                ErrorKind::TimedOut => StatusCode::GATEWAY_TIMEOUT,
                _ => StatusCode::BAD_GATEWAY,
            },
        }
    }

    /// Whether the connection is to be closed after the reply.
    pub fn must_close(&self) -> bool
        ensures { result ≡ closes_connection self.now }
    {
        !matches!(
            self,
            DavError::Status(_)
                | DavError::FsError(FsError::NotFound)
                | DavError::FsError(FsError::Forbidden)
                | DavError::FsError(FsError::Exists)
        )
    }

    /// The kind of an error of reading and writing that stands for it.
    pub fn io_kind(&self) -> ErrorKind
        ensures { result ≡ dav_kind self.now }
    {
        match self {
            DavError::IoError(kind) => *kind,
            DavError::FsError(error) => error.io_kind(),
            _ => ErrorKind::Other,
        }
    }
}

impl From<ParseError> for DavError {
    ghost use Rattle.dav_path_core.specs.DavErrors.{error_of_path};

    ghost from_gives = { λ error e. e ≡ error_of_path error };

    fn from(error: ParseError) -> Self {
        match error {
            ParseError::InvalidPath => DavError::InvalidPath,
            ParseError::PrefixMismatch => DavError::IllegalPath,
            ParseError::ForbiddenPath => DavError::ForbiddenPath,
            ParseError::OutOfMemory => DavError::FsError(FsError::InsufficientStorage),
        }
    }
}

impl From<FsError> for DavError {
    ghost use Rattle.dav_path_core.specs.declared.errors.DavError.TheVariants as dav;

    ghost from_gives = { λ error e. e ≡ dav.FsError error };

    fn from(error: FsError) -> Self {
        Self::FsError(error)
    }
}

impl From<StatusCode> for DavError {
    ghost use Rattle.dav_path_core.specs.declared.errors.DavError.TheVariants as dav;

    ghost from_gives = { λ code e. e ≡ dav.Status code };

    fn from(code: StatusCode) -> Self {
        Self::Status(code)
    }
}

impl From<Utf8Error> for DavError {
    ghost use Rattle.dav_path_core.specs.declared.errors.DavError.TheVariants as dav;

    ghost from_gives = { λ _ e. e ≡ dav.Utf8Error };

    fn from(_: Utf8Error) -> Self {
        Self::Utf8Error
    }
}

impl<A: Allocator> From<FromUtf8Error<A>> for DavError {
    ghost use Rattle.dav_path_core.specs.declared.errors.DavError.TheVariants as dav;

    ghost from_gives = { λ _ e. e ≡ dav.Utf8Error };

    fn from(_: FromUtf8Error<A>) -> Self {
        DavError::Utf8Error
    }
}
