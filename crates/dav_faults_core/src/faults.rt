//! Why a request is refused, and by which status.
ghost use Rattle.std.specs.Prelude.{◌≡◌};
ghost use Rattle.dav_faults_core.specs.Faults.{fault_status};

use dav_headers_core::davheaders::HeaderError;
use dav_path_core::davpath::{DavPath, ParseError};
use dav_xml_core::davxml::XmlError;
use http::StatusCode;
use std::alloc::{AllocError, AllocFailed};

/// Why an HTTP request is refused. Nothing was changed, but locks that have expired may be gone.
#[derive(Drop)]
pub enum Fault {
    /// 207: a lock of a member stands in the way, at this path (RFC 4918 sections 9.6.1 and 13).
    MemberLocked(DavPath),
    /// 207: a lock of a member, at the first path, lets none be granted at the second (RFC 4918 section 9.10.3).
    ConflictingMember(DavPath, DavPath),
    /// 400: the target is no path, or a header can't be read (RFC 9110 section 15.5.1).
    BadRequest,
    /// 401: nobody is named where somebody has to be (RFC 9110 section 15.5.2).
    Unauthorized,
    /// 403: the path leads out of the root (RFC 9110 section 15.5.4).
    Forbidden,
    /// 403: a PROPFIND reaches all the way down, and the server refuses that (RFC 4918 sections 9.1 and 16).
    InfiniteDepth,
    /// 404: there is nothing at the path, or it isn't behind the prefix (RFC 9110 section 15.5.5).
    NotFound,
    /// 405: what stands at the path doesn't take the method (RFC 9110 section 15.5.6).
    MethodNotAllowed {
        /// A folder stands there, else a file.
        folder: bool,
    },
    /// 409: there is no folder in which the path could stand (RFC 4918 section 9.7.1).
    Conflict,
    /// 409: no lock with the token covers the path (RFC 4918 sections 9.11.1 and 16).
    NoSuchLock,
    /// 412: a condition of the request doesn't hold (RFC 9110 section 15.5.13, RFC 4918 section 12.1).
    PreconditionFailed,
    /// 415: the body is one that the method doesn't take (RFC 4918 section 9.3.1).
    UnsupportedMediaType,
    /// 423: a lock stands in the way, at this path (RFC 4918 sections 11.3 and 16).
    Locked(DavPath),
    /// 423: another lock lets this one not be granted, at this path (RFC 4918 sections 9.10.5 and 16).
    ConflictingLock(DavPath),
    /// 501: the method isn't served (RFC 9110 section 15.6.2).
    NotImplemented,
    /// 502: the `Destination` is another server's, or not behind the prefix (RFC 4918 section 9.8.5).
    BadGateway,
    /// 503: no later moment is left for a change (own).
    ServiceUnavailable,
    /// 507: there is no memory for it (RFC 4918 section 11.5).
    InsufficientStorage,
}

impl Fault {
    /// The status of the answer.
    pub fn status(&self) -> StatusCode
        ensures { result ≡ fault_status self.now }
    {
        match self {
            Fault::MemberLocked(_) => StatusCode::MULTI_STATUS,
            Fault::ConflictingMember(_, _) => StatusCode::MULTI_STATUS,
            Fault::BadRequest => StatusCode::BAD_REQUEST,
            Fault::Unauthorized => StatusCode::UNAUTHORIZED,
            Fault::Forbidden => StatusCode::FORBIDDEN,
            Fault::InfiniteDepth => StatusCode::FORBIDDEN,
            Fault::NotFound => StatusCode::NOT_FOUND,
            Fault::MethodNotAllowed { .. } => StatusCode::METHOD_NOT_ALLOWED,
            Fault::Conflict => StatusCode::CONFLICT,
            Fault::NoSuchLock => StatusCode::CONFLICT,
            Fault::PreconditionFailed => StatusCode::PRECONDITION_FAILED,
            Fault::UnsupportedMediaType => StatusCode::UNSUPPORTED_MEDIA_TYPE,
            Fault::Locked(_) => StatusCode::LOCKED,
            Fault::ConflictingLock(_) => StatusCode::LOCKED,
            Fault::NotImplemented => StatusCode::NOT_IMPLEMENTED,
            Fault::BadGateway => StatusCode::BAD_GATEWAY,
            Fault::ServiceUnavailable => StatusCode::SERVICE_UNAVAILABLE,
            Fault::InsufficientStorage => StatusCode::INSUFFICIENT_STORAGE,
        }
    }
}

impl From<AllocError> for Fault {
    ghost use Rattle.dav_faults_core.specs.declared.faults.Fault.TheVariants.{InsufficientStorage};

    ghost from_gives = { λ _ fault. fault ≡ InsufficientStorage };

    fn from(_: AllocError) -> Self {
        Fault::InsufficientStorage
    }
}

impl<T: Drop> From<AllocFailed<T>> for Fault {
    ghost use Rattle.dav_faults_core.specs.declared.faults.Fault.TheVariants.{InsufficientStorage};

    ghost from_gives = { λ _ fault. fault ≡ InsufficientStorage };

    fn from(_: AllocFailed<T>) -> Self {
        Fault::InsufficientStorage
    }
}

impl From<ParseError> for Fault {
    ghost use Rattle.dav_faults_core.specs.Faults.{fault_of_path};

    ghost from_gives = { λ error fault. fault ≡ fault_of_path error };

    fn from(error: ParseError) -> Self {
        match error {
            ParseError::InvalidPath => Fault::BadRequest,
            ParseError::PrefixMismatch => Fault::NotFound,
            ParseError::ForbiddenPath => Fault::Forbidden,
            ParseError::OutOfMemory => Fault::InsufficientStorage,
        }
    }
}

impl From<HeaderError> for Fault {
    ghost use Rattle.dav_faults_core.specs.Faults.{fault_of_header};

    ghost from_gives = { λ error fault. fault ≡ fault_of_header error };

    fn from(error: HeaderError) -> Self {
        match error {
            HeaderError::Invalid => Fault::BadRequest,
            HeaderError::OutOfMemory => Fault::InsufficientStorage,
        }
    }
}

impl From<XmlError> for Fault {
    ghost use Rattle.dav_faults_core.specs.Faults.{fault_of_xml};

    ghost from_gives = { λ error fault. fault ≡ fault_of_xml error };

    fn from(error: XmlError) -> Self {
        match error {
            XmlError::NotWellFormed { .. } | XmlError::DocumentType | XmlError::Encoding =>
                Fault::BadRequest,
            XmlError::OutOfMemory => Fault::InsufficientStorage,
        }
    }
}
