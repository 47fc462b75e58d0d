//! Why a line gets no other answer than a name.
use dav_headers_core::davheaders::HeaderError;
use dav_path_core::davpath::ParseError;
use dav_path_core::util::InvalidMethod;
use dav_xml_core::davxml::XmlError;
use std::alloc::AllocError;
use thiserror::Error;

/// Why a line gets no other answer than a name, as which it displays.
#[derive(Debug, Drop, Error)]
pub enum Refusal {
    /// Its kind is unknown, or it has another count or form of words.
    #[error("malformed")]
    Malformed,
    /// There is no memory for its answer.
    #[error("OutOfMemory")]
    OutOfMemory(#[from(alloc)] AllocError),
    /// No header can have these bytes as a value.
    #[error("InvalidValue")]
    Value,
    /// The bytes are no request target.
    #[error("InvalidTarget")]
    Target,
    /// The header isn't read.
    #[error("{0}")]
    Header(#[from] HeaderError),
    /// The path isn't read, or has no such prefix.
    #[error("{0}")]
    Path(#[from] ParseError),
    /// The bytes are read as no document.
    #[error("{0}")]
    Xml(#[from] XmlError),
    /// A word stands for no method.
    #[error("{0}")]
    Method(#[from] InvalidMethod),
}
