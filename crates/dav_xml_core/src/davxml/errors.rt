//! Why a text isn't read.
ghost use Rattle.std.specs.Prelude.{◌≡◌};

use std::alloc::{AllocError, AllocFailed};
use thiserror::Error;

/// Why a text isn't read as a document (own). It displays as the case's name.
#[derive(Debug, Drop, Error, Clone, Copy, PartialEq, Eq)]
pub enum XmlError {
    /// It is no well-formed document with namespaces. What can't be read begins at this byte.
    #[error("NotWellFormed")]
    NotWellFormed {
        /// Bytes before it.
        at: usize,
    },
    /// It has a document type declaration, which is never read.
    #[error("DocumentType")]
    DocumentType,
    /// It is, or says that it is, in another encoding than UTF-8.
    #[error("Encoding")]
    Encoding,
    /// There is no memory for it.
    #[error("OutOfMemory")]
    OutOfMemory,
}

/// Why a part of a text isn't read.
#[derive(Drop, Clone, Copy, PartialEq, Eq)]
pub(super) enum Fault {
    /// It is not as its production says.
    Malformed,
    /// There is no memory for it.
    Memory,
}

impl From<AllocError> for Fault {
    ghost use Rattle.dav_xml_core.specs.declared.davxml.errors.Fault.TheVariants.{Memory};

    ghost from_gives = { λ _ e. e ≡ Memory };

    fn from(_: AllocError) -> Self {
        Fault::Memory
    }
}

impl<T: Drop> From<AllocFailed<T>> for Fault {
    ghost use Rattle.dav_xml_core.specs.declared.davxml.errors.Fault.TheVariants.{Memory};

    ghost from_gives = { λ _ e. e ≡ Memory };

    fn from(_: AllocFailed<T>) -> Self {
        Fault::Memory
    }
}

impl From<AllocError> for XmlError {
    ghost use Rattle.dav_xml_core.specs.declared.davxml.errors.XmlError.TheVariants.{OutOfMemory};

    ghost from_gives = { λ _ e. e ≡ OutOfMemory };

    fn from(_: AllocError) -> Self {
        XmlError::OutOfMemory
    }
}

impl<T: Drop> From<AllocFailed<T>> for XmlError {
    ghost use Rattle.dav_xml_core.specs.declared.davxml.errors.XmlError.TheVariants.{OutOfMemory};

    ghost from_gives = { λ _ e. e ≡ OutOfMemory };

    fn from(_: AllocFailed<T>) -> Self {
        XmlError::OutOfMemory
    }
}

/// Why a document isn't read.
#[derive(Drop, Clone, Copy, PartialEq, Eq)]
pub(super) enum Halt {
    /// It is not as the productions say, from where so many characters are left.
    Malformed {
        /// Characters from there on.
        left: usize,
    },
    /// A document type declaration stands there.
    DocumentType,
    /// It says that it is in another encoding.
    Encoding,
    /// There is no memory for it.
    Memory,
}

impl From<AllocError> for Halt {
    ghost use Rattle.dav_xml_core.specs.declared.davxml.errors.Halt.TheVariants.{Memory};

    ghost from_gives = { λ _ e. e ≡ Memory };

    fn from(_: AllocError) -> Self {
        Halt::Memory
    }
}
