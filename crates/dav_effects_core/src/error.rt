//! Why a record is not read.
ghost use Rattle.std.specs.Prelude.{◌≡◌};
ghost use Rattle.dav_effects_core.specs.Reads.{at_field as placed};
ghost use Rattle.dav_effects_core.specs.RecordFaults.{record_fault};
ghost use Rattle.dav_effects_core.specs.declared.error.ReadError.TheVariants.{Memory};

use dav_path_core::davpath::ParseError;
use std::alloc::{AllocError, AllocFailed};

/// Why a record is not read (own).
#[derive(Drop)]
pub enum RecordError {
    /// There is no memory for it.
    OutOfMemory,
    /// It is no record.
    Damaged {
        /// The byte at which the first field stands that is none.
        at: usize,
    },
}

/// Why a field is not read (own).
#[derive(Drop)]
pub enum ReadError {
    /// There is no memory for it.
    Memory,
    /// With so many bytes left, a field begins that is none.
    Fault(usize),
}

impl From<AllocError> for ReadError {
    ghost from_gives = { λ _ e. e ≡ Memory };

    fn from(_error: AllocError) -> ReadError {
        ReadError::Memory
    }
}

impl<T: Drop> From<AllocFailed<T>> for ReadError {
    ghost from_gives = { λ _ e. e ≡ Memory };

    fn from(_error: AllocFailed<T>) -> ReadError {
        ReadError::Memory
    }
}

// A path is made of its parts unless there is no memory for it.
impl From<ParseError> for ReadError {
    ghost from_gives = { λ _ e. e ≡ Memory };

    fn from(_error: ParseError) -> ReadError {
        ReadError::Memory
    }
}

/// Why a field is not read, with so many bytes left at its begin, where something within it is not.
pub(crate) fn at_field(error: ReadError, left: usize) -> ReadError
    ensures { result ≡ placed left error }
{
    match error {
        ReadError::Fault(_) => ReadError::Fault(left),
        memory => memory,
    }
}

/// Of a field that is not read, where it stands, by the byte at which what holds it ends (own).
pub fn record_error(error: ReadError, end: usize) -> RecordError
    ensures { result ≡ record_fault end error }
{
    match error {
        ReadError::Memory => RecordError::OutOfMemory,
        ReadError::Fault(left) => RecordError::Damaged {
            at: end.saturating_sub(left),
        },
    }
}
