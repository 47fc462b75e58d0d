//! Why a note was not made.
ghost use Rattle.std.specs.Prelude.{◌≡◌};

use dav_guarded_core::guarded::Refusal;
use std::alloc::AllocError;

/// Why there is no room for a note (own).
#[derive(Drop)]
pub enum NoteError {
    /// There was no memory for it.
    OutOfMemory,
    /// It may have more bytes in a record than are left.
    NoRoom,
}

impl From<AllocError> for NoteError {
    ghost use Rattle.dav_notes_core.specs.declared.error.NoteError.TheVariants as error;

    ghost from_gives = { λ _ e. e ≡ error.OutOfMemory };

    fn from(_: AllocError) -> Self {
        NoteError::OutOfMemory
    }
}

impl From<NoteError> for Refusal {
    ghost use Rattle.dav_guarded_core.specs.declared.guarded.requests.Refusal.TheVariants as refusal;

    ghost from_gives = { λ _ r. r ≡ refusal.OutOfMemory };

    /// Either way nothing was done for want of storage.
    fn from(_: NoteError) -> Self {
        Refusal::OutOfMemory
    }
}
