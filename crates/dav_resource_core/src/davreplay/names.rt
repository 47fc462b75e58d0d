//! The names of errors, as answers tell them.
ghost use Rattle.std.specs.Prelude.{◌≡◌};
ghost use Rattle.dav_resource_core.specs.AnswerTexts.{file_error_text, path_error_text};

use dav_path_core::davpath::ParseError;
use dav_path_core::errors::FsError;

/// Why a call on files is refused.
pub(super) fn file_error(error: FsError) -> &'static str
    ensures { result.now ≡ file_error_text error }
{
    match error {
        FsError::NotImplemented => "NotImplemented",
        FsError::GeneralFailure => "GeneralFailure",
        FsError::Exists => "Exists",
        FsError::NotFound => "NotFound",
        FsError::Forbidden => "Forbidden",
        FsError::InsufficientStorage => "InsufficientStorage",
        FsError::LoopDetected => "LoopDetected",
        FsError::PathTooLong => "PathTooLong",
        FsError::TooLarge => "TooLarge",
        FsError::IsRemote => "IsRemote",
    }
}

/// Why a text isn't read as a path.
pub(super) fn path_error(error: ParseError) -> &'static str
    ensures { result.now ≡ path_error_text error }
{
    match error {
        ParseError::InvalidPath => "InvalidPath",
        ParseError::PrefixMismatch => "PrefixMismatch",
        ParseError::ForbiddenPath => "ForbiddenPath",
        ParseError::OutOfMemory => "OutOfMemory",
    }
}
