//! Entity tags of files.
ghost use Rattle.std.specs.Prelude.{◌≡◌, ◌<◌, ◌^◌, ℕ, true, false, IfOk, IfErr, Some, string_bytes};
ghost use Rattle.http_header.specs.FieldValue.{IsFieldValue};
ghost use Rattle.dav_headers_core.specs.Tags.{is_weak, new_tag};
ghost use Rattle.dav_headers_core.specs.declared.davheaders.errors.HeaderError.TheVariants as header;
ghost use Rattle.dav_fields_core.specs.FileTags as spec;
ghost use Rattle.dav_fields_core.specs.ListedTags.{is_entity_tag};

use dav_files_core::fs::Moment;
use dav_headers_core::davheaders::{ETag, HeaderError};
use std::alloc::{AllocError, Global};

/// What stands at a path, as conditions see it.
#[derive(Drop)]
pub enum Standing {
    /// Nothing.
    Nothing,
    /// A folder, which has no tag.
    Folder,
    /// A file with this tag, changed last at this moment.
    File {
        /// The tag of its bytes.
        tag: ETag,
        /// The moment of its last change.
        modified: Moment,
        /// The latest of the moments along its path: those at which it was made and changed last, and those at which the folders above were changed last.
        latest: Moment,
    },
}

/// The strong tag of a file (RFC 9110 section 8.8.3), from its modified moment and its length (own). Its cost does not grow with the file.
///
/// `OutOfMemory` where there is no memory for it.
pub fn file_tag(alloc: Global, modified: Moment, length: u64) -> Result<ETag, HeaderError>
    ensures ok { IfOk result (λ tag. tag ≡ spec.file_tag modified.0 length) }
    ensures shown { IfOk result (λ tag. IsFieldValue tag) }
    ensures err { IfErr result (λ e. e ≡ header.OutOfMemory) }
{
    let text = tag_text(alloc, modified.0, length)?;
    ETag::new(alloc, false, &text)
}

// What stands between the quotes of a file's tag.
fn tag_text(alloc: Global, modified: u64, length: u64) -> Result<String, AllocError>
    ensures { IfOk result (λ text. (string_bytes text ≡ spec.tag_text modified length)
        × (new_tag false (string_bytes text) ≡ Some (spec.file_tag modified length)) × IsFieldValue (spec.file_tag modified length)) }
{
    format!(in alloc; "{modified}-{length}")
}

/// The law of tags: two files with equal tags have equal modified moments and equal lengths. It does nothing.
pub fn file_tags_tell()
    ensures { (m n other_m other_n : ℕ) → m < 2 ^ 64 → n < 2 ^ 64 → other_m < 2 ^ 64 → other_n < 2 ^ 64
        → spec.file_tag m n ≡ spec.file_tag other_m other_n → (m ≡ other_m) × (n ≡ other_n) }
{}

/// The law that the tag of a file is strong, and spelled as the lists of conditions spell one: a client that sends it back is read. It does nothing.
pub fn file_tags_are_read()
    ensures { (m n : ℕ) → m < 2 ^ 64 → n < 2 ^ 64 → (is_entity_tag (spec.file_tag m n) ≡ true) × (is_weak (spec.file_tag m n) ≡ false) }
{}
