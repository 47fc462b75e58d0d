//! The header of a journal.
ghost use Rattle.std.specs.Prelude.{◌≡◌, ◌≢◌, ◌<◌, ◌≤◌, ◌↔◌, ◌++◌, ◌∷◌, List, ℕ, IsTrue, IfOk, IfErr, IfSome, MatchOption, length, None};
ghost use Rattle.journal_core.specs.Format.{IsOf64Bits, header_text, magic, version_word, word_of};
ghost use Rattle.journal_core.specs.JournalReading.{HasReadCause, IsNoHeader, IsOfJournal, IsRefusal};
ghost use Rattle.journal_core.specs.declared.error.JournalError.TheVariants.{TooLarge};

use crate::error::JournalError;
use crate::parsing::number_of;
use crate::sum::sum_at;
use std::alloc::{AllocError, Global};

/// How many bytes a header has, and so where the first gate is.
pub(crate) const HEADER: usize = 56;

/// What the header of a journal says (own).
#[derive(Clone, Copy, PartialEq, Eq)]
pub struct Header {
    /// How often what the journal keeps was written anew.
    pub generation: u64,
    /// The key of the sums. It is drawn at random once, when the file is made.
    pub key: u64,
    /// The moment at which what is kept began, in nanoseconds since 1970.
    pub began: u64,
}

/// The header behind its first byte.
pub(crate) fn header_bytes(alloc: Global, header: &Header) -> Result<Vec<u8>, AllocError>
    ensures { IfOk result (λ text. text.items ≡ header_text header.now) }
{
    let mut text = Vec::new(alloc);
    text.extend_from_slice(b"urnal01\x01\0\0\0\0\0\0\0")?;
    text.extend_from_slice(&header.generation.to_le_bytes())?;
    text.extend_from_slice(&header.key.to_le_bytes())?;
    text.extend_from_slice(&header.began.to_le_bytes())?;
    text.extend_from_slice(&(HEADER as u64).to_le_bytes())?;
    let own = sum_at(0, 0, &text);
    text.extend_from_slice(&own.to_le_bytes())?;
    Ok(text)
}

/// What the header says that these bytes are. `Foreign` where they do not begin as a journal does, `Unsupported` where they do and it is of another version or has flags, and else `Damaged`.
pub(crate) fn read_header(alloc: Global, bytes: &[u8]) -> Result<Header, JournalError>
    requires { length bytes.now ≤ 56 }
    ensures reads { IfOk result (λ h. IsOf64Bits h × ((first : ℕ) × (first ≢ 0) × (bytes.now ≡ first ∷ header_text h))) }
    ensures refused { IfErr result (λ e. IsRefusal e → IsNoHeader e bytes.now) }
    ensures cause { IfErr result (λ e. HasReadCause ⊥ e × (e ≢ TooLarge)) }
{
    let Some(text) = behind_magic(bytes) else {
        return Err(JournalError::Foreign);
    };
    let Some((version, numbers)) = text.split_first_chunk::<8>() else {
        return Err(JournalError::Damaged(0));
    };
    if !is_version(version) {
        return Err(JournalError::Unsupported);
    }
    let Some(header) = read_numbers(numbers) else {
        return Err(JournalError::Damaged(0));
    };
    let text = header_bytes(alloc, &header)?;
    if !are_same(&text, &bytes[1..]) {
        return Err(JournalError::Damaged(0));
    }
    Ok(header)
}

fn are_same(text: &[u8], bytes: &[u8]) -> bool
    ensures { IsTrue result ↔ (text.now ≡ bytes.now) }
{
    text == bytes
}

// What stands behind the first byte, which is not zero, and the name.
fn behind_magic(bytes: &[u8]) -> Option<&[u8]>
    ensures { MatchOption result (¬ (IsOfJournal bytes.now)) (λ rest. (first : ℕ) × (first ≢ 0) × (bytes.now ≡ (first ∷ magic) ++ rest.now)) }
{
    let (first, after) = bytes.split_first()?;
    let (name, rest) = after.split_first_chunk::<7>()?;
    if *first == 0 || !is_magic(name) {
        return None;
    }
    Some(rest)
}

fn is_magic(name: &[u8; 7]) -> bool
    ensures { IsTrue result ↔ (name.now ≡ magic) }
{
    name == b"urnal01"
}

fn is_version(word: &[u8; 8]) -> bool
    ensures { IsTrue result ↔ (word.now ≡ version_word) }
{
    word == b"\x01\0\0\0\0\0\0\0"
}

// The three numbers at the front.
fn read_numbers(bytes: &[u8]) -> Option<Header>
    ensures some { IfSome result (λ h. IsOf64Bits h × ((rest : List ℕ) × (bytes.now ≡ word_of h.generation ++ (word_of h.key ++ (word_of h.began ++ rest))))) }
    ensures none { result ≡ None → length bytes.now < 24 }
{
    let (generation, bytes) = bytes.split_first_chunk::<8>()?;
    let (key, bytes) = bytes.split_first_chunk::<8>()?;
    let (began, _rest) = bytes.split_first_chunk::<8>()?;
    Some(Header {
        generation: number_of(generation),
        key: number_of(key),
        began: number_of(began),
    })
}
